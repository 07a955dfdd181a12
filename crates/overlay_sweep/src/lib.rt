// The overlay's vertices as a line meets them that passes over the plane from the smallest point upward (02, Ask 10).
#![tactic(auto)]

mod sheet; // the edges of all maps
mod ends; // which of an edge's end and a point comes first
mod search; // where the status has a point on its right, and where it goes through it
mod slots; // edges put in their slots: in a fan by falling angle, waiting by lower end
mod earlier; // which of two points comes first, mostly by height alone
mod queue; // points put in their places
mod splice; // a part of the status exchanged
mod fans; // the edges that leave a point
mod ahead; // the crossing of two neighbours
mod corners; // the corners in the queue
mod through; // the edges through a stop
mod turn; // from one stop to the next
mod stops; // all stops

pub use stops::{Swept, sweep};

// Followers and looks of a graph in flat tables.
#![tactic(auto)]

mod flat; // a graph in flat tables
mod places; // the first place of each number in a table
mod heading; // which way a half-edge goes
mod rising; // points in their order
mod small; // small graphs
mod stars; // the follower of every half-edge: the half-edges out of each vertex by falling angle
mod look; // looking west

pub use flat::FlatGraph;
pub use heading::{carrier_at, headings, headings_by, point_at, start, store_carrier, twin};
pub use look::{candidate, east_side, nearest, seen_half, seen_label};
pub use places::{fill, first_places};
pub use rising::{rise, starts_first};
pub use small::is_small;
pub use stars::follow_stars;

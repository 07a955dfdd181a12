// The lines of the listing (01, "Worked sheets") as text, and the line of an edge, for programs to print.
#![tactic(auto)]

mod cells; // the face table
mod edges; // the line of an edge
mod line; // words and numbers, one behind the other
mod lines; // the lines
mod whole; // the whole listing

pub use edges::edge_line;
pub use lines::refused_line;
pub use whole::{listing, refused_listing};

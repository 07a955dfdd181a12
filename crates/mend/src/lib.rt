// Mending digitised maps (02, Ask 9). The file is decoded once into tables of points, origins and labels; then the vertex into which each vertex is merged, the
// ends of each edge afterwards, and the step that drops each edge and each vertex are each worked out once into a table.
#![tactic(auto)]

mod faults; // refusals 5 and 7 of a map in tables
mod packed; // pairs of numbers as one number each
mod merge; // step 1: into which vertex, and the ends afterwards
mod steps; // the step that drops each vertex and edge
mod numbers; // what is kept, counted
mod laid; // the tables of what a map becomes
mod bytes; // the mended file
mod entries; // the list
mod answer; // what is answered
mod outcome; // the operation

pub use answer::Mending;
use limits::{MAP_EDGE_SIZE, MAP_EDGES, MAP_HEAD, MAP_VERTEX_SIZE, MAP_VERTICES};
pub use outcome::mend;

// A lent file of so many bytes is always long enough: the longest map's.
pub const MEND_FILE: usize = MAP_HEAD
    + MAP_VERTEX_SIZE * MAP_VERTICES as usize
    + MAP_EDGE_SIZE * MAP_EDGES as usize;

// So is a lent list of so many numbers: two for each vertex and edge.
pub const MEND_LIST: usize = 2 * (MAP_VERTICES as usize + MAP_EDGES as usize);

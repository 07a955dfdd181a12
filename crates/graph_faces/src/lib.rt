// Walks and faces of a graph in flat tables.
#![tactic(auto)]

mod walks; // the least half-edge of each walk, its smallest vertex, hole walk or outer walk
mod links; // followers and walks, in tables that are lent
mod linking; // all of it at once
mod looking; // what a hole walk sees
mod numbering; // faces and their hole walks

pub use linking::{enclose, link};

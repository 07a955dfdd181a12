// The triple of each face: the labels of its least outer half-edge in every map.
#![tactic(auto)]

mod along; // from a half-edge along its walk to one that lies along an edge of a map
mod label; // the labels of all faces in every map
mod rows; // the rows of all faces

pub use label::lay_labels;
pub use rows::rows_in;

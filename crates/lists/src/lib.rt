// The listing (01, "Worked sheets"): of two map files laid over each other, of the same melted, and of an overlay file; and the overlay file of two map files, and of what is left of it.
#![tactic(auto)]

mod answer; // the text of an answer
mod filed; // the file of what came out
pub mod from_file; // an overlay file, listed
pub mod from_maps; // two map files laid over each other: the listing, the overlay file
pub mod melted; // the same melted: the listing, the overlay file

pub use answer::Listed;

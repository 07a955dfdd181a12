// The overlay file's reader (01, "Overlay file"), for arbitrary bytes and tables of any lengths.
#![tactic(auto)]

mod stored; // the stored fields of a file
mod head; // rules 1 to 4
mod sound; // sound edge records
mod fill; // the tables that a file holds
mod reader; // the reader

pub use reader::{judge, read};
pub use stored::{Stored, counts, faces_start, label, layout_in};

// What the programs share: their arguments, files by name, refusals and edges as text. No contract can say what is read or written; the answers, and the lines of the listing and of an edge,
// come from proved functions on slices.
#![tactic(auto)]

mod arguments; // the program's arguments
mod clash; // refusal 8 in a sentence
mod corner; // refusals 5, 6 and 9 in a sentence
mod edges; // the edges of an overlay file
mod files; // files by name
mod lines; // the lines of answers
mod place; // where a map file is refused
mod records; // files of records
mod sentence; // a refusal in a sentence

pub use arguments::{any_long_option, args, word};
pub use clash::Clash;
pub use edges::say_edges;
pub use files::{Input, each_input, each_map, fail, open, read_full, save, say_name};
pub use lines::{Refused, say_check, say_refused};
pub use place::Place;
pub use records::each_record;
pub use sentence::{MendSentence, Sentence};

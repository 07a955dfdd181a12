// A pair of labels counted into the sorted table of pairs (02, Ask 3), and a table of pairs tested.
#![tactic(auto)]

mod count; // a pair counted, with the place where it stands or is put in
mod table; // whether a table's rows stand in order, and the sum of its counts

pub use count::put_cell;
pub use table::{falls, sum};

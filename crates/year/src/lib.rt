// The year in whole numbers (02, Ask 14), file by file: the table of pairs with its counts, and what is refused so far.
#![tactic(auto)]

mod face; // one face more
mod faces; // the faces of a file
mod state; // the year so far
mod next; // one file more
mod answer; // what comes of the whole run

pub use answer::{Totals, close};
pub use next::add;
pub use state::{Sums, Year, begin};

// How many edges a look reads (02, Ask 8): a map's edges in the order of their lower ends, and a look that takes them from the start and stops at the first that starts higher.
#![tactic(auto)]

mod ordering; // a map's edges ordered by lower end
mod rails; // the edges laid in that order
mod reading; // the look, and how many edges it reads
mod label; // the label of what it sees
mod straying; // rows that are no edges between corners

pub use label::{Labelled, label_read};
pub use ordering::lay_order;
pub use rails::lay_rails;
pub use reading::{Looked, look_read};
pub use straying::strays;

// "The answer is either the three counts or a refusal with number, map and place."
use crate::room::Counts;
use map_file::Refusal;

pub type Answer = Result<Counts, Refusal>;

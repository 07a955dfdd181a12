// The check of one map (01, "When a map is refused"), and its tables: the file is decoded once, and rules 5 to 10 are found on what it was decoded into.
#![tactic(auto)]

mod parts; // rules 5 to 7, and the carriers
mod edges; // rules 8 and 9
mod pairs; // two edges that do not clash
mod few; // rule 8 of few edges
mod ordered; // edges in order as one value
mod near; // edges near each other
mod pass; // rule 8 by a pass from below
mod labels; // rule 10
mod rules; // rules 8 to 10, one after the other
mod answer; // what is answered
mod lay; // a file checked and laid in tables

ghost use Rattle.std.specs.Prelude.{◌≡◌};
ghost use Rattle.paper.specs.Map.{check};
ghost use Rattle.map_check.specs.Answer.{answer_of};

pub use answer::{Checked, Counts};
pub use lay::lay_map;
use limits::{MAP_CARRIER_CELLS, MAP_HALVES, MAP_POINT_CELLS};
pub use parts::first_too_far;

// Checks a map file of any bytes: its vertex and edge counts, or the refusal of the first rule broken, with map 0.
pub fn check(file: &[u8]) -> Checked
    ensures { answer_of result ≡ check file.now }
{
    let mut corners = [0i64; MAP_POINT_CELLS];
    let mut origins = [0u16; MAP_HALVES];
    let mut carriers = [0i16; MAP_CARRIER_CELLS];
    let mut labels = [0u16; MAP_HALVES];
    lay_map(file, &mut corners, &mut origins, &mut carriers, &mut labels)
}

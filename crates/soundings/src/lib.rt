// Soundings by cell (02, Ask 3): the labels of a sounding in each map, counted by pairs, and how many edges are read for them (Ask 8). `soundings` answers a whole list. In batches: `begin` checks the maps and lays
// them for looks, once; then `add` for each batch, of any bytes; then `close`. None of them asks for anything, and whatever the cut, the answer is that of the whole list (specs/Unique.antt).
#![tactic(auto)]

mod maps; // the edges of both maps, laid for looks
mod sounding; // a sounding, and its labels in the maps
mod lay; // the two maps checked and laid for looks
mod state; // where a count stands, and its start
mod sound; // whether a count that was handed in can go on
mod tally; // what a batch changes of a count
mod bytes; // bytes added to a count
mod batch; // a batch added
mod answer; // what is answered, and the lent tables afterwards
mod closing; // the answer after the last batch

ghost use Rattle.std.specs.Prelude.{◌≡◌, [], ◌∷◌, length};
ghost use Rattle.paper.specs.Soundings.{soundings};
ghost use Rattle.soundings.specs.Answer.{room_by, counted_of};

pub use answer::Cells;
pub use batch::add;
pub use closing::close;
use map_file::Refusal;
pub use state::{Count, Progress, begin};

// The soundings of a list by cell, of two map files and a list of any bytes: each pair of labels that occurs, sorted, in rows of the labels, and how often in the counts; zeros past
// them. Or the refusal of the first rule broken, and zeros. The whole list is one batch.
pub fn soundings(
    zones: &[u8],
    blocks: &[u8],
    list: &[u8],
    labels: &mut [u16],
    counts: &mut [u32],
) -> Result<Cells, Refusal>
    ensures { counted_of result labels.new counts.new ≡ soundings (room_by (length labels.old) (length counts.old)) (zones.now ∷ blocks.now ∷ []) list.now }
{
    let start = begin(zones, blocks);
    let count = add(start, list);
    close(count, labels, counts)
}

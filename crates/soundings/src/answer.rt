// What is answered: how many pairs and soundings there are and how many edges were read, or a refusal; and the lent tables afterwards.
ghost use Rattle.std.specs.Prelude.{◌≡◌, ◌*◌, ◌≤◌, min, length};
ghost use Rattle.seq.specs.Seq.{none};
ghost use Rattle.paper.specs.Limits.{overlay_faces, list_soundings};
ghost use Rattle.paper.specs.Soundings.{entry_room, counted};
ghost use Rattle.map_file.specs.Verdict.{refusal_of};
ghost use Rattle.soundings_count.specs.Entries.{pair_width, entries_in};
ghost use Rattle.laws_soundings.specs.Run.{cells_by};
ghost use Rattle.soundings.specs.Answer.{room_by, counted_of, refused_with};

use limits::{FACES, PAIR_WIDTH};
use map_file::Refusal;
use seq::wipe_from;

// How many different pairs occur, how many soundings there are, and how many edges their looks read.
#[derive(Clone, Copy)]
pub struct Cells {
    pub entries: u16,
    pub soundings: u16,
    pub read: u32,
}

// The pairs for which both lent tables have rows, at most 1,334.
pub fn entry_room(labels: usize, counts: usize) -> usize
    ensures { result ≡ entry_room pair_width (room_by labels counts) }
{
    FACES.min((labels / PAIR_WIDTH).min(counts))
}

// "Refused: all lent tables are zero."
pub fn refuse(r: Refusal, labels: &mut [u16], counts: &mut [u32]) -> Result<Cells, Refusal>
    ensures { counted_of result labels.new counts.new ≡ refused_with (room_by (length labels.old) (length counts.old)) (refusal_of r) }
{
    labels.fill(0);
    counts.fill(0);
    Err(r)
}

// "Done: places past the counts are zero."
pub fn finish(
    labels: &mut [u16],
    counts: &mut [u32],
    n: usize,
    soundings: usize,
    read: u32,
) -> Result<Cells, Refusal>
    requires fact_1 { pair_width * n ≤ length labels.old }
    requires fact_2 { n ≤ length counts.old }
    requires fact_3 { n ≤ overlay_faces }
    requires fact_4 { soundings ≤ list_soundings }
    ensures { counted_of result labels.new counts.new ≡ counted (room_by (length labels.old) (length counts.old)) (cells_by n soundings read) (entries_in labels.old counts.old n) none }
{
    wipe_from(labels, PAIR_WIDTH * n, 0);
    wipe_from(counts, n, 0);
    Ok(Cells {
        entries: n as u16,
        soundings: soundings as u16,
        read,
    })
}

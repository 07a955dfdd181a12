// What is answered after the last batch: 12, 13 and 11, place 6, in this order, or the pairs and their counts in the lent tables.
ghost use Rattle.std.specs.Prelude.{◌≡◌, true, ◌*◌, ◌≤◌, length};
ghost use Rattle.seq.specs.Seq.{none};
ghost use Rattle.paper.specs.Limits.{overlay_faces, list_soundings};
ghost use Rattle.paper.specs.Soundings.{counted};
ghost use Rattle.map_file.specs.Verdict.{verdict};
ghost use Rattle.laws_soundings.specs.Run.{cells_by, closed};
ghost use Rattle.soundings_count.specs.Entries.{pair_width, entries_in};
ghost use Rattle.soundings.specs.Answer.{room_by, counted_of};
ghost use Rattle.soundings.specs.State.{run_of};
ghost use Rattle.soundings.specs.Closing.{close_fault};

use crate::answer::{Cells, entry_room, finish, refuse};
use crate::sound::sound;
use crate::state::{Count, Progress};
use limits::{FACES, PAIR_CELLS, PAIR_WIDTH};
use map_file::{Check, Refusal, given};

// What the count is refused for, where there is room for so many pairs. One that cannot go on is refused with 12: it is no list's.
fn fault(p: Progress, fit: bool, room: usize) -> Check
    requires { fit ≡ true → p.soundings ≤ list_soundings }
    ensures { verdict result ≡ close_fault room fit p }
{
    if p.bad != 0 {
        return Err(Refusal {
            number: p.number,
            map: p.map,
            place: p.place,
            other: p.other,
        });
    }
    if !fit || p.rest != 0 {
        return given(12, 0, true);
    }
    if p.far < p.soundings {
        return given(13, p.far as u16, true);
    }
    given(11, 6, room < p.entries)
}

// The pairs and their counts in the lent tables, where there is room for them.
fn lay_pairs(
    own: &[u16; PAIR_CELLS],
    times: &[u32; FACES],
    p: Progress,
    labels: &mut [u16],
    counts: &mut [u32],
) -> Result<Cells, Refusal>
    requires fact_1 { pair_width * p.entries ≤ length labels.old }
    requires fact_2 { p.entries ≤ length counts.old }
    requires fact_3 { p.entries ≤ overlay_faces }
    requires fact_4 { p.soundings ≤ list_soundings }
    ensures { counted_of result labels.new counts.new ≡ counted (room_by (length labels.old) (length counts.old)) (cells_by p.entries p.soundings p.read) (entries_in own.now times.now p.entries) none }
{
    let n = p.entries;
    let cells = PAIR_WIDTH * n;
    labels[..cells].copy_from_slice(&own[..cells]);
    counts[..n].copy_from_slice(&times[..n]);
    finish(labels, counts, n, p.soundings, p.read)
}

// What is answered by a refusal, or by none.
fn answer(
    c: Check,
    own: &[u16; PAIR_CELLS],
    times: &[u32; FACES],
    p: Progress,
    labels: &mut [u16],
    counts: &mut [u32],
) -> Result<Cells, Refusal>
    requires { (verdict c ≡ none → (pair_width * p.entries ≤ length labels.old) × (p.entries ≤ length counts.old) × (p.entries ≤ overlay_faces) × (p.soundings ≤ list_soundings)) }
    ensures { counted_of result labels.new counts.new ≡ counted (room_by (length labels.old) (length counts.old)) (cells_by p.entries p.soundings p.read) (entries_in own.now times.now p.entries) (verdict c) }
{
    match c {
        Err(r) => refuse(r, labels, counts),
        Ok(()) => lay_pairs(own, times, p, labels, counts),
    }
}

// What is answered after the last batch.
pub fn close(count: Count, labels: &mut [u16], counts: &mut [u32]) -> Result<Cells, Refusal>
    ensures { counted_of result labels.new counts.new ≡ closed pair_width (room_by (length labels.old) (length counts.old)) (run_of count) }
{
    let p = count.progress;
    let fit = sound(&count);
    let room = entry_room(labels.len(), counts.len());
    let c = fault(p, fit, room);
    answer(c, &count.labels, &count.counts, p, labels, counts)
}

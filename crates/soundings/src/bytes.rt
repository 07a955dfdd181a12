// Bytes of the list added to a count, one after the other: at each fourth a sounding is counted.
ghost use Rattle.std.specs.Prelude.{◌≡◌};
ghost use Rattle.plane.specs.Values.{vec_of};
ghost use Rattle.plane.specs.Bounds.{Corner};
ghost use Rattle.laws_soundings.specs.Run.{with_sounding, with_byte, next};
ghost use Rattle.laws_soundings.specs.RunFit.{FitRun};
ghost use Rattle.soundings.specs.Rows.{most_read};
ghost use Rattle.soundings.specs.Looks.{look_of};
ghost use Rattle.soundings.specs.State.{tallied_by};
ghost use Rattle.soundings.specs.Tally.{run_at};
ghost use Rattle.soundings.specs.Step.{Roomy, Stepped, Countable};

use crate::maps::Maps;
use crate::sounding::{cell, sounding_in, too_far};
use crate::state::{going, halted};
use crate::tally::Tally;
use limits::{FACES, LIST_SOUNDINGS, PAIR_CELLS, SOUNDING_SIZE};
use map_file::Refusal;
use plane::Vector;
use soundings_count::put_cell;

// How many pairs there are after a sounding, and how many edges were read for it.
#[derive(Clone, Copy)]
pub struct Step {
    pub entries: usize,
    pub read: u32,
}

// Counts a sounding at c into the table of m pairs, unless there are more than room already.
fn count_one<'a>(
    maps: Maps<'a>,
    c: Vector,
    labels: &mut [u16; PAIR_CELLS],
    counts: &mut [u32; FACES],
    m: usize,
) -> Step
    requires fact_1 { Corner (vec_of c) }
    requires fact_2 { Roomy labels.old counts.old m }
    ensures { Stepped (look_of maps.entry) (vec_of c) labels.old counts.old m labels.new counts.new result }
{
    if FACES < m {
        return Step {
            entries: m,
            read: 0,
        };
    }
    let p = cell(maps, c);
    let entries = put_cell(labels, counts, FACES, m, p.first, p.second);
    Step {
        entries,
        read: p.read as u32,
    }
}

// One sounding more, of four bytes.
fn add_sounding<'a>(maps: Maps<'a>, t: &mut Tally)
    requires { Countable t.old.labels t.old.counts t.old.progress }
    ensures { run_at (look_of maps.entry) t.new ≡ with_sounding (look_of maps.entry) t.old.progress.soundings t.old.progress.far (tallied_by t.old.labels t.old.counts t.old.progress.entries t.old.progress.read) t.old.bytes }
{
    let p = t.progress;
    if LIST_SOUNDINGS <= p.soundings {
        t.progress = halted(Refusal {
            number: 12,
            map: 0,
            place: 0,
            other: 0,
        });
        return;
    }
    let all = p.soundings + 1;
    if p.far < p.soundings || too_far(&t.bytes) {
        t.progress = going(all, p.far, p.entries, 0, p.read);
        return;
    }
    let c = sounding_in(&t.bytes);
    let step = count_one(maps, c, &mut t.labels, &mut t.counts, p.entries);
    t.progress = going(all, p.far + 1, step.entries, 0, p.read + step.read);
}

// One byte more. What is refused stays so.
fn add_byte<'a>(maps: Maps<'a>, b: u8, t: &mut Tally)
    requires { FitRun most_read (run_at (look_of maps) t.old) }
    ensures { run_at (look_of maps.entry) t.new ≡ with_byte (run_at (look_of maps.entry) t.old) b }
{
    let p = t.progress;
    if p.bad != 0 {
        return;
    }
    let at = p.rest;
    t.bytes[at] = b;
    if at + 1 < SOUNDING_SIZE {
        t.progress = going(p.soundings, p.far, p.entries, at + 1, p.read);
    } else {
        add_sounding(maps, t);
    }
}

// The bytes of a batch.
pub fn add_bytes<'a>(maps: Maps<'a>, batch: &[u8], t: &mut Tally)
    requires { FitRun most_read (run_at (look_of maps) t.old) }
    ensures { run_at (look_of maps.entry) t.new ≡ next (run_at (look_of maps.entry) t.old) batch.now }
{
    for &b in batch {
        add_byte(maps, b, t);
    }
}

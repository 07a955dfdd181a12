// Soundings by cell for C: the pairs and their counts in lent tables, the edges that the looks read in a third. The whole list at once, or in three steps: where the count stands goes in and comes back by value.
ghost use Rattle.std.specs.Prelude.{◌≡◌, [], ◌∷◌, length};
ghost use Rattle.seq.specs.Seq.{table};
ghost use Rattle.paper.specs.Soundings.{soundings};
ghost use Rattle.laws_soundings.specs.Run.{next, closed};
ghost use Rattle.laws_soundings.specs.RunClosed.{started};
ghost use Rattle.soundings_count.specs.Entries.{pair_width};
ghost use Rattle.soundings.specs.Answer.{room_by};
ghost use Rattle.soundings.specs.State.{run_of};
ghost use Rattle.bonnetewe.specs.Sounded.{told_counted, read_of, read_cell, ToldCells};

use crate::answer::join;
use map_file::Refusal;
use soundings::{Cells, Count};

// The pairs and the soundings above a 0, or the refusal. Both fit 16 bits.
fn of_counted(answer: Result<Cells, Refusal>) -> u64
    ensures { result ≡ told_counted answer }
{
    match answer {
        Ok(c) => join(0, c.entries, c.soundings, 0),
        Err(r) => join(r.number, r.map, r.place, r.other),
    }
}

// How many edges the looks read, 0 where it is refused.
fn read_of(answer: Result<Cells, Refusal>) -> u32
    ensures { result ≡ read_of answer }
{
    match answer {
        Ok(c) => c.read,
        Err(_) => 0,
    }
}

// Cell i of a lent table: the number, and zeros behind.
fn read_cell(n: u32, i: usize) -> u32
    ensures { result ≡ read_cell n i }
{
    if i == 0 {
        return n;
    }
    0
}

// The number where the table has a cell, and zeros behind.
fn lay_read(n: u32, read: &mut [u32])
    ensures { read.new ≡ table (read_cell n) (length read.old) }
{
    let m = read.len();
    for i in 0..m {
        read[i] = read_cell(n, i);
    }
}

// The soundings of a list by cell, of two map files and a list of any bytes: done with the number of pairs, which are so many rows of the labels and the counts, and that of the soundings; or refused.
#[unsafe(no_mangle)]
pub extern "C" fn bonnetewe_soundings(
    zones: &[u8],
    blocks: &[u8],
    list: &[u8],
    labels: &mut [u16],
    counts: &mut [u32],
    read: &mut [u32],
) -> u64
    ensures { ToldCells (soundings (room_by (length labels.old) (length counts.old)) (zones.now ∷ blocks.now ∷ []) list.now) (length read.old) labels.new counts.new read.new result }
{
    let answer = soundings::soundings(zones, blocks, list, labels, counts);
    lay_read(read_of(answer), read);
    of_counted(answer)
}

// No byte of the list yet: two map files of any bytes, checked and laid for looks once.
#[unsafe(no_mangle)]
pub extern "C" fn bonnetewe_soundings_begin(zones: &[u8], blocks: &[u8]) -> Count
    ensures { run_of result ≡ started (zones.now ∷ blocks.now ∷ []) }
{
    soundings::begin(zones, blocks)
}

// One batch more, of any bytes.
#[unsafe(no_mangle)]
pub extern "C" fn bonnetewe_soundings_add(count: Count, batch: &[u8]) -> Count
    ensures { run_of result ≡ next (run_of count) batch.now }
{
    soundings::add(count, batch)
}

// What comes of the batches: what the whole list gives.
#[unsafe(no_mangle)]
pub extern "C" fn bonnetewe_soundings_close(
    count: Count,
    labels: &mut [u16],
    counts: &mut [u32],
    read: &mut [u32],
) -> u64
    ensures { ToldCells (closed pair_width (room_by (length labels.old) (length counts.old)) (run_of count)) (length read.old) labels.new counts.new read.new result }
{
    let answer = soundings::close(count, labels, counts);
    lay_read(read_of(answer), read);
    of_counted(answer)
}

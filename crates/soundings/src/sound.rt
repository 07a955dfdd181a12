// Whether a count that was handed in can go on: no list of soundings leads to one that cannot.
ghost use Rattle.std.specs.Prelude.{◌≡◌, ◌≤◌};
ghost use Rattle.paper.specs.Limits.{overlay_faces, list_soundings};
ghost use Rattle.soundings.specs.Sound.{numbers_sound, rows_sound, table_sound, sound};

use crate::state::{Count, Progress};
use limits::{
    FACES, LIST_SOUNDINGS, MAP_CARRIER_CELLS, MAP_EDGES, PAIR_CELLS, PAIR_WIDTH, SOUNDING_SIZE,
};
use looks::strays;
use soundings_count::{falls, sum};

// The edges that are read for one sounding, at most: all edges of both maps.
const MOST_READ: u64 = PAIR_WIDTH as u64 * MAP_EDGES as u64;

// Whether its numbers are within their bounds.
fn numbers_sound(p: Progress) -> bool
    ensures { result ≡ numbers_sound p }
{
    p.soundings <= LIST_SOUNDINGS && (p.far <= p.soundings && p.rest < SOUNDING_SIZE)
}

// Whether the e rows of a map are edges between corners.
fn rows_sound(rails: &[i16; MAP_CARRIER_CELLS], e: usize) -> bool
    ensures { result ≡ rows_sound rails.now e }
{
    e <= MAP_EDGES as usize && !strays(rails, e)
}

// Whether the pairs stand in strict order, their counts add up to no more than the soundings, and no more edges were read than there are for so many.
fn table_sound(labels: &[u16; PAIR_CELLS], counts: &[u32; FACES], p: Progress) -> bool
    requires fact_1 { p.entries ≤ overlay_faces }
    requires fact_2 { p.soundings ≤ list_soundings }
    ensures { result ≡ table_sound labels.now counts.now p }
{
    let n = p.entries;
    let soundings = p.soundings as u64;
    !falls(labels, n) && (sum(counts, n) <= soundings && p.read as u64 <= MOST_READ * soundings)
}

// Whether all of it is. Of more pairs than room only the number is kept.
pub fn sound(count: &Count) -> bool
    ensures { result ≡ sound count.now.rails count.now.edges count.now.rails2 count.now.edges2 count.now.labels count.now.counts count.now.progress }
{
    let p = count.progress;
    numbers_sound(p)
        && (rows_sound(&count.rails, count.edges)
            && (rows_sound(&count.rails2, count.edges2)
                && (FACES < p.entries || table_sound(&count.labels, &count.counts, p))))
}

// Where a count of soundings stands, which goes in and comes back by value; and its start: the maps are checked and laid for looks once.
ghost use Rattle.std.specs.Prelude.{◌≡◌, [], ◌∷◌};
ghost use Rattle.map_file.specs.Verdict.{verdict, refusal_of};
ghost use Rattle.laws_soundings.specs.RunClosed.{started};
ghost use Rattle.soundings.specs.State.{going_at, halted_at, start_at, run_of};

use crate::lay::lay_both;
use limits::{FACES, MAP_CARRIER_CELLS, MAP_EDGES, PAIR_CELLS, SOUNDING_SIZE};
use map_file::{Check, Refusal, edge_count};

// How many soundings there are; the number of the first that is too far, or as many as there are; how many pairs there are, where a number over 1,334 says no more than that; how many bytes there are of
// a sounding that is not whole yet; how many edges were read. Then 0, or another number where the count is refused whatever comes, and that refusal.
#[repr(C)]
#[derive(Clone, Copy)]
pub struct Progress {
    pub soundings: usize,
    pub far: usize,
    pub entries: usize,
    pub rest: usize,
    pub read: u32,
    pub bad: u16,
    pub number: u16,
    pub map: u16,
    pub place: u16,
    pub other: u16,
}

// With the edges of both maps laid for looks, how many these are, the pairs in rows of two labels, their counts, and the bytes of a sounding that is not whole yet.
#[repr(C)]
#[derive(Drop)]
pub struct Count {
    pub rails: [i16; MAP_CARRIER_CELLS],
    pub rails2: [i16; MAP_CARRIER_CELLS],
    pub easts: [u16; MAP_EDGES as usize],
    pub easts2: [u16; MAP_EDGES as usize],
    pub labels: [u16; PAIR_CELLS],
    pub counts: [u32; FACES],
    pub bytes: [u8; SOUNDING_SIZE],
    pub edges: usize,
    pub edges2: usize,
    pub progress: Progress,
}

// A count that is not refused.
pub fn going(soundings: usize, far: usize, entries: usize, rest: usize, read: u32) -> Progress
    ensures { result ≡ going_at soundings far entries rest read }
{
    Progress {
        soundings,
        far,
        entries,
        rest,
        read,
        bad: 0,
        number: 0,
        map: 0,
        place: 0,
        other: 0,
    }
}

// One that is.
pub fn halted(r: Refusal) -> Progress
    ensures { result ≡ halted_at (refusal_of r) }
{
    Progress {
        soundings: 0,
        far: 0,
        entries: 0,
        rest: 0,
        read: 0,
        bad: 1,
        number: r.number,
        map: r.map,
        place: r.place,
        other: r.other,
    }
}

// No byte yet, of maps that were checked.
fn at_start(c: Check) -> Progress
    ensures { result ≡ start_at (verdict c) }
{
    match c {
        Err(r) => halted(r),
        Ok(()) => going(0, 0, 0, 0, 0),
    }
}

// No byte yet: two map files of any bytes, checked and laid.
pub fn begin(zones: &[u8], blocks: &[u8]) -> Count
    ensures { run_of result ≡ started (zones.now ∷ blocks.now ∷ []) }
{
    let mut rails = [0i16; MAP_CARRIER_CELLS];
    let mut easts = [0u16; MAP_EDGES as usize];
    let mut rails2 = [0i16; MAP_CARRIER_CELLS];
    let mut easts2 = [0u16; MAP_EDGES as usize];
    let c = lay_both(
        zones,
        &mut rails,
        &mut easts,
        blocks,
        &mut rails2,
        &mut easts2,
    );
    let edges = edge_count(zones) as usize;
    let edges2 = edge_count(blocks) as usize;
    let progress = at_start(c);
    Count {
        rails,
        rails2,
        easts,
        easts2,
        labels: [0; PAIR_CELLS],
        counts: [0; FACES],
        bytes: [0; SOUNDING_SIZE],
        edges,
        edges2,
        progress,
    }
}

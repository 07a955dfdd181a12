// The overlay edge record: "it is handed out by edge number, and a number with no edge is answered as absent".
ghost use Rattle.std.specs.Prelude.{◌≡◌, [], ◌^◌, ◌≤◌, true};
ghost use Rattle.paper.specs.Record.{source_by, edge_record};
ghost use Rattle.tables.specs.Values.{tables_by};
ghost use Rattle.tables.specs.Found.{number_of, source_found, found_of, all_numbers, record_by};

use crate::room::edge_room;
use limits::{HALF_WIDTH, SOURCE_WIDTH};

// The edge numbers of 16 bits: a stored number is an edge number + 1.
const NUMBERS: u32 = 65536;

// "whether it came from the first map, the second or both, with the edge number in each"; of the third map too (02, Ask 13), "a piece may come from any of the three"
#[derive(Clone, Copy, PartialEq, Eq, Debug)]
pub enum Source {
    First(u16),
    Second(u16),
    Both(u16, u16),
    Third(u16),
    FirstThird(u16, u16),
    SecondThird(u16, u16),
    All(u16, u16, u16),
}

#[derive(Clone, Copy, PartialEq, Eq, Debug)]
pub struct OverlayEdge {
    pub lower: u16,
    pub upper: u16,
    pub source: Source,
}

// Whether three stored sources are each an edge number of 16 bits + 1, or 0.
fn numbered(a: u32, b: u32, c: u32) -> bool
    ensures { result ≡ all_numbers a b c }
{
    a <= NUMBERS && b <= NUMBERS && c <= NUMBERS
}

// The edge number of a stored source, if it is there.
fn number(stored: u32) -> Option<u16>
    requires { stored ≤ 256 ^ 2 }
    ensures { result ≡ number_of stored }
{
    if stored == 0 {
        None
    } else {
        Some((stored - 1) as u16)
    }
}

// Which of the three maps an edge came from, with the edge number in each; none where no source is there.
fn stored_source(a: u32, b: u32, c: u32) -> Option<Source>
    requires { all_numbers a b c ≡ true }
    ensures { source_found result ≡ source_by a b c }
{
    match (number(a), number(b), number(c)) {
        (None, None, None) => None,
        (Some(i), None, None) => Some(Source::First(i)),
        (None, Some(j), None) => Some(Source::Second(j)),
        (Some(i), Some(j), None) => Some(Source::Both(i, j)),
        (None, None, Some(k)) => Some(Source::Third(k)),
        (Some(i), None, Some(k)) => Some(Source::FirstThird(i, k)),
        (None, Some(j), Some(k)) => Some(Source::SecondThird(j, k)),
        (Some(i), Some(j), Some(k)) => Some(Source::All(i, j, k)),
    }
}

// The record of an edge between two vertices with three stored sources.
fn record_by(lower: u16, upper: u16, a: u32, b: u32, c: u32) -> Option<OverlayEdge>
    ensures { found_of result ≡ record_by lower upper a b c }
{
    if !numbered(a, b, c) {
        return None;
    }
    let source = stored_source(a, b, c)?;
    Some(OverlayEdge {
        lower,
        upper,
        source,
    })
}

// Edge k of the half-edge table and the source table, for tables of any contents.
pub fn edge(halves: &[u16], sources: &[u32], k: usize) -> Option<OverlayEdge>
    ensures { found_of result ≡ edge_record (tables_by [] halves.now sources.now []) k }
{
    if edge_room(halves.len(), sources.len()) <= k {
        return None;
    }
    let at = HALF_WIDTH * (2 * k);
    let lower = halves[at];
    let upper = halves[at + HALF_WIDTH];
    let row = SOURCE_WIDTH * k;
    record_by(
        lower,
        upper,
        sources[row],
        sources[row + 1],
        sources[row + 2],
    )
}

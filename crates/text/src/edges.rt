// The line of an edge: its number, its lower and its upper vertex, and which maps it came from, "with the edge number in each".
ghost use Rattle.std.specs.Prelude.{◌+◌, ◌≤◌, length, ◌++◌};
ghost use Rattle.paper.specs.Record.{all};
ghost use Rattle.paper.specs.Listing.{decimal};
ghost use Rattle.tables.specs.Found.{edge_from, source_from};
ghost use Rattle.text.specs.Line.{Put};
ghost use Rattle.text.specs.Lines.{Line, ends_text, source_text, edge_text};

use crate::line::{field, words};
use limits::LINE;
use tables::{OverlayEdge, Source};

// An edge's number and its two vertices.
fn ends_field(line: &mut [u8], k: u16, lower: u16, upper: u16) -> usize
    requires { 22 ≤ length line.old }
    ensures { Put (ends_text k lower upper) 22 line.old 0 line.new result }
{
    let at = field(line, 0, b"edge ", k);
    let at = field(line, at, b" ", lower);
    field(line, at, b" ", upper)
}

// An edge's number in each of two maps, each behind its words.
fn two_field(line: &mut [u8], at: usize, one: &[u8], j: u16, other: &[u8], k: u16) -> usize
    requires { at + length one.now + 5 + length other.now + 5 ≤ length line.old }
    ensures { Put (one.now ++ decimal j ++ other.now ++ decimal k) (length one.now + 5 + (length other.now + 5)) line.old at line.new result }
{
    let at = field(line, at, one, j);
    field(line, at, other, k)
}

// An edge's number in each of the three maps.
fn all_field(line: &mut [u8], at: usize, j: u16, k: u16, l: u16) -> usize
    requires { at + 25 ≤ length line.old }
    ensures { Put (source_text (all j k l)) 25 line.old at line.new result }
{
    let at = field(line, at, b" all ", j);
    let at = field(line, at, b" ", k);
    field(line, at, b" ", l)
}

// The edge's maps, and its number in each.
fn source_field(line: &mut [u8], at: usize, source: Source) -> usize
    requires { at + 25 ≤ length line.old }
    ensures { Put (source_text (source_from source)) 25 line.old at line.new result }
{
    match source {
        Source::First(j) => field(line, at, b" first ", j),
        Source::Second(k) => field(line, at, b" second ", k),
        Source::Both(j, k) => two_field(line, at, b" both ", j, b" ", k),
        Source::Third(l) => field(line, at, b" third ", l),
        Source::FirstThird(j, l) => two_field(line, at, b" first ", j, b" third ", l),
        Source::SecondThird(k, l) => two_field(line, at, b" second ", k, b" third ", l),
        Source::All(j, k, l) => all_field(line, at, j, k, l),
    }
}

// The line of edge k, put at the start of a lent line; what is answered is its length.
pub fn edge_line(k: u16, edge: OverlayEdge, line: &mut [u8; LINE]) -> usize
    ensures { Line 64 (edge_text k (edge_from edge)) line.old line.new result }
{
    let at = ends_field(line, k, edge.lower, edge.upper);
    let at = source_field(line, at, edge.source);
    words(line, at, b"\n")
}

// The lines of the listing, each of at most 64 bytes, put into a lent text from a place on; what is answered is the place behind it.
ghost use Rattle.std.specs.Prelude.{◌+◌, ◌≤◌, length};
ghost use Rattle.paper.specs.Listing.{counts_line, refused_line};
ghost use Rattle.text.specs.Line.{Put};
ghost use Rattle.text.specs.Lines.{Line, least_text, labels_text, face_text, gaps_text};

use crate::cells::cell;
use crate::line::{field, words};
use limits::{LINE, MAPS};

// Where a face's row has its least outer half-edge, and its count of hole walks: behind the labels.
const OUTER: usize = MAPS;

const HOLES: usize = MAPS + 1;

// "The first line gives the counts"
pub fn counts_line(line: &mut [u8], at: usize, vertices: u16, edges: u16, faces: u16) -> usize
    requires { at + 64 ≤ length line.old }
    ensures { Put (counts_line (record { vertices = vertices; edges = edges; faces = faces })) 64 line.old at line.new result }
{
    let at = field(line, at, b"vertices ", vertices);
    let at = field(line, at, b" edges ", edges);
    let at = field(line, at, b" faces ", faces);
    words(line, at, b"\n")
}

// "On refusal the only line is `refused N map M place P`"
pub fn put_refused(line: &mut [u8], at: usize, number: u16, map: u16, place: u16) -> usize
    requires { at + 64 ≤ length line.old }
    ensures { Put (refused_line (record { number = number; map = map; place = place; other = 0 })) 64 line.old at line.new result }
{
    let at = field(line, at, b"refused ", number);
    let at = field(line, at, b" map ", map);
    let at = field(line, at, b" place ", place);
    words(line, at, b"\n")
}

// The same line at the start of a lent one; what is answered is its length.
pub fn refused_line(number: u16, map: u16, place: u16, line: &mut [u8; LINE]) -> usize
    ensures { Line 64 (refused_line (record { number = number; map = map; place = place; other = 0 })) line.old line.new result }
{
    put_refused(line, 0, number, map, place)
}

// "least outer half-edge (`-` for face 0)"
fn least_field(line: &mut [u8], at: usize, face: u16, least: u16) -> usize
    requires { at + 6 ≤ length line.old }
    ensures { Put (least_text face least) 6 line.old at line.new result }
{
    if face == 0 {
        words(line, at, b" -")
    } else {
        field(line, at, b" ", least)
    }
}

// A face's number and its two labels.
fn labels_field(line: &mut [u8], at: usize, face: u16, first: u16, second: u16) -> usize
    requires { at + 22 ≤ length line.old }
    ensures { Put (labels_text face first second) 22 line.old at line.new result }
{
    let at = field(line, at, b"face ", face);
    let at = field(line, at, b" ", first);
    field(line, at, b" ", second)
}

// "number, first label, second label, least outer half-edge (`-` for face 0), holes"
pub fn face_line(line: &mut [u8], at: usize, face: u16, faces: &[u16]) -> usize
    requires { at + 64 ≤ length line.old }
    ensures { Put (face_text faces.now face) 64 line.old at line.new result }
{
    let at = labels_field(line, at, face, cell(faces, face, 0), cell(faces, face, 1));
    let at = least_field(line, at, face, cell(faces, face, OUTER));
    let at = field(line, at, b" ", cell(faces, face, HOLES));
    words(line, at, b"\n")
}

// "the last line gives the number of gaps"
pub fn gaps_line(line: &mut [u8], at: usize, gaps: u16) -> usize
    requires { at + 64 ≤ length line.old }
    ensures { Put (gaps_text gaps) 64 line.old at line.new result }
{
    let at = field(line, at, b"gaps ", gaps);
    words(line, at, b"\n")
}

// The digest of an overlay's tables, and of a mended file with its list, as the second program reckons it (second/README.md): FNV-1a of 64 bits.
ghost use Rattle.std.specs.Prelude.{◌≤◌};

use crate::lent::Tables;
use limits::{EDGE_WIDTH, FACE_WIDTH, SOURCE_WIDTH, VERTEX_WIDTH};
use std::fmt;
use std::fmt::Display;
use tables::{Answer, Counts};

#[derive(Clone, Copy, PartialEq, Eq)]
pub struct Digest(u64);

// Its 16 hexadecimal digits.
impl Display for Digest {
    fn fmt<W: fmt::Write>(&self, f: &mut fmt::Formatter<W>) -> fmt::Result {
        let sum = self.0;
        write!(f, "{sum:016x}")
    }
}

impl Digest {
    const START: Digest = Digest(14695981039346656037);

    fn bytes(self, bytes: &[u8]) -> Self {
        let mut sum = self.0;
        for byte in bytes {
            sum = (sum ^ u64::from(*byte)).wrapping_mul(1099511628211);
        }
        Digest(sum)
    }

    // Numbers, low byte first. One function for each type: a closure that gives an array of any length is not covered by the borrow check yet.
    fn u16s(self, numbers: &[u16]) -> Self {
        numbers
            .iter()
            .fold(self, |sum, n| sum.bytes(&n.to_le_bytes()))
    }

    fn u32s(self, numbers: &[u32]) -> Self {
        numbers
            .iter()
            .fold(self, |sum, n| sum.bytes(&n.to_le_bytes()))
    }

    fn i64s(self, numbers: &[i64]) -> Self {
        numbers
            .iter()
            .fold(self, |sum, n| sum.bytes(&n.to_le_bytes()))
    }

    fn tables(self, vertices: &[i64], halves: &[u16], sources: &[u32], faces: &[u16]) -> Self {
        self.i64s(vertices).u16s(halves).u32s(sources).u16s(faces)
    }

    // The counts, and the rows that they count.
    pub fn of(c: Counts, t: &Tables) -> Self {
        Digest::START.u16s(&[c.vertices, c.edges, c.faces]).tables(
            first(&t.vertices, VERTEX_WIDTH, c.vertices),
            first(&t.halves, EDGE_WIDTH, c.edges),
            first(&t.sources, SOURCE_WIDTH, c.edges),
            first(&t.faces, FACE_WIDTH, c.faces),
        )
    }

    // An answer, as 0 and the counts or as the four numbers of the refusal, and every cell of the lent tables.
    pub fn of_outcome(answer: Answer, t: &Tables) -> Self {
        let told = match answer {
            Ok(c) => [0, c.vertices, c.edges, c.faces],
            Err(r) => [r.number, r.map, r.place, r.other],
        };
        Digest::START
            .u16s(&told)
            .tables(&t.vertices, &t.halves, &t.sources, &t.faces)
    }

    // All bytes of a lent file, and all numbers of a lent list.
    pub fn of_lent(file: &[u8], list: &[u16]) -> Self {
        Digest::START.bytes(file).u16s(list)
    }
}

// The first rows of a table.
fn first<T>(table: &[T], width: usize, rows: u16) -> &[T]
    requires { width ≤ 64 }
{
    table.get(..width * rows as usize).unwrap_or(table)
}

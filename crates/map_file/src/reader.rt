// The reader of a map file (01, "Places and their forms"): "read front to back by a reader that holds the file's bytes and its place". The
// steps are thin: what is read is read by a function on the slice and the number.
ghost use Rattle.std.specs.Prelude.{◌≡◌, ◌+◌, ◌*◌, ◌≤◌, ◌<◌, ◌^◌, length};
ghost use Rattle.seq.specs.Seq.{filled, laid};
ghost use Rattle.paper.specs.Bytes.{ascii, marked, u16};
ghost use Rattle.paper.specs.Limits.{map_head};
ghost use Rattle.paper.specs.Map.{vertex_place};
ghost use Rattle.map_file.specs.Header.{header_of};
ghost use Rattle.map_file.specs.Places.{point_from, origin_from, label_from};

use crate::bytes::{marked_at, u16_at};
use crate::rows::{edges_at, points_at};
use limits::MAP_HEAD;

// The bytes of the mark, and of a number.
const MARK: usize = 3;

const WORD: usize = 2;

#[derive(Clone, Copy)]
pub struct Reader<'a> {
    pub file: &'a [u8],
    pub at: usize,
}

impl<'a> Reader<'a> {
    // A reader at the start of a file.
    pub fn new(file: &'a [u8]) -> Self
        ensures { (result.file ≡ file.entry) × (result.at ≡ 0) }
    {
        Reader { file, at: 0 }
    }

    // The reader, n bytes further on.
    pub fn past(self, n: usize) -> Self
        requires { self.at + n < 2 ^ 64 }
        ensures { (result.file ≡ self.entry.file) × (result.at ≡ self.entry.at + n) }
    {
        Reader {
            file: self.file,
            at: self.at + n,
        }
    }

    // Whether the mark stands at its place.
    pub fn mark(self) -> bool
        ensures { result ≡ marked (ascii "ZMP") self.entry.file.now self.entry.at }
    {
        marked_at(self.file, self.at)
    }

    // The unsigned 16-bit number at its place.
    pub fn word(self) -> u16
        ensures { result ≡ u16 self.entry.file.now self.entry.at }
    {
        u16_at(self.file, self.at)
    }

    // The n vertices from its place on; the reader behind them.
    pub fn points(self, n: u16, points: &mut [i64]) -> Self
        requires { (self.at + 4 * n < 2 ^ 64) × (4 * n ≤ length points.old) }
        ensures { (result.file ≡ self.entry.file) × (result.at ≡ self.entry.at + 4 * n) × (points.new ≡ laid n (point_from self.entry.file.now self.entry.at) points.old) }
    {
        Reader {
            file: self.file,
            at: points_at(self.file, self.at, n, points),
        }
    }

    // The n edges from its place on; the reader behind them.
    pub fn edges(self, n: u16, origins: &mut [u16], labels: &mut [u16]) -> Self
        requires { (self.at + 8 * n < 2 ^ 64) × (2 * n ≤ length origins.old) × (2 * n ≤ length labels.old) }
        ensures { (result.file ≡ self.entry.file) × (result.at ≡ self.entry.at + 8 * n) × (origins.new ≡ filled (2 * n) (origin_from self.entry.file.now self.entry.at) origins.old) × (labels.new ≡ filled (2 * n) (label_from self.entry.file.now self.entry.at) labels.old) }
    {
        Reader {
            file: self.file,
            at: edges_at(self.file, self.at, n, origins, labels),
        }
    }
}

// "Mark `ZMP`, then .. version (1), vertex count V, edge count E"
#[derive(Clone, Copy, PartialEq, Eq, Debug)]
pub struct Header {
    pub mark: bool,
    pub version: u16,
    pub vertices: u16,
    pub edges: u16,
}

// The mark and the three numbers after it, front to back. Whoever calls it needs to know nothing of a reader.
pub fn read_header(file: &[u8]) -> Header
    ensures { result ≡ header_of file.now }
{
    let start = Reader::new(file);
    let version = start.past(MARK);
    let vertices = version.past(WORD);
    let edges = vertices.past(WORD);
    Header {
        mark: start.mark(),
        version: version.word(),
        vertices: vertices.word(),
        edges: edges.word(),
    }
}

// What stands behind the header, v vertices and e edges, front to back.
pub fn read_body(
    file: &[u8],
    v: u16,
    e: u16,
    vertices: &mut [i64],
    origins: &mut [u16],
    labels: &mut [u16],
)
    requires { (4 * v ≤ length vertices.old) × (2 * e ≤ length origins.old) × (2 * e ≤ length labels.old) }
    ensures { (vertices.new ≡ laid v (point_from file.now map_head) vertices.old) × (origins.new ≡ filled (2 * e) (origin_from file.now (vertex_place v)) origins.old) × (labels.new ≡ filled (2 * e) (label_from file.now (vertex_place v)) labels.old) }
{
    Reader::new(file)
        .past(MAP_HEAD)
        .points(v, vertices)
        .edges(e, origins, labels);
}

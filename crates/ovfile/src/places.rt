// Where vertices, edges and faces stand in a file of a layout: "length 11 + 16 per vertex + 18 per edge + 10 per face" (02, Ask 13) in version 3, 16 per edge and 8 per face
// before it, and 14 per vertex in version 1.
ghost use Rattle.std.specs.Prelude.{◌≡◌, ◌+◌, ◌*◌, ◌<◌, ◌≤◌, ◌^◌};
ghost use Rattle.paper.specs.Limits.{overlay_head};
ghost use Rattle.paper.specs.Ovfile.{vertex_size, edge_size, face_size, edges_at, faces_at, file_length};
ghost use Rattle.tables.specs.Values.{counts_of};
ghost use Rattle.ovfile.specs.Values.{layout_from};
ghost use Rattle.ovfile.specs.Known.{largest};

use crate::layout::Layout;
use limits::{DENOMINATOR_BYTES, OVERLAY_HEAD};
use tables::Counts;

// Where row n starts, of rows of one size from a place on.
fn row_at(start: usize, size: usize, n: usize) -> usize
    requires { (start < 2 ^ 32) × (size ≤ largest) × (n < 2 ^ 32) }
    ensures { result ≡ start + size * n }
{
    start + size * n
}

// Where the 16-bit number j of row n stands, of rows of one size from a place on.
pub fn field_at(start: usize, size: usize, n: u32, j: u32) -> usize
    requires { (start < 2 ^ 32) × (size ≤ largest) }
    ensures { result ≡ start + size * n + 2 * j }
{
    row_at(start, size, n as usize) + 2 * j as usize
}

impl Layout {
    // The bytes of one vertex.
    pub fn vertex_size(self) -> usize
        ensures { result ≡ vertex_size (layout_from self) }
    {
        2 * self.coordinate + DENOMINATOR_BYTES
    }

    // The bytes of one edge.
    pub fn edge_size(self) -> usize
        ensures { result ≡ edge_size (layout_from self) }
    {
        12 + 2 * self.maps
    }

    // The bytes of one face.
    pub fn face_size(self) -> usize
        ensures { result ≡ face_size (layout_from self) }
    {
        4 + 2 * self.maps
    }

    // Where vertex v starts.
    pub fn vertex_place(self, v: u16) -> usize
        ensures { result ≡ overlay_head + vertex_size (layout_from self) * v }
    {
        row_at(OVERLAY_HEAD, self.vertex_size(), v as usize)
    }

    // Where the edges start.
    pub fn edges_at(self, c: Counts) -> usize
        ensures { result ≡ edges_at (layout_from self) (counts_of c) }
    {
        self.vertex_place(c.vertices)
    }

    // Where the faces start.
    pub fn faces_at(self, c: Counts) -> usize
        ensures { result ≡ faces_at (layout_from self) (counts_of c) }
    {
        row_at(self.edges_at(c), self.edge_size(), c.edges as usize)
    }

    pub fn file_length(self, c: Counts) -> usize
        ensures { result ≡ file_length (layout_from self) (counts_of c) }
    {
        row_at(self.faces_at(c), self.face_size(), c.faces as usize)
    }
}

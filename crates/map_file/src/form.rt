// Rules 1 to 4: the form of a map file.
ghost use Rattle.std.specs.Prelude.{◌≡◌, not, ◌||◌, ◌+◌, ◌*◌, ltb};
ghost use Rattle.paper.specs.Limits.{map_head, map_vertices, map_edges};
ghost use Rattle.paper.specs.Refusal.{first_of};
ghost use Rattle.paper.specs.Map.{vertex_place, form_faults};
ghost use Rattle.map_file.specs.Header.{header_of};
ghost use Rattle.map_file.specs.Verdict.{verdict};

use crate::fields::vertex_place;
use crate::reader::Header;
use crate::refusal::{Check, given};
use limits::{MAP_EDGE_SIZE, MAP_EDGES, MAP_HEAD, MAP_VERTICES};

// 1 "under 9 bytes, or mark wrong"
pub fn bad_mark(length: usize, mark: bool) -> bool
    ensures { result ≡ (ltb length map_head || not mark) }
{
    length < MAP_HEAD || !mark
}

// 3 "V > 200 or E > 300"
pub fn over_limits(vertices: u16, edges: u16) -> bool
    ensures { result ≡ (ltb map_vertices vertices || ltb map_edges edges) }
{
    MAP_VERTICES < vertices || MAP_EDGES < edges
}

// "Length is 9 + 4V + 8E"
pub fn map_length(vertices: u16, edges: u16) -> usize
    ensures { result ≡ vertex_place vertices + 8 * edges }
{
    vertex_place(vertices) + MAP_EDGE_SIZE * edges as usize
}

// The first of rules 1 to 4 that the file with this header breaks.
pub fn form_fault(file: &[u8], h: Header) -> Check
    requires { h ≡ header_of file.now }
    ensures { verdict result ≡ first_of (form_faults file.now) }
{
    given(1, 0, bad_mark(file.len(), h.mark))?;
    given(2, 0, h.version != 1)?;
    given(3, 0, over_limits(h.vertices, h.edges))?;
    given(4, 0, file.len() != map_length(h.vertices, h.edges))
}

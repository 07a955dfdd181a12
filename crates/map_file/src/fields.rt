// The counts of the map that a file's bytes hold, and where its vertices stand.
ghost use Rattle.std.specs.Prelude.{◌≡◌};
ghost use Rattle.paper.specs.Map.{vertex_count, edges_in, vertex_place};

use crate::bytes::u16_at;
use limits::{MAP_HEAD, MAP_VERTEX_SIZE};

pub fn vertex_count(file: &[u8]) -> u16
    ensures { result ≡ vertex_count file.now }
{
    u16_at(file, 5)
}

pub fn edge_count(file: &[u8]) -> u16
    ensures { result ≡ edges_in file.now }
{
    u16_at(file, 7)
}

// Where vertex v starts.
pub fn vertex_place(v: u16) -> usize
    ensures { result ≡ vertex_place v }
{
    MAP_HEAD + MAP_VERTEX_SIZE * v as usize
}

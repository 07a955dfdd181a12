// A sounding, "x and y as signed 16-bit, low byte first", and its labels in two maps whose edges are laid for looks.
ghost use Rattle.std.specs.Prelude.{◌≡◌};
ghost use Rattle.paper.specs.Soundings.{sounding_at, far};
ghost use Rattle.plane.specs.Values.{vec_of};
ghost use Rattle.plane.specs.Bounds.{Corner};
ghost use Rattle.soundings.specs.Labels.{labels_of};
ghost use Rattle.soundings.specs.Looks.{look_of};

use crate::maps::Maps;
use limits::REACH;
use looks::label_read;
use map_file::i16_at;
use plane::Vector;

// The labels of a sounding, one for each map, and how many edges were read for them.
#[derive(Clone, Copy)]
pub struct Labels {
    pub first: u16,
    pub second: u16,
    pub read: u16,
}

// The sounding of four bytes.
pub fn sounding_in(bytes: &[u8]) -> Vector
    ensures { vec_of result ≡ sounding_at bytes.now 0 }
{
    Vector {
        x: i16_at(bytes, 0),
        y: i16_at(bytes, 2),
    }
}

// 13 "a coordinate beyond the maps' limit"
pub fn too_far(bytes: &[u8]) -> bool
    ensures { result ≡ far bytes.now 0 }
{
    REACH < i16_at(bytes, 0).unsigned_abs() || REACH < i16_at(bytes, 2).unsigned_abs()
}

// The labels of a sounding at c in both maps, "look west with edges through p counted as west", and how many edges are read for them.
// A function by itself also where it is built into a program: the two loops below then have the registers to themselves.
#[inline(never)]
pub fn cell<'a>(maps: Maps<'a>, c: Vector) -> Labels
    requires { Corner (vec_of c) }
    ensures labels { labels_of result ≡ (look_of maps.entry).cell (vec_of c) }
    ensures read { result.read ≡ (look_of maps.entry).read (vec_of c) }
{
    let zones = maps.zones;
    let blocks = maps.blocks;
    let a = label_read(zones.rails, zones.easts, zones.count, c);
    let b = label_read(blocks.rails, blocks.easts, blocks.count, c);
    Labels {
        first: a.label,
        second: b.label,
        read: a.read + b.read,
    }
}

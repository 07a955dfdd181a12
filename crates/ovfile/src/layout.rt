// The layout of a version: how many bytes X and Y have each, and how many sources and labels are stored. What the reader and the writer do is over it.
ghost use Rattle.std.specs.Prelude.{◌≡◌, ◌<◌, ◌≤◌};
ghost use Rattle.paper.specs.Limits.{maps as stored_maps};

use limits::{COORDINATE_BYTES, FIRST_COORDINATE_BYTES, MAPS};

// So few bytes and maps that no place leaves 64 bits.
#[derive(Clone, Copy)]
pub struct Layout {
    pub coordinate: usize,
    pub maps: usize,
    pub ghost few_bytes: { coordinate < 8 },
    pub ghost few_maps: { maps ≤ stored_maps },
}

// The sources and labels that versions 1 and 2 store: "version 3: a third source after the second and a third label after the second" (02, Ask 13).
const OLDER_MAPS: usize = 2;

// The layout of version 3, which the writer writes.
pub const NEWEST: Layout = Layout {
    coordinate: COORDINATE_BYTES,
    maps: MAPS,
};

impl Layout {
    ghost use Rattle.paper.specs.Ovfile.{layouts, layout_of};
    ghost use Rattle.ovfile.specs.Values.{layout_from};

    // The layout of a version: "the reader takes all three versions" (02, Ask 13). One that is not known has no bytes, and is refused before they are asked for.
    pub fn of(version: u16) -> Layout
        ensures { layout_from result ≡ layout_of layouts version }
    {
        match version {
            0 | 1 => Layout {
                coordinate: FIRST_COORDINATE_BYTES,
                maps: OLDER_MAPS,
            },
            2 => Layout {
                coordinate: COORDINATE_BYTES,
                maps: OLDER_MAPS,
            },
            3 => NEWEST,
            _ => Layout {
                coordinate: 0,
                maps: 0,
            },
        }
    }
}

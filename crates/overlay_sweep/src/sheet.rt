// The edges of all maps in one table, and where each map's start in it.
ghost use Rattle.std.specs.Prelude.{◌<◌, length};
ghost use Rattle.paper.specs.Limits.{maps};
ghost use Rattle.graph.specs.Flat.{Carriers, Numbers};

// The e carriers, and where those of each map start.
#[derive(Clone, Copy)]
pub struct Sheet<'a> {
    pub carriers: &'a [i16],
    pub e: usize,
    pub starts: &'a [usize],
    ghost carried: { Carriers carriers.now e },
    ghost starts_long: { maps < length starts.now },
}

// The edges that the line cuts, from west to east: the numbers in the first c cells of the status.
#[derive(Clone, Copy)]
pub struct Cut<'a> {
    pub sheet: Sheet<'a>,
    pub status: &'a [u16],
    pub c: usize,
    ghost named: { Numbers status.now c sheet.e },
}

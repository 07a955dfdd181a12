// The edges of both maps, laid for looks: in them one sounding after the other is looked up.
ghost use Rattle.soundings.specs.Rows.{Rows};

// Those of one map: so many rows of edges between corners, with a label each.
#[derive(Clone, Copy)]
pub struct Edges<'a> {
    pub rails: &'a [i16],
    pub easts: &'a [u16],
    pub count: usize,
    pub ghost rows: { Rows rails.now easts.now count },
}

#[derive(Clone, Copy)]
pub struct Maps<'a> {
    pub zones: Edges<'a>,
    pub blocks: Edges<'a>,
}

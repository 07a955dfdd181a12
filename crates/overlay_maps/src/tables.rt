// The tables of all maps as one value, and those of one map.

// The tables of all maps, one map after the other: where each map's vertices and edges start, and after the last where they end; then the rows and cells of the maps.
// That the maps keep the rules (`Held`) is a clause and no ghost field: a field's fact has to be shown to have one proof at most, and that is not shown of the records in `Held`.
#[derive(Clone, Copy)]
pub struct Layers<'a> {
    pub vertices: &'a [usize],
    pub edges: &'a [usize],
    pub corners: &'a [i64],
    pub origins: &'a [u16],
    pub carriers: &'a [i16],
    pub labels: &'a [u16],
}

// A map in tables of its own, and how many vertices and edges it has.
#[derive(Clone, Copy)]
pub struct FlatMap<'a> {
    pub points: &'a [i64],
    pub origins: &'a [u16],
    pub carriers: &'a [i16],
    pub labels: &'a [u16],
    pub vertices: usize,
    pub edges: usize,
}

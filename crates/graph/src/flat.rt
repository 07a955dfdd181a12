// A graph in flat tables as one value.

// The tables of a graph: a row for each point, the origin of each half-edge and a row for each carrier; and how many vertices and edges it has.
#[derive(Clone, Copy)]
pub struct FlatGraph<'a> {
    pub points: &'a [i64],
    pub origins: &'a [u16],
    pub carriers: &'a [i16],
    pub vertices: usize,
    pub edges: usize,
}

// Edges in the order of their lower ends, as one value.

// The rows of a map's edges, the cells that put them in order, and how many there are.
#[derive(Clone, Copy)]
pub struct Ordered<'a> {
    pub carriers: &'a [i16],
    pub cells: &'a [usize],
    pub count: usize,
}

// The tables of what a map becomes.

// The points and labels of its n vertices and e edges, the ends of the half-edges after step 1, the new numbers of the vertices; the step that drops each vertex (`corners`) and each edge
// (`pieces`), or 0; and how many vertices and edges are kept.
#[derive(Clone, Copy)]
pub struct Tables<'a> {
    pub points: &'a [i64],
    pub labels: &'a [u16],
    pub ends: &'a [u16],
    pub numbers: &'a [u16],
    pub corners: &'a [u16],
    pub pieces: &'a [u16],
    pub n: u16,
    pub e: u16,
    pub vertices: u16,
    pub edges: u16,
}

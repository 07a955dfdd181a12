// The tables that are lent.
use limits::{
    FACE_WIDTH, HALF_WIDTH, OVERLAY_EDGES, OVERLAY_FACES, OVERLAY_HALVES, OVERLAY_VERTICES,
    SOURCE_WIDTH, VERTEX_WIDTH,
};
use std::alloc::{AllocError, Global};

// How many rows of each table are lent.
#[derive(Clone, Copy)]
pub struct Rows {
    pub vertices: u16,
    pub halves: u16,
    pub sources: u16,
    pub faces: u16,
}

#[derive(Drop)]
pub struct Tables {
    pub vertices: Vec<i64>,
    pub halves: Vec<u16>,
    pub sources: Vec<u32>,
    pub faces: Vec<u16>,
}

impl Tables {
    // So many rows, at most as many as an overlay may have, full of one number: `x` in the vertices and `n` in the others.
    pub fn new(alloc: Global, rows: Rows, x: i64, n: u16) -> Result<Self, AllocError> {
        let vertices = VERTEX_WIDTH * rows.vertices.min(OVERLAY_VERTICES) as usize;
        let halves = HALF_WIDTH * rows.halves.min(OVERLAY_HALVES) as usize;
        let sources = SOURCE_WIDTH * rows.sources.min(OVERLAY_EDGES) as usize;
        let faces = FACE_WIDTH * rows.faces.min(OVERLAY_FACES) as usize;
        Ok(Tables {
            vertices: vec![in alloc; x; vertices]?,
            halves: vec![in alloc; n; halves]?,
            sources: vec![in alloc; u32::from(n); sources]?,
            faces: vec![in alloc; n; faces]?,
        })
    }
}

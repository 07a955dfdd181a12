// The edges of an overlay file, a line each.
use crate::lines::say_refused;
use limits::{FACE_CELLS, HALF_CELLS, LINE, SOURCE_CELLS, VERTEX_CELLS};
use std::io::{Print, Result};
use tables::{Answer, OverlayEdge};

// The line of edge k: the proved text.
fn say_edge(rt: &impl Print, k: u16, edge: OverlayEdge) -> Result<()> {
    let mut line = [0u8; LINE];
    let n = text::edge_line(k, edge, &mut line);
    rt.write_all(&line[..n])
}

// The first edges of the tables, in order.
fn say_first(rt: &impl Print, count: u16, halves: &[u16], sources: &[u32]) -> Result<()> {
    for k in 0..count {
        if let Some(edge) = tables::edge(halves, sources, k as usize) {
            say_edge(rt, k, edge)?;
        }
    }
    Ok(())
}

// A line for each edge of the overlay that arbitrary bytes hold as an overlay file, or the line of what they are refused for.
pub fn say_edges(rt: &impl Print, file: &[u8]) -> Result<Answer> {
    let mut vertices = [0i64; VERTEX_CELLS];
    let mut halves = [0u16; HALF_CELLS];
    let mut sources = [0u32; SOURCE_CELLS];
    let mut faces = [0u16; FACE_CELLS];
    let answer = ovfile_read::read(file, &mut vertices, &mut halves, &mut sources, &mut faces);
    match answer {
        Ok(c) => say_first(rt, c.edges, &halves, &sources)?,
        Err(r) => say_refused(rt, r)?,
    }
    Ok(answer)
}

// Many sheets: a line for each three map files in a pack (second/README.md), the answer and a digest of all tables; of the overlay, or of what is left of it when it is melted.
use crate::digest::Digest;
use crate::lent::{Rows, Tables};
use crate::pack::Pack;
use console::Refused;
use overlay_graph::Way;
use std::alloc::{AllocError, Global};
use std::io;
use std::io::{Print, Read};
use tables::Answer;

// Three map files.
#[derive(Drop)]
pub struct Maps {
    zones: Vec<u8>,
    blocks: Vec<u8>,
    bed: Vec<u8>,
}

impl Maps {
    pub fn lay(&self, t: &mut Tables) -> Answer {
        overlay::overlay(
            &self.zones,
            &self.blocks,
            &self.bed,
            &mut t.vertices,
            &mut t.halves,
            &mut t.sources,
            &mut t.faces,
        )
    }

    pub fn melt(&self, t: &mut Tables) -> Answer {
        melt::melt(
            &self.zones,
            &self.blocks,
            &self.bed,
            &mut t.vertices,
            &mut t.halves,
            &mut t.sources,
            &mut t.faces,
        )
    }

    fn lay_by(&self, way: Way, t: &mut Tables) -> Answer {
        overlay::overlay_by(
            way,
            &self.zones,
            &self.blocks,
            &self.bed,
            &mut t.vertices,
            &mut t.halves,
            &mut t.sources,
            &mut t.faces,
        )
    }
}

// The next three maps, behind their lent tables' rows and their lengths.
pub fn next<F: Read + Drop>(alloc: Global, pack: &mut Pack<F>) -> Result<(Maps, Rows), AllocError> {
    let rows = Rows {
        vertices: pack.number(),
        halves: pack.number(),
        sources: pack.number(),
        faces: pack.number(),
    };
    let n = pack.number();
    let m = pack.number();
    let k = pack.number();
    let maps = Maps {
        zones: pack.bytes(alloc, n)?,
        blocks: pack.bytes(alloc, m)?,
        bed: pack.bytes(alloc, k)?,
    };
    Ok((maps, rows))
}

// The digest of the answer and of every lent cell, by one way. What is lent is full of other numbers.
fn outcome(alloc: Global, way: Way, maps: &Maps, rows: Rows) -> Result<Digest, AllocError> {
    let mut tables = Tables::new(alloc, rows, -1, 65535)?;
    let answer = maps.lay_by(way, &mut tables);
    Ok(Digest::of_outcome(answer, &tables))
}

// Whether both ways to collect the vertices agree, with so many rows lent: "For all files both give the same answer and the same tables, refusals included" (02, Ask 10).
pub fn ways_agree(alloc: Global, maps: &Maps, rows: Rows) -> Result<bool, AllocError> {
    Ok(outcome(alloc, Way::Plain, maps, rows)? == outcome(alloc, Way::Swept, maps, rows)?)
}

// What 01's line says, and the other edge behind it; or the counts and the digest of the tables.
pub fn say_answer(rt: &impl Print, answer: Answer, tables: &Tables) -> io::Result<()> {
    match answer {
        Ok(c) => {
            let digest = Digest::of(c, tables);
            println!(rt; "done {} {} {} {digest}", c.vertices, c.edges, c.faces)
        }
        Err(r) => println!(rt; "{} other {}", Refused(r), r.other),
    }
}

// Refusals 5, 6 and 9 in a sentence, for people: which vertex, what is wrong with it, and where it lies.
use map_file::{i16_at, u16_at, vertex_place};
use std::fmt;
use std::fmt::Display;

// What is wrong with a vertex.
#[derive(Clone, Copy)]
pub enum Fault {
    Beyond,
    // on the first vertex on its place
    On(u16),
    Lonely,
}

impl Display for Fault {
    fn fmt<W: fmt::Write>(&self, f: &mut fmt::Formatter<W>) -> fmt::Result {
        match self {
            Fault::Beyond => f.write_str("lies beyond 16000"),
            Fault::On(u) => write!(f, "lies on vertex {u}"),
            Fault::Lonely => f.write_str("has no edge"),
        }
    }
}

// "vertex 5 lies on vertex 2, at 10 20"
#[derive(Clone, Copy)]
pub struct Corner {
    vertex: u16,
    fault: Fault,
    x: i64,
    y: i64,
}

impl Display for Corner {
    fn fmt<W: fmt::Write>(&self, f: &mut fmt::Formatter<W>) -> fmt::Result {
        let Corner {
            vertex,
            fault,
            x,
            y,
        } = self;
        write!(f, "vertex {vertex} {fault}, at {x} {y}")
    }
}

impl Corner {
    // Vertex v of a map file.
    fn new(file: &[u8], v: u16, fault: Fault) -> Self {
        let at = vertex_place(v);
        Corner {
            vertex: v,
            fault,
            x: i16_at(file, at),
            y: i16_at(file, at + 2),
        }
    }

    pub fn beyond(file: &[u8], v: u16) -> Self {
        Corner::new(file, v, Fault::Beyond)
    }

    pub fn doubled(file: &[u8], v: u16) -> Self {
        let first = (0..v).find(|u| same_place(file, *u, v)).unwrap_or(v);
        Corner::new(file, v, Fault::On(first))
    }

    pub fn lonely(file: &[u8], v: u16) -> Self {
        Corner::new(file, v, Fault::Lonely)
    }
}

fn same_place(file: &[u8], u: u16, v: u16) -> bool {
    let a = vertex_place(u);
    let b = vertex_place(v);
    u16_at(file, a) == u16_at(file, b) && u16_at(file, a + 2) == u16_at(file, b + 2)
}

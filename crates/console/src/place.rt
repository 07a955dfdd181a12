// Where a map file is refused with 5, 6, 8 or 9, in a sentence: the vertex, or how the two edges meet.
use crate::clash::Clash;
use crate::corner::Corner;
use map_file::Refusal;
use std::fmt;
use std::fmt::Display;

#[derive(Clone, Copy)]
pub enum Place {
    Vertex(Corner),
    Edges(Clash),
}

impl Place {
    // None for a refusal of which the file says no more. A refusal keeps its number: the rules are counted so.
    pub fn new(file: &[u8], r: Refusal) -> Option<Self> {
        match r.number {
            5 => Some(Place::Vertex(Corner::beyond(file, r.place))),
            6 => Some(Place::Vertex(Corner::doubled(file, r.place))),
            8 => Some(Place::Edges(Clash::new(file, r))),
            9 => Some(Place::Vertex(Corner::lonely(file, r.place))),
            _ => None,
        }
    }
}

impl Display for Place {
    fn fmt<W: fmt::Write>(&self, f: &mut fmt::Formatter<W>) -> fmt::Result {
        match self {
            Place::Vertex(corner) => corner.fmt(f),
            Place::Edges(clash) => clash.fmt(f),
        }
    }
}

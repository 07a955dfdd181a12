// A refusal in a sentence, for people: what is wrong, and in what. Where a map's file says more, that is in place.rt.
use map_file::Refusal;
use std::fmt;
use std::fmt::Display;

// What rule 11 found too little room for. Refusals keep their numbers, here and below: the rules are counted so.
fn room(place: u16) -> &'static str {
    match place {
        1 => "the overlay has more vertices than there is room for",
        2 => "the overlay has more edges than there is room for",
        3 => "the overlay has more faces than there is room for",
        4 => "the room for the file is too short",
        6 => "there are more different pairs than there is room for",
        _ => "the room for the list is too short",
    }
}

// What a rule asks, as it was broken.
fn cause(r: Refusal) -> &'static str {
    match r.number {
        1 => "the file is too short, or its mark is wrong",
        2 => "the file's version is not known",
        3 => "a count is over its limit",
        4 => "the file's length is not what its counts say",
        5 => "a number is beyond its range",
        6 => "a vertex lies on one of lower number",
        7 => "an end names no vertex, or both ends are the same",
        9 => "a vertex has no edge",
        10 => "the labels disagree",
        11 => room(r.place),
        12 => "the list ends inside a sounding, or holds more than 65,535",
        13 => "a sounding lies beyond the maps' limit",
        14 => "the zone has no tide rule",
        15 => "a ratio or weight is out of its range, or not a number",
        16 => "a reading that the rule uses is missing or out of its range",
        _ => "an edge record is not sound",
    }
}

// What the place of a refusal is the number of, if it names something.
fn thing(number: u16) -> Option<&'static str> {
    match number {
        5 | 6 | 9 => Some("vertex"),
        7 | 21 => Some("edge"),
        10 => Some("half-edge"),
        13 => Some("sounding"),
        _ => None,
    }
}

// The map of a refusal, if it was given by an operation on several.
fn map_of(map: u16) -> Option<&'static str> {
    match map {
        0 => None,
        1 => Some("the first map"),
        2 => Some("the second map"),
        3 => Some("the third map"),
        _ => Some("the map"),
    }
}

// "an end names no vertex, or both ends are the same: edge 17 of the first map"
#[derive(Clone, Copy)]
pub struct Sentence(pub Refusal);

impl Display for Sentence {
    fn fmt<W: fmt::Write>(&self, f: &mut fmt::Formatter<W>) -> fmt::Result {
        let r = self.0;
        f.write_str(cause(r))?;
        match (thing(r.number), map_of(r.map)) {
            (Some(thing), Some(map)) => write!(f, ": {thing} {} of {map}", r.place),
            (Some(thing), None) => write!(f, ": {thing} {}", r.place),
            (None, Some(map)) => write!(f, ": {map}"),
            (None, None) => Ok(()),
        }
    }
}

// The same for a file that was to be mended: refusal 7 is "only for an end that names no vertex".
#[derive(Clone, Copy)]
pub struct MendSentence(pub Refusal);

impl Display for MendSentence {
    fn fmt<W: fmt::Write>(&self, f: &mut fmt::Formatter<W>) -> fmt::Result {
        match self.0 {
            Refusal {
                number: 7,
                place,
                ..
            } => write!(f, "an end names no vertex: edge {place}"),
            r => Sentence(r).fmt(f),
        }
    }
}

// Map files (01, "Map file"): the numbers in a file's bytes, the parts of the map that it holds, and refusals 1 to 4. These alone are found on the bytes: they are
// what makes it safe to decode the map into tables of 200 vertices and 300 edges, and the other rules are tests of the tables.
// Everything here takes arbitrary bytes: a byte past the end counts as 0, as in the definitions.
#![tactic(auto)]

mod refusal; // a refusal, and the checks that give one
mod bytes; // the mark and numbers in bytes, low byte first
mod reader; // the reader that holds the file and its place: header, vertices, edges
mod rows; // vertices and edges from a place on
mod fields; // counts, and where a vertex stands
mod form; // rules 1 to 4
mod load; // the map read into flat tables

pub use bytes::{byte_at, i16_at, u16_at};
pub use fields::{edge_count, vertex_count, vertex_place};
pub use form::{form_fault, map_length};
pub use load::read_map;
pub use reader::{Header, read_header};
pub use refusal::{Check, Refusal, beside, given};

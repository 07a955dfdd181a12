// What the overlay file's reader and writer have in common (01, "Overlay file"): numbers in bytes, counts over their room, cells of tables, sound edge records.
#![tactic(auto)]

mod bytes; // numbers in bytes, low byte first, over the width
mod room; // the numbers of 01 as counts, and what is over them
mod layout; // the layout of a version
mod places; // where vertices, edges and faces stand in a file
mod cells; // the cells of flat tables
mod sound; // sound edge records

pub use bytes::{number_at, numbers as numbers_in, put, put_fields, signed_at, twos};
pub use cells::{at_or, face_cell, half_cell, source_cell, vertex_cell};
pub use layout::{Layout, NEWEST};
pub use places::field_at;
pub use room::{numbers, over};
pub use sound::{first_places, sound_edge, store, twin};

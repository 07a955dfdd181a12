// The lent tables (01, "Overlay tables" and "When a map is refused"): the three counts and the room for them, the rows that are stored with zeros past the
// counts, all four tables wiped, and the overlay edge record.
#![tactic(auto)]

mod room; // the three counts, and room for them
mod answer; // the three counts or a refusal
mod vertex_rows; // rows of vertices
mod half_rows; // rows of half-edges
mod source_rows; // rows of sources
mod face_rows; // rows of faces
mod wipe; // all lent tables zero
mod edge_record; // the overlay edge record

pub use answer::Answer;
pub use edge_record::{OverlayEdge, Source, edge};
pub use face_rows::store_faces;
pub use half_rows::store_halves;
pub use room::{Counts, room_in};
pub use source_rows::store_sources;
pub use vertex_rows::store_vertices;
pub use wipe::wipe_all;

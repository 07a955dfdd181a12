// The lent tables from points and pieces, the maps' own or what melting leaves of them: half-edges, walks, faces, labels; zeros past the counts, or a refusal.
#![tactic(auto)]

mod judge; // counts over the room
mod fill; // the lent tables filled
mod laying; // from points and pieces to tables
mod stages; // from layers to tables
mod files; // from files to tables

pub use files::from_files;
pub use judge::over_room;
pub use laying::{from_cut, refuse};
pub use stages::Layout;

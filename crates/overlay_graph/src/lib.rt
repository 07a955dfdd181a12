// The overlay's graph from the layers: vertices and edges, then walks and faces.
#![tactic(auto)]

mod collecting; // vertices, by either of two ways
mod cutting; // vertices and edges
mod tracing; // half-edges, walks, faces

pub use collecting::Way;
pub use cutting::{Cut, CutCounts, cut_few, cut_maps};
pub use tracing::{Net, lay_net, walk_net};

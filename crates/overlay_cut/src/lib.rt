// The overlay's vertices, collected and ordered, and the pieces of the input edges, from all maps' edges in one table.
#![tactic(auto)]

mod collecting; // corners and crossings, each point once
mod ordering; // points put in order, by halves
mod between; // which vertices may be on an edge
mod put; // a piece put into a table
mod laying; // the table laid in order
mod chart; // the vertices and the edges
mod cutting; // the edges cut into pieces, by tests
mod threads; // the vertices on each edge, remembered
mod along; // the edges cut into pieces, along threads
mod cuts; // the pieces in order
mod edges; // the overlay's graph in tables

pub use collecting::collect;
pub use cuts::pieces;
pub use edges::{carriers, origins, source_in};
pub use ordering::order;
pub use threads::remember_all;

// Edges in the order of their lower ends: each edge's lower end as a number, with the edge's own number as the last digit. The numbers are sorted, and the outcome is tested.
#![tactic(auto)]

mod cells; // a corner as a number, and the cell of an edge
mod sort; // cells sorted, with nothing promised
mod turn; // cells laid, sorted and tested

pub use cells::{CELLS, cells_from, edge_in};
pub use turn::in_turn;

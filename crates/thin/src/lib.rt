// The overlay's tables thinned: "every edge with the same pair on both sides is dropped, then vertices left without an edge" (02, Ask 12), of triples (02, Ask 13).
#![tactic(auto)]

mod keeping; // which edges stay, and which vertices are their ends
mod moving; // the rows of what stays, moved down
mod thinning; // both

pub use thinning::thin;

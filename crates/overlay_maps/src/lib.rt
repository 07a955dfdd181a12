// All maps in one set of tables, and the label of a half-edge in each of them.
#![tactic(auto)]

mod tables; // the tables of all maps as one value
mod stack; // all maps checked and laid in one set of tables
mod west; // what is seen looking west in a map
mod label; // the label of a half-edge in a map, and where the map stands

pub use label::{Part, Place, label_at, own_at, part_of};
pub use stack::{EMPTY, empty, lay_maps};
pub use tables::Layers;

// Lists, searches and tables: tables wiped, cells moved up, and rows stored in flat tables, for each type of cell. Everything else is in specs/.
#![tactic(auto)]

mod cells;

pub use cells::{lift, store, wipe_from};

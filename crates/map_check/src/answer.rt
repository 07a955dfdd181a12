// What the check of a map answers: "its vertex and edge counts or .. rules 1 to 10".
use map_file::Refusal;

#[derive(Clone, Copy, PartialEq, Eq, Debug)]
pub struct Counts {
    pub vertices: u16,
    pub edges: u16,
}

pub type Checked = Result<Counts, Refusal>;

// The plane in 64-bit code: points, sides, angles, how two edges meet. A function answers what the definition of the same name in document 01 (the crate
// paper, specs/Plane.antt and specs/Meeting.antt) says of its values; specs/Values.antt says which value stands for which, and specs/Bounds.antt how large they may be.
#![tactic(auto)]

mod point; // point.rt: points, directions and edges by value
mod order; // order.rt: which of two points comes first
mod edge; // edge.rt: an edge's ends, and the edge between two corners
mod side; // side.rt: on which side of an edge a point lies
mod angle; // angle.rt: the order of directions
mod on_edge; // on_edge.rt: whether a point lies on an edge
mod crossings; // crossings.rt: where two edges that are not parallel meet
mod kinds; // kinds.rt: the four ways in which two edges meet
mod boxes; // boxes.rt: edges that lie apart by height or by width
mod meetings; // meetings.rt: how two edges meet, and which may not stand in one map

pub use angle::{cross_of, less_angle, rises};
pub use boxes::boxes_apart;
pub use crossings::{crossing_over, over};
pub use edge::between;
pub use kinds::Meeting;
pub use meetings::{clash_by, meeting};
pub use on_edge::on_seg;
pub use order::{before, below, middling};
pub use point::{Point, Seg, Vector, whole};
pub use side::left_by;

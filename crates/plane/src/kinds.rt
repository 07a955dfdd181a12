// "apart, touching at an end of either, crossing inside both, or sharing a stretch, with the point where there is one"
use super::point::Point;

#[derive(Clone, Copy)]
pub enum Meeting {
    Apart,
    Touching(Point),
    Crossing(Point),
    Sharing,
}

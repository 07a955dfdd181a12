// "The label of a half-edge in a map: if it lies along an edge of that map, the label of that edge on that side; otherwise the label of what is seen looking
// west in that map from its lower end along it."
ghost use Rattle.std.specs.Prelude.{◌≡◌, ◌+◌, ◌-◌, ◌≤◌, ◌<◌, length};
ghost use Rattle.plane.specs.Values.{pt_of, seg_of, vec_of};
ghost use Rattle.plane.specs.Bounds.{Direction, Edge, Near};
ghost use Rattle.overlay_maps.specs.Ended.{foot_of};
ghost use Rattle.overlay_maps.specs.Label.{own_label};
ghost use Rattle.overlay_maps.specs.Place.{label_at, part_at};
ghost use Rattle.overlay_maps.specs.Given.{the_layers, the_tables, map_in, Legible, part_tables, StandsAt};

use crate::tables::{FlatMap, Layers};
use crate::west::seen_label;
use graph::{carrier_at, start};
use limits::{CARRIER_WIDTH, POINT_WIDTH};
use plane::{Point, Seg, Vector};

// Where a half-edge of the overlay lies: its number, the source + 1 or 0 that its piece has in the map, its lower end and its upward direction.
#[derive(Clone, Copy)]
pub struct Place {
    pub half: usize,
    pub source: u16,
    pub low: Point,
    pub up: Vector,
}

// Where the map of this number stands: its vertices are the rows v to w of the corners, its edges the rows a to b of the carriers.
#[derive(Clone, Copy)]
pub struct Part {
    pub map: usize,
    pub v: usize,
    pub w: usize,
    pub a: usize,
    pub b: usize,
}

// Where map m stands, by where each map's vertices and edges start.
pub fn part_of(layers: Layers, m: usize) -> Part
    requires { (m + 1 < length layers.vertices.now) × (m + 1 < length layers.edges.now) }
    ensures { result ≡ part_at layers.entry.vertices.now layers.entry.edges.now m }
{
    Part {
        map: m,
        v: layers.vertices[m],
        w: layers.vertices[m + 1],
        a: layers.edges[m],
        b: layers.edges[m + 1],
    }
}

// Whether a corner p is the lower end of an edge between corners, of which s is the carrier.
fn is_foot(s: Seg, p: Point) -> bool
    requires { Edge (seg_of s) × Near (pt_of p) }
    ensures { result ≡ foot_of (seg_of s) (pt_of p) }
{
    p.x == s.x && p.y == s.y
}

// The label of edge k of the map at the left of half-edge h that lies along it, where 2k' goes up and 2k' + 1 down. In the map it is half-edge 2k that goes down where the edge's lower end is that
// from which 2k + 1 starts.
fn own_label(m: FlatMap, h: usize, k: usize) -> u16
    requires fact_1 { Legible (the_tables m) }
    requires fact_2 { k < m.edges }
    ensures { result ≡ own_label (map_in (the_tables m.entry)) h k }
{
    let s = carrier_at(m.carriers, k);
    let p = start(m.points, m.origins, 2 * k + 1);
    if is_foot(s, p) {
        m.labels[2 * k + (1 - h % 2)]
    } else {
        m.labels[2 * k + h % 2]
    }
}

// The label in the map of a half-edge that lies at a place.
fn label_in(m: FlatMap, at: Place) -> u16
    requires fact_1 { Legible (the_tables m) }
    requires fact_2 { at.source ≤ m.edges }
    requires fact_3 { Near (pt_of at.low) × Direction (vec_of at.up) }
    ensures { result ≡ label_at (map_in (the_tables m.entry)) at }
{
    if at.source == 0 {
        return seen_label(m, at.low, at.up);
    }
    let k = at.source as usize - 1;
    own_label(m, at.half, k)
}

// The map that stands in a part of the tables.
fn map_at<'a>(layers: Layers<'a>, part: Part) -> FlatMap<'a>
    requires { StandsAt (the_layers layers) part }
    ensures { the_tables result ≡ part_tables (the_layers layers.entry) part }
{
    let from = POINT_WIDTH * part.v;
    let to = POINT_WIDTH * part.w;
    let foot = CARRIER_WIDTH * part.a;
    let head = CARRIER_WIDTH * part.b;
    let first = 2 * part.a;
    let last = 2 * part.b;
    FlatMap {
        points: &layers.corners[from..to],
        origins: &layers.origins[first..last],
        carriers: &layers.carriers[foot..head],
        labels: &layers.labels[first..last],
        vertices: part.w - part.v,
        edges: part.b - part.a,
    }
}

// The label of a half-edge that lies at a place, in that map.
pub fn label_at(layers: Layers, part: Part, at: Place) -> u16
    requires fact_1 { StandsAt (the_layers layers) part }
    requires fact_2 { at.source ≤ part.b - part.a }
    requires fact_3 { Near (pt_of at.low) × Direction (vec_of at.up) }
    ensures { result ≡ label_at (map_in (part_tables (the_layers layers.entry) part)) at }
{
    label_in(map_at(layers, part), at)
}

// The label of edge k of that map, at the left of half-edge h that lies along it.
pub fn own_at(layers: Layers, part: Part, h: usize, k: usize) -> u16
    requires fact_1 { StandsAt (the_layers layers) part }
    requires fact_2 { k < part.b - part.a }
    ensures { result ≡ own_label (map_in (part_tables (the_layers layers.entry) part)) h k }
{
    own_label(map_at(layers, part), h, k)
}

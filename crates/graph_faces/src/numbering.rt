// Faces: "Each outer walk makes one face, numbered from 1 by the walk's least half-edge number." A hole belongs to the face of the half-edge that it sees.
ghost use Rattle.std.specs.Prelude.{cond, ◌≡◌, ℕ, ◌+◌, ◌*◌, ◌≤◌, ◌<◌, length, get_or, set};
ghost use Rattle.seq.specs.Seq.{count, select, filled, over};
ghost use Rattle.paper.specs.Limits.{absent};
ghost use Rattle.graph.specs.Flat.{Numbers};
ghost use Rattle.graph_faces.specs.Sides.{Sighted};
ghost use Rattle.graph_faces.specs.Kinds.{Kinded, Known, Faced, hole_of, outer_lead, hole_lead, known_with, known_by, face_from, holes_in};

use super::looking::seen_from;
use graph::{FlatGraph, fill};
use limits::ABSENT;

// Whether h is of a hole walk: whether its walk "holds the half-edge of greatest angle out of its own smallest vertex".
pub fn is_hole(lead: &[u16], top: &[u16], h: usize) -> bool
    requires { Kinded lead.now top.now h }
    ensures { result ≡ hole_of lead.now top.now h }
{
    let t = top[h] as usize;
    lead[t] == lead[h]
}

// Whether h is the least half-edge of a hole walk.
pub fn leads_hole(lead: &[u16], top: &[u16], h: usize) -> bool
    requires { Kinded lead.now top.now h }
    ensures { result ≡ hole_lead lead.now top.now h }
{
    is_hole(lead, top, h) && lead[h] as usize == h
}

// What is known of the walk that half-edge h is the least of, stored at h, with c outer walks before it: of a hole walk what it sees, of an outer walk its number. The
// least half-edge of an outer walk is stored, and counted.
fn tell_walk(
    g: FlatGraph,
    rising: bool,
    lead: &[u16],
    top: &[u16],
    h: usize,
    c: usize,
    known: &mut [u16],
    leaders: &mut [u16],
) -> usize
    requires fact_1 { Sighted g.points.now g.origins.now g.carriers.now g.vertices g.edges rising }
    requires fact_2 { Kinded lead.now top.now h × (get_or top.now h 0 < 2 * g.edges) × (h < 2 * g.edges) × (c ≤ h) }
    requires fact_3 { (h < length known.old) × (c < length leaders.old) }
    ensures known { known.new ≡ set known.old h (known_with g.entry.points.now g.entry.origins.now g.entry.carriers.now g.entry.vertices g.entry.edges lead.now top.now h (c + 1)) }
    ensures leaders { leaders.new ≡ cond (hole_of lead.now top.now h) leaders.old (set leaders.old c h) }
    ensures counted { result ≡ cond (hole_of lead.now top.now h) c (c + 1) }
{
    if is_hole(lead, top, h) {
        let v = g.origins[top[h] as usize] as usize;
        known[h] = seen_from(g, rising, v);
        c
    } else {
        known[h] = (c + 1) as u16;
        leaders[c] = h as u16;
        c + 1
    }
}

// What is known of each walk, at its least half-edge; the least half-edges of the outer walks, rising, and how many there are.
pub fn tell(
    g: FlatGraph,
    rising: bool,
    lead: &[u16],
    top: &[u16],
    known: &mut [u16],
    leaders: &mut [u16],
) -> usize
    requires fact_1 { Sighted g.points.now g.origins.now g.carriers.now g.vertices g.edges rising }
    requires fact_2 { Numbers lead.now (2 * g.edges) (2 * g.edges) × Numbers top.now (2 * g.edges) (2 * g.edges) }
    requires fact_3 { (2 * g.edges ≤ length known.old) × (2 * g.edges ≤ length leaders.old) }
    ensures known { Known (known_by g.entry.points.now g.entry.origins.now g.entry.carriers.now g.entry.vertices g.entry.edges lead.now top.now) lead.now known.new (2 * g.entry.edges) }
    ensures leaders { leaders.new ≡ over (select (outer_lead lead.now top.now) (2 * g.entry.edges)) leaders.old }
    ensures counted { result ≡ count (outer_lead lead.now top.now) (2 * g.entry.edges) }
{
    let m = 2 * g.edges;
    let mut c = 0;
    for h in 0..m {
        if lead[h] as usize == h {
            c = tell_walk(g, rising, lead, top, h, c, known, leaders);
        }
    }
    c
}

// The face of half-edge h: of an outer walk its number, of a hole walk that of what is seen, through hole walks to the end, in at most n looks.
fn face(lead: &[u16], top: &[u16], known: &[u16], n: usize, m: usize, h: usize) -> u16
    requires fact_1 { Faced lead.now top.now known.now m }
    requires fact_2 { h < m }
    ensures { result ≡ face_from lead.now top.now known.now n h }
{
    let mut x = h;
    for _step in 0..n {
        let s = known[lead[x] as usize];
        if !is_hole(lead, top, x) {
            return s;
        }
        if s == ABSENT {
            return 0;
        }
        x = s as usize;
    }
    0
}

// The face of every half-edge, of m half-edges and n vertices; "its count of hole walks": of every face below f.
pub fn settle(
    lead: &[u16],
    top: &[u16],
    known: &[u16],
    n: usize,
    m: usize,
    faces: &mut [u16],
    inside: &mut [u16],
    f: usize,
)
    requires fact_1 { Faced lead.now top.now known.now m }
    requires fact_2 { m ≤ absent }
    requires fact_3 { ((h : ℕ) → h < m → face_from lead.now top.now known.now n h < f) }
    requires fact_4 { (m ≤ length faces.old) × (f ≤ length inside.old) }
    ensures faces { faces.new ≡ filled m (face_from lead.now top.now known.now n) faces.old }
    ensures inside { inside.new ≡ filled f (holes_in lead.now top.now (face_from lead.now top.now known.now n) m) inside.old }
{
    fill(inside, f, 0);
    for h in 0..m {
        let v = face(lead, top, known, n, m, h);
        faces[h] = v;
        if leads_hole(lead, top, h) {
            let at = v as usize;
            inside[at] += 1;
        }
    }
}

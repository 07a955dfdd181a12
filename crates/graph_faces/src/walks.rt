// Walks: the least half-edge of each, its smallest vertex, hole walk or outer walk.
ghost use Rattle.std.specs.Prelude.{◌≡◌, true, ℕ, ◌*◌, ◌≤◌, ◌<◌, length, get_or, take};
ghost use Rattle.seq.specs.Seq.{walk, leader, filled};
ghost use Rattle.paper.specs.Limits.{absent};
ghost use Rattle.graph.specs.Flat.{origin_at, Numbers, Starts};
ghost use Rattle.graph.specs.Rising.{RisesIf};
ghost use Rattle.graph.specs.Pick.{better};
ghost use Rattle.graph_faces.specs.Climbs.{Climbs, top_by_lead};
ghost use Rattle.graph_faces.specs.Lead.{marks, Permutes};
ghost use Rattle.graph_faces.specs.Turns.{earlier_at, low_at, top_at};

use graph::{fill, starts_first};
use limits::ABSENT;

// Stores h at each half-edge of its walk.
fn mark(next: &[u16], m: usize, h: usize, lead: &mut [u16])
    requires fact_1 { Permutes next.now m }
    requires fact_2 { m ≤ absent }
    requires fact_3 { h < m }
    requires fact_4 { m ≤ length lead.old }
    ensures { lead.new ≡ marks (walk (take m next.now) h) h lead.old }
{
    lead[h] = h as u16;
    let mut x = next[h] as usize;
    for _step in 0..m {
        if x == h {
            return;
        }
        lead[x] = h as u16;
        x = next[x] as usize;
    }
}

// The least half-edge of the walk of every half-edge. A walk that is not known yet is walked once, from its least half-edge.
pub fn leads(next: &[u16], m: usize, lead: &mut [u16])
    requires fact_1 { Permutes next.now m }
    requires fact_2 { m ≤ absent }
    requires fact_3 { m ≤ length lead.old }
    ensures { lead.new ≡ filled m (leader (take m next.now)) lead.old }
{
    fill(lead, m, ABSENT);
    for h in 0..m {
        if lead[h] == ABSENT {
            mark(next, m, h, lead);
        }
    }
}

// With r the half-edge of the smallest start so far, ABSENT where there is none yet: h too.
fn earlier(points: &[i64], origins: &[u16], n: usize, rising: bool, h: usize, r: u16) -> u16
    requires fact_1 { (h < absent) × Starts points.now origins.now h × ((r ≡ absent → ⊥) → Starts points.now origins.now r) }
    requires fact_2 { RisesIf rising points.now n }
    requires fact_3 { (origin_at origins.now h < n) × ((r ≡ absent → ⊥) → origin_at origins.now r < n) }
    ensures { result ≡ better (earlier_at points.now origins.now) absent h r }
{
    if r == ABSENT || starts_first(points, origins, n, rising, h, r as usize) {
        h as u16
    } else {
        r
    }
}

// For each least half-edge of a walk, of m half-edges and n vertices, whose points rise where `rising` says so, one that starts at the walk's smallest vertex; ABSENT for the others.
pub fn lows(
    points: &[i64],
    origins: &[u16],
    n: usize,
    rising: bool,
    lead: &[u16],
    m: usize,
    out: &mut [u16],
)
    requires fact_1 { ((h : ℕ) → h < m → Starts points.now origins.now h) }
    requires fact_2 { Numbers lead.now m m }
    requires fact_3 { m ≤ absent }
    requires fact_4 { m ≤ length out.old }
    requires fact_5 { RisesIf rising points.now n × Numbers origins.now m n }
    ensures { out.new ≡ filled m (low_at points.now origins.now lead.now m) out.old }
{
    fill(out, m, ABSENT);
    for h in 0..m {
        let l = lead[h] as usize;
        let r = out[l];
        out[l] = earlier(points, origins, n, rising, h, r);
    }
}

// The half-edge of greatest angle out of the smallest vertex of the walk of every half-edge: of its least half-edge, of the low one of that, of where that starts.
pub fn tops(origins: &[u16], lead: &[u16], low: &[u16], greatest: &[u16], m: usize, top: &mut [u16])
    requires fact_1 { Numbers lead.now m m }
    requires fact_2 { m ≤ length low.now }
    requires fact_3 { ((h : ℕ) → h < m → get_or low.now (get_or lead.now h 0) 0 < m) }
    requires fact_4 { Numbers origins.now m (length greatest.now) }
    requires fact_5 { m ≤ length top.old }
    ensures { top.new ≡ filled m (top_at origins.now lead.now low.now greatest.now) top.old }
{
    for h in 0..m {
        let l = lead[h] as usize;
        let x = low[l] as usize;
        let v = origins[x] as usize;
        top[h] = greatest[v];
    }
}

// Whether `rising` says so, and of e edges each starts at no smaller vertex than the one before it and ends at none smaller than it starts at.
pub fn climb(origins: &[u16], e: usize, rising: bool) -> bool
    requires fact_1 { 2 * e ≤ length origins.now }
    requires fact_2 { 2 * e ≤ absent }
    ensures { result ≡ true → (rising ≡ true) × Climbs origins.now e }
{
    if !rising {
        return false;
    }
    let mut last = 0u16;
    for k in 0..e {
        let lower = origins[2 * k];
        if lower < last || origins[2 * k + 1] < lower {
            return false;
        }
        last = lower;
    }
    true
}

// The same where edges climb: a walk's smallest vertex is the lower end of the edge of its least half-edge.
pub fn tops_by_leads(origins: &[u16], lead: &[u16], greatest: &[u16], m: usize, top: &mut [u16])
    requires fact_1 { Numbers lead.now m m }
    requires fact_2 { m ≤ absent }
    requires fact_3 { Numbers origins.now m (length greatest.now) }
    requires fact_4 { m ≤ length top.old }
    ensures { top.new ≡ filled m (top_by_lead origins.now lead.now greatest.now) top.old }
{
    for h in 0..m {
        let l = lead[h] as usize;
        let v = origins[2 * (l / 2)] as usize;
        top[h] = greatest[v];
    }
}

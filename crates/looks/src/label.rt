// The label of what an ordered look sees, and how many edges it read.
ghost use Rattle.std.specs.Prelude.{◌≡◌, ◌≤◌, ltb, length, get_or};
ghost use Rattle.seq.specs.Seq.{cond};
ghost use Rattle.paper.specs.Limits.{absent};
ghost use Rattle.plane.specs.Values.{vec_of};
ghost use Rattle.plane.specs.Bounds.{Corner};
ghost use Rattle.graph.specs.Flat.{Carriers};
ghost use Rattle.looks.specs.Rails.{rails_read, rail_label};

use super::reading::look_read;
use plane::Vector;

// A label, and the edges read for it.
#[derive(Clone, Copy)]
pub struct Labelled {
    pub label: u16,
    pub read: u16,
}

// The label of edge r of e; 0 where the outside is seen.
fn label_seen(easts: &[u16], e: usize, r: usize) -> u16
    requires { e ≤ length easts.now }
    ensures { result ≡ cond (ltb r e) (get_or easts.now r 0) 0 }
{
    if r < e { easts[r] } else { 0 }
}

// The label of what is seen from c, of e edges laid for looks, and how many of them were read.
pub fn label_read(rails: &[i16], easts: &[u16], e: usize, c: Vector) -> Labelled
    requires fact_1 { Carriers rails.now e }
    requires fact_2 { e ≤ absent }
    requires fact_3 { e ≤ length easts.now }
    requires fact_4 { Corner (vec_of c) }
    ensures same { result.label ≡ rail_label rails.now easts.now e (vec_of c) }
    ensures read { result.read ≡ rails_read rails.now e (vec_of c) }
{
    let looked = look_read(rails, e, c);
    let label = label_seen(easts, e, looked.rail);
    Labelled {
        label,
        read: looked.read,
    }
}

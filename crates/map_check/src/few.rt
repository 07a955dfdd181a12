// Rule 8 of few edges: each is held to every later one, with no order made and no table.
ghost use Rattle.std.specs.Prelude.{true, ◌≡◌, ◌<◌};
ghost use Rattle.seq.specs.Seq.{least};
ghost use Rattle.graph.specs.Flat.{carrier_at, Carriers};
ghost use Rattle.graph.specs.Upright.{Upright};
ghost use Rattle.map_check.specs.Net.{clashing_at};
ghost use Rattle.map_check.specs.Pass.{ClearAfter};

use super::pairs::clear;
use graph::carrier_at;

// Whether edge i clashes with no later one.
fn clear_after(carriers: &[i16], e: usize, i: usize) -> bool
    requires { Carriers carriers.now e × Upright carriers.now e × (i < e) }
    ensures { result ≡ true → ClearAfter (carrier_at carriers.now) e i }
{
    let s = carrier_at(carriers, i);
    for j in i + 1..e {
        let t = carrier_at(carriers, j);
        if !clear(s, t) {
            return false;
        }
    }
    true
}

// Whether no edge clashes with a later one.
pub fn pairs_clear(carriers: &[i16], e: usize) -> bool
    requires { Carriers carriers.now e × Upright carriers.now e }
    ensures { result ≡ true → least (clashing_at carriers.now e) e ≡ e }
{
    for i in 0..e {
        if !clear_after(carriers, e, i) {
            return false;
        }
    }
    true
}

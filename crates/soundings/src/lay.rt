// The two maps checked, each laid for looks where it passes: its edges in the order of their lower ends.
ghost use Rattle.std.specs.Prelude.{◌≡◌, ◌∷◌, []};
ghost use Rattle.seq.specs.Seq.{none};
ghost use Rattle.paper.specs.Refusal.{first_of, the_of_map};
ghost use Rattle.paper.specs.Map.{fault};
ghost use Rattle.paper.specs.Overlay.{map_faults};
ghost use Rattle.map_file.specs.Verdict.{verdict};
ghost use Rattle.map_check.specs.Answer.{answer_of};
ghost use Rattle.soundings.specs.Laid.{Laid, Ready, refused_in};

use limits::{MAP_CARRIER_CELLS, MAP_EDGES, MAP_HALVES, MAP_POINT_CELLS};
use looks::{lay_order, lay_rails};
use map_check::{Checked, lay_map};
use map_file::{Check, Refusal, edge_count};

// The refusal of a check, if there is one, of a map of this number.
fn of_map(map: u16, c: Checked) -> Check
    ensures { verdict result ≡ the_of_map map (refused_in (answer_of c)) }
{
    match c {
        Err(r) => Err(Refusal { map, ..r }),
        Ok(_) => Ok(()),
    }
}

// "Keep each map's edges ordered by lower end": the edges of a map in tables, laid for looks.
fn put_in_order(
    file: &[u8],
    corners: &[i64],
    origins: &[u16],
    carriers: &[i16],
    sides: &[u16],
    rails: &mut [i16; MAP_CARRIER_CELLS],
    easts: &mut [u16; MAP_EDGES as usize],
)
    requires { Laid file.now corners.now origins.now carriers.now sides.now }
    ensures { Ready file.now rails.new easts.new }
{
    let mut order = [0u16; MAP_EDGES as usize];
    let e = edge_count(file) as usize;
    lay_order(corners, origins, e, &mut order);
    lay_rails(corners, origins, carriers, sides, &order, e, rails, easts);
}

// The map of a file of any bytes, which is the map of this number.
fn lay_one(
    file: &[u8],
    map: u16,
    rails: &mut [i16; MAP_CARRIER_CELLS],
    easts: &mut [u16; MAP_EDGES as usize],
) -> Check
    ensures { (verdict result ≡ the_of_map map (fault file.now)) × (fault file.now ≡ none → Ready file.now rails.new easts.new) }
{
    let mut corners = [0i64; MAP_POINT_CELLS];
    let mut origins = [0u16; MAP_HALVES];
    let mut carriers = [0i16; MAP_CARRIER_CELLS];
    let mut sides = [0u16; MAP_HALVES];
    let c = lay_map(file, &mut corners, &mut origins, &mut carriers, &mut sides);
    of_map(map, c)?;
    put_in_order(file, &corners, &origins, &carriers, &sides, rails, easts);
    Ok(())
}

// "The first map is checked wholly, then the second."
pub fn lay_both(
    zones: &[u8],
    rails: &mut [i16; MAP_CARRIER_CELLS],
    easts: &mut [u16; MAP_EDGES as usize],
    blocks: &[u8],
    rails2: &mut [i16; MAP_CARRIER_CELLS],
    easts2: &mut [u16; MAP_EDGES as usize],
) -> Check
    ensures { (verdict result ≡ first_of (map_faults (zones.now ∷ blocks.now ∷ []))) × (verdict result ≡ none → Ready zones.now rails.new easts.new) × (verdict result ≡ none → Ready blocks.now rails2.new easts2.new) }
{
    // The second map is laid where the first is refused too: the state's fields are open to callers in C.
    let first = lay_one(zones, 1, rails, easts);
    let second = lay_one(blocks, 2, rails2, easts2);
    first?;
    second
}

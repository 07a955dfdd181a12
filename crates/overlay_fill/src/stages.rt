// From the layers of maps that keep the rules to the lent tables. Each stage ends in a refusal or hands on to the next; "room comes last".
ghost use Rattle.std.specs.Prelude.{◌≡◌};
ghost use Rattle.seq.specs.Seq.{List, ℕ};
ghost use Rattle.paper.specs.Map.{Map};
ghost use Rattle.paper.specs.Lent.{Lengths, Outcome, lengths_of};
ghost use Rattle.tables.specs.Values.{tables_by, outcome_of};
ghost use Rattle.overlay_maps.specs.Held.{Held, held_maps};
ghost use Rattle.overlay_maps.specs.Given.{the_layers};
ghost use Rattle.overlay_graph.specs.Cut.{CutOf};
ghost use Rattle.overlay_graph.specs.Given.{the_cut};
ghost use Rattle.overlay_fill.specs.Judged.{PassesFiles, Ready, RefusesFiles, RefusesOver, Rowed};

use crate::judge::over_room;
use crate::laying::refuse;
use limits::{
    FEW_EDGES, MAPS, PIECE_CELLS, POINT_CELLS, SMALL_EDGES, SMALL_PIECE_CELLS, SMALL_POINT_CELLS,
    SMALL_VERTICES,
};
use overlay_graph::{Cut, Way, cut_few, cut_maps};
use overlay_maps::Layers;
use tables::{Answer, room_in};

// The four lent tables stay parameters one by one: `overlay`, `overlay_by` and `melt` take them so, which README.md and docs/ name. A refusal wipes them, so it leaves by `refuse` and not by `?`.

// What becomes of the overlay's vertices and edges within the room: `laid` of the maps, and so of files what is `promised` of them. The room is that of the overlay (`refuses`).
pub trait Layout {
    ghost laid: { List Map → Lengths → Outcome };

    ghost promised: { List (List ℕ) → Lengths → Outcome };

    fn lay(
        layers: Layers,
        cut: Cut,
        vertices: &mut [i64],
        halves: &mut [u16],
        sources: &mut [u32],
        faces: &mut [u16],
    ) -> Answer
        requires ready { Ready (the_layers layers) (the_cut cut) (lengths_of (tables_by vertices.old halves.old sources.old faces.old)) }
        requires cut_of { CutOf (held_maps (the_layers layers)) (the_cut cut) }
        ensures { outcome_of result (tables_by vertices.new halves.new sources.new faces.new) ≡ laid (held_maps (the_layers layers.entry)) (lengths_of (tables_by vertices.old halves.old sources.old faces.old)) };

    ghost refuses: { RefusesOver laid };

    ghost refuses_files: { RefusesFiles promised };

    ghost passes_files: { PassesFiles laid promised };
}

// The maps' vertices and edges, in tables of any length that have their rows: more of them than room are refused.
fn lay_cut<L: Layout>(
    layers: Layers,
    cut: Cut,
    vertices: &mut [i64],
    halves: &mut [u16],
    sources: &mut [u32],
    faces: &mut [u16],
) -> Answer
    requires fact_1 { Held (the_layers layers) }
    requires fact_2 { CutOf (held_maps (the_layers layers)) (the_cut cut) }
    requires fact_3 { Rowed (the_cut cut) }
    ensures { outcome_of result (tables_by vertices.new halves.new sources.new faces.new) ≡ L.laid (held_maps (the_layers layers.entry)) (lengths_of (tables_by vertices.old halves.old sources.old faces.old)) }
{
    let room = room_in(vertices.len(), halves.len(), sources.len(), faces.len());
    let check = over_room(room, cut.vertices, cut.edges);
    match check {
        Err(r) => refuse(r, vertices, halves, sources, faces),
        Ok(()) => L::lay(layers, cut, vertices, halves, sources, faces),
    }
}

// Vertices and edges in tables as large as any overlay may need them, the vertices by the way that is asked for.
fn from_many<L: Layout>(
    way: Way,
    layers: Layers,
    vertices: &mut [i64],
    halves: &mut [u16],
    sources: &mut [u32],
    faces: &mut [u16],
) -> Answer
    requires { Held (the_layers layers) }
    ensures { outcome_of result (tables_by vertices.new halves.new sources.new faces.new) ≡ L.laid (held_maps (the_layers layers.entry)) (lengths_of (tables_by vertices.old halves.old sources.old faces.old)) }
{
    let mut points = [0i64; POINT_CELLS];
    let mut pieces = [0u16; PIECE_CELLS];
    let counts = cut_maps(way, layers, &mut points, &mut pieces);
    let cut = Cut {
        vertices: counts.vertices,
        points: &points,
        edges: counts.edges,
        pieces: &pieces,
    };
    lay_cut::<L>(layers, cut, vertices, halves, sources, faces)
}

// The same in small tables, which are soon cleared, the vertices collected the plain way; where these tables are too small, anew in large ones.
fn from_few<L: Layout>(
    layers: Layers,
    vertices: &mut [i64],
    halves: &mut [u16],
    sources: &mut [u32],
    faces: &mut [u16],
) -> Answer
    requires { Held (the_layers layers) }
    ensures { outcome_of result (tables_by vertices.new halves.new sources.new faces.new) ≡ L.laid (held_maps (the_layers layers.entry)) (lengths_of (tables_by vertices.old halves.old sources.old faces.old)) }
{
    let mut points = [0i64; SMALL_POINT_CELLS];
    let mut pieces = [0u16; SMALL_PIECE_CELLS];
    let counts = cut_few(layers, &mut points, &mut pieces);
    if counts.vertices <= SMALL_VERTICES && counts.edges <= SMALL_EDGES {
        let cut = Cut {
            vertices: counts.vertices,
            points: &points,
            edges: counts.edges,
            pieces: &pieces,
        };
        lay_cut::<L>(layers, cut, vertices, halves, sources, faces)
    } else {
        from_many::<L>(Way::Swept, layers, vertices, halves, sources, faces)
    }
}

// From the layers to the tables, the vertices collected by the way that is asked for. If none is, with few input edges small tables are tried, which these edges need no more than unless they cross each other often; and
// otherwise the way is taken that is faster on full sheets.
pub fn from_layers<L: Layout>(
    way: Option<Way>,
    layers: Layers,
    vertices: &mut [i64],
    halves: &mut [u16],
    sources: &mut [u32],
    faces: &mut [u16],
) -> Answer
    requires { Held (the_layers layers) }
    ensures { outcome_of result (tables_by vertices.new halves.new sources.new faces.new) ≡ L.laid (held_maps (the_layers layers.entry)) (lengths_of (tables_by vertices.old halves.old sources.old faces.old)) }
{
    match way {
        Some(way) => from_many::<L>(way, layers, vertices, halves, sources, faces),
        None if layers.edges[MAPS] <= FEW_EDGES => {
            from_few::<L>(layers, vertices, halves, sources, faces)
        }
        None => from_many::<L>(Way::Swept, layers, vertices, halves, sources, faces),
    }
}

// The operations, as C calls them: the parameters are those of include/bonnetewe.h.
ghost use Rattle.std.specs.Prelude.{◌≡◌, [], length};
ghost use Rattle.paper.specs.Map.{check};
ghost use Rattle.paper.specs.Meeting.{meet};
ghost use Rattle.paper.specs.Mend.{mend};
ghost use Rattle.paper.specs.Lent.{lengths_of};
ghost use Rattle.paper.specs.Overlay.{overlay};
ghost use Rattle.paper.specs.Melt.{melt};
ghost use Rattle.paper.specs.Record.{edge_record};
ghost use Rattle.paper.specs.Reader.{read};
ghost use Rattle.paper.specs.Writer.{write};
ghost use Rattle.paper.specs.Tide.{tide};
ghost use Rattle.tables.specs.Values.{lengths_by, tables_by};
ghost use Rattle.bonnetewe.specs.Told.{told_map, Told, ToldFile, ToldMending, counts, told_ends, told_sources};
ghost use Rattle.bonnetewe.specs.Met.{ToldMeeting};
ghost use Rattle.bonnetewe.specs.ToldTide.{rule_by, reading_by, told_tide, told_height};

use crate::answer::{of_answer, of_checked, of_mended, of_written};
use crate::height::{height_of, of_tide, reading_by, rule_by};
use crate::met::{lay_point, of_met, point_of};
use crate::record::{ends_of, sources_of};
use tables::Counts;

// The check of one map file of any bytes: done with its counts of vertices and edges, or refused.
#[unsafe(no_mangle)]
pub extern "C" fn bonnetewe_check(file: &[u8]) -> u64
    ensures { result ≡ told_map (check file.now) }
{
    let answer = map_check::check(file);
    of_checked(answer)
}

// How the edge from a to b and the edge from c to d meet, with the point in a lent table of any length.
#[unsafe(no_mangle)]
pub extern "C" fn bonnetewe_meet(
    ax: i16,
    ay: i16,
    bx: i16,
    by: i16,
    cx: i16,
    cy: i16,
    dx: i16,
    dy: i16,
    point: &mut [i64],
) -> u64
    ensures { ToldMeeting (meet ax ay bx by cx cy dx dy) (length point.old) point.new result }
{
    let answer = meet::meet(ax, ay, bx, by, cx, cy, dx, dy);
    lay_point(point_of(answer), point);
    of_met(answer)
}

// The overlay of three map files of any bytes in the lent tables: zones, blocks, bed. Two maps are three with an empty third.
#[unsafe(no_mangle)]
pub extern "C" fn bonnetewe_overlay(
    zones: &[u8],
    blocks: &[u8],
    bed: &[u8],
    vertices: &mut [i64],
    halves: &mut [u16],
    sources: &mut [u32],
    faces: &mut [u16],
) -> u64
    ensures { Told (overlay (lengths_of (tables_by vertices.old halves.old sources.old faces.old)) zones.now blocks.now bed.now) (tables_by vertices.new halves.new sources.new faces.new) result }
{
    let answer = overlay::overlay(zones, blocks, bed, vertices, halves, sources, faces);
    of_answer(answer)
}

// The same with the cells melted together (02, Ask 12): what is left of the overlay without the edges that have the same labels on both sides.
#[unsafe(no_mangle)]
pub extern "C" fn bonnetewe_melt(
    zones: &[u8],
    blocks: &[u8],
    bed: &[u8],
    vertices: &mut [i64],
    halves: &mut [u16],
    sources: &mut [u32],
    faces: &mut [u16],
) -> u64
    ensures { Told (melt (lengths_of (tables_by vertices.old halves.old sources.old faces.old)) zones.now blocks.now bed.now) (tables_by vertices.new halves.new sources.new faces.new) result }
{
    let answer = melt::melt(zones, blocks, bed, vertices, halves, sources, faces);
    of_answer(answer)
}

// Reads an overlay file of any bytes into the lent tables.
#[unsafe(no_mangle)]
pub extern "C" fn bonnetewe_read(
    file: &[u8],
    vertices: &mut [i64],
    halves: &mut [u16],
    sources: &mut [u32],
    faces: &mut [u16],
) -> u64
    ensures { Told (read (lengths_by (length vertices.old) (length halves.old) (length sources.old) (length faces.old)) file.now) (tables_by vertices.new halves.new sources.new faces.new) result }
{
    let answer = ovfile_read::read(file, vertices, halves, sources, faces);
    of_answer(answer)
}

// Writes the overlay file of counts and tables into the buffer.
#[unsafe(no_mangle)]
pub extern "C" fn bonnetewe_write(
    v: u16,
    e: u16,
    f: u16,
    vertices: &[i64],
    halves: &[u16],
    sources: &[u32],
    faces: &[u16],
    buffer: &mut [u8],
) -> u64
    ensures { ToldFile (write (length buffer.old) (counts v e f) (tables_by vertices.now halves.now sources.now faces.now)) buffer.new result }
{
    let c = Counts {
        vertices: v,
        edges: e,
        faces: f,
    };
    let answer = ovfile_write::write(c, vertices, halves, sources, faces, buffer);
    of_written(answer)
}

// Mends a map file of any bytes into a lent file and a lent list of two numbers an entry: done with the file's length and the number of entries, or refused.
#[unsafe(no_mangle)]
pub extern "C" fn bonnetewe_mend(file: &[u8], out: &mut [u8], list: &mut [u16]) -> u64
    ensures { ToldMending (mend (length out.old) (length list.old) file.now) out.new list.new result }
{
    let answer = mend::mend(file, out, list);
    of_mended(answer)
}

// "it is handed out by edge number, and a number with no edge is answered as absent": the ends of edge k, in tables of any contents.
#[unsafe(no_mangle)]
pub extern "C" fn bonnetewe_edge_ends(halves: &[u16], sources: &[u32], k: usize) -> u64
    ensures { result ≡ told_ends (edge_record (tables_by [] halves.now sources.now []) k) }
{
    let found = tables::edge(halves, sources, k);
    ends_of(found)
}

// The sources of the same.
#[unsafe(no_mangle)]
pub extern "C" fn bonnetewe_edge_sources(halves: &[u16], sources: &[u32], k: usize) -> u64
    ensures { result ≡ told_sources (edge_record (tables_by [] halves.now sources.now []) k) }
{
    let found = tables::edge(halves, sources, k);
    sources_of(found)
}

// The height of tide by a zone's rule (`kind` 0 none, 1 the ratio a, any other the weights a and b) and both readings: done with its whole millimetres, or refused.
#[unsafe(no_mangle)]
pub extern "C" fn bonnetewe_tide(kind: u16, a: f64, b: f64, first: i32, second: i32) -> u64
    ensures { result ≡ told_tide (tide (rule_by kind a b) (reading_by first) (reading_by second)) }
{
    let answer = tide::height(rule_by(kind, a, b), reading_by(first), reading_by(second));
    of_tide(answer)
}

// The same height before rounding, 0 where it is refused.
#[unsafe(no_mangle)]
pub extern "C" fn bonnetewe_tide_height(kind: u16, a: f64, b: f64, first: i32, second: i32) -> f64
    ensures { result ≡ told_height (tide (rule_by kind a b) (reading_by first) (reading_by second)) }
{
    let answer = tide::height(rule_by(kind, a, b), reading_by(first), reading_by(second));
    height_of(answer)
}

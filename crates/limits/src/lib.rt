// The numbers of document 01 that the code compares with, counts from, or makes its tables by, each once, and what follows from them. The proofs of the crates
// that use them hold them to the definitions (paper, specs/Limits.antt): a wrong number here proves nothing there.
#![tactic(auto)]

// Maps.

// "Two map files go in", and "Bed type comes as a third map" (02, Ask 13)
pub const MAPS: usize = 3;
// "the bytes before the first vertex": mark, version and the two counts
pub const MAP_HEAD: usize = 9;
// "Length is 9 + 4V + 8E": the bytes of one vertex and edge
pub const MAP_VERTEX_SIZE: usize = 4;

pub const MAP_EDGE_SIZE: usize = 8;
// "V ≤ 200, E ≤ 300", coordinates from "−16,000 to 16,000" (02, Ask 7)
pub const MAP_VERTICES: u16 = 200;

pub const MAP_EDGES: u16 = 300;

pub const REACH: u64 = 16000;

// The overlay.

// "The overlay has at most 1,000 vertices, 2,000 edges (4,000 half-edges) and 1,334 faces"
pub const OVERLAY_VERTICES: u16 = 1000;

pub const OVERLAY_EDGES: u16 = 2000;

pub const OVERLAY_HALVES: u16 = 2 * OVERLAY_EDGES;

pub const OVERLAY_FACES: u16 = 1334;
// "65,535 for face 0", "65,535 if none": no half-edge
pub const ABSENT: u16 = 65535;

// The overlay file.

// the newest version of the file: "The writer writes 3, the reader takes all three versions" (02, Ask 13)
pub const VERSION: u16 = 3;
// mark, version and the three counts
pub const OVERLAY_HEAD: usize = 11;
// "X and Y in five bytes each (two's complement) and D in four (unsigned)"; "overlay files get version 2 with six bytes each" (02, Ask 7)
pub const FIRST_COORDINATE_BYTES: usize = 5;

pub const COORDINATE_BYTES: usize = 6;

pub const DENOMINATOR_BYTES: usize = 4;
// the bytes of one vertex, edge and face in the newest version: "edges as eight 16-bit numbers", of which one for each map is a source; "faces as four (labels, least half-edge, holes)"
pub const VERTEX_SIZE: usize = 2 * COORDINATE_BYTES + DENOMINATOR_BYTES;

pub const EDGE_SIZE: usize = 12 + 2 * MAPS;

pub const FACE_SIZE: usize = 4 + 2 * MAPS;

// Cells of a row. The first four are the rows of the lent tables.

// X, Y, D, least outgoing half-edge
pub const VERTEX_WIDTH: usize = 4;
// "A half-edge holds origin, twin, follower, predecessor, face"
pub const HALF_WIDTH: usize = 5;
// both half-edges of an edge
pub const EDGE_WIDTH: usize = 2 * HALF_WIDTH;
// for each map the source + 1 or 0
pub const SOURCE_WIDTH: usize = MAPS;
// for each map the label, the least outer half-edge, the count of hole walks
pub const FACE_WIDTH: usize = MAPS + 2;
// lower, upper, and for each map the source + 1 or 0: the sources stand from cell PIECE_SOURCES on
pub const PIECE_SOURCES: usize = 2;

pub const PIECE_WIDTH: usize = PIECE_SOURCES + MAPS;
// X, Y, D and a spare cell
pub const POINT_WIDTH: usize = 4;
// the foot and the direction upward
pub const CARRIER_WIDTH: usize = 4;
// a direction
pub const HEADING_WIDTH: usize = 2;

// Lengths of the lent tables, at most.

pub const VERTICES: usize = OVERLAY_VERTICES as usize;

pub const EDGES: usize = OVERLAY_EDGES as usize;

pub const HALVES: usize = OVERLAY_HALVES as usize;

pub const FACES: usize = OVERLAY_FACES as usize;

pub const VERTEX_CELLS: usize = VERTEX_WIDTH * VERTICES;

pub const HALF_CELLS: usize = HALF_WIDTH * HALVES;

pub const SOURCE_CELLS: usize = SOURCE_WIDTH * EDGES;

pub const FACE_CELLS: usize = FACE_WIDTH * FACES;

// Lengths of the tables that the overlay is made in.

// one row more than the overlay may have, so that a count says whether there are more
pub const VERTEX_ROWS: usize = VERTICES + 1;

pub const EDGE_ROWS: usize = EDGES + 1;

pub const POINT_CELLS: usize = POINT_WIDTH * VERTEX_ROWS;
// half of the vertices, set aside while both halves are merged
pub const ASIDE_CELLS: usize = POINT_WIDTH * (VERTICES / 2);

pub const PIECE_CELLS: usize = PIECE_WIDTH * EDGE_ROWS;

pub const CARRIER_CELLS: usize = CARRIER_WIDTH * EDGES;

pub const HEADING_CELLS: usize = HEADING_WIDTH * HALVES;
// a face for each half-edge and face 0: as many as could be numbered
pub const FACE_ROWS: usize = HALVES + 1;

// Small sheets: tables of a thirty-second.

pub const SMALL_VERTICES: usize = VERTICES / 32;

pub const SMALL_EDGES: usize = EDGES / 32;

pub const SMALL_HALVES: usize = 2 * SMALL_EDGES;
// a face for each edge, and face 0
pub const SMALL_FACES: usize = SMALL_EDGES + 1;
// one row more, as above
pub const SMALL_VERTEX_ROWS: usize = SMALL_VERTICES + 1;

pub const SMALL_EDGE_ROWS: usize = SMALL_EDGES + 1;

pub const SMALL_POINT_CELLS: usize = POINT_WIDTH * SMALL_VERTEX_ROWS;

pub const SMALL_PIECE_CELLS: usize = PIECE_WIDTH * SMALL_EDGE_ROWS;

pub const SMALL_CARRIER_CELLS: usize = CARRIER_WIDTH * SMALL_EDGES;

pub const SMALL_HEADING_CELLS: usize = HEADING_WIDTH * SMALL_HALVES;
// with so many input edges small tables are tried
pub const FEW_EDGES: usize = 24;

// Lengths of the tables of one map.

pub const MAP_HALVES: usize = 2 * MAP_EDGES as usize;

pub const MAP_POINT_CELLS: usize = POINT_WIDTH * MAP_VERTICES as usize;

pub const MAP_CARRIER_CELLS: usize = CARRIER_WIDTH * MAP_EDGES as usize;

pub const MAP_HEADING_CELLS: usize = HEADING_WIDTH * MAP_HALVES;

// Lengths of the tables of all maps, one after the other.

// where each map starts, and where the last ends
pub const LAYER_STARTS: usize = MAPS + 1;

pub const LAYER_HALVES: usize = MAPS * MAP_HALVES;

pub const LAYER_POINT_CELLS: usize = MAPS * MAP_POINT_CELLS;

pub const LAYER_CARRIER_CELLS: usize = MAPS * MAP_CARRIER_CELLS;

// Soundings by cell.

// "more than 65,535 soundings", "in batches of at most 4,096" (02, Ask 3)
pub const LIST_SOUNDINGS: usize = 65535;

pub const BATCH_SOUNDINGS: usize = 4096;
// x and y, two bytes each
pub const SOUNDING_SIZE: usize = 4;

pub const BATCH_BYTES: usize = SOUNDING_SIZE * BATCH_SOUNDINGS;
// "pair": the maps that the soundings are looked up in, so the labels of a row; rows in all
pub const PAIR_WIDTH: usize = 2;

pub const PAIR_CELLS: usize = PAIR_WIDTH * FACES;

// The height of tide.

// "whole millimetres from −20,000 to 20,000" (02, Ask 5)
pub const GAUGE_REACH: i32 = 20000;

// The year.

// "up to 400 overlay files", "more than 500 pairs" (02, Ask 14)
pub const YEAR_FILES: u16 = 400;

pub const YEAR_PAIRS: usize = 500;
// zone, block, sheets, faces, and the last file that has the pair
pub const TALLY_WIDTH: usize = 5;

pub const TALLY_CELLS: usize = TALLY_WIDTH * YEAR_PAIRS;

// The listing.

// the bytes of a line, at most
pub const LINE: usize = 64;
// the counts, the faces and the gaps, a line each
pub const LISTING: usize = LINE * (FACES + 2);

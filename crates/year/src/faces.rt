// The faces of a file other than 0, one after the other: added to the table of pairs, and the gaps among them.
ghost use Rattle.std.specs.Prelude.{◌≡◌, true, ◌+◌, ◌*◌, ◌≤◌, ◌<◌, length};
ghost use Rattle.seq.specs.Seq.{cond};
ghost use Rattle.seq.specs.HowMany.{how_many};
ghost use Rattle.paper.specs.Limits.{year_pairs};
ghost use Rattle.paper.specs.Reader.{stored_label};
ghost use Rattle.paper.specs.Year.{gap_pair};
ghost use Rattle.laws_year.specs.Capped.{cap_faces};
ghost use Rattle.ovfile.specs.Values.{layout_from};
ghost use Rattle.year.specs.TallyRows.{tally_width};
ghost use Rattle.year.specs.Kept.{kept, Few};
ghost use Rattle.year.specs.Risen.{InOrder};
ghost use Rattle.year.specs.Faced.{pairs_from, others, roomy};

use crate::face::add_face;
use ovfile_read::Stored;

// Label j of face f + 1 of a file.
fn label_of(stored: &Stored, f: usize, j: u32) -> u32
    requires { f < others }
    ensures { result ≡ stored_label (layout_from stored.now.layout) stored.now.file.now (f + 1) j }
{
    u32::from(stored.label(f as u32 + 1, j))
}

// 1 for a gap: "a face other than 0 whose zone label is 0 and whose block label is not 0".
fn gap(zone: u32, block: u32) -> u32
    ensures { result ≡ cond (gap_pair (zone, block)) 1 0 }
{
    if zone == 0 && block != 0 { 1 } else { 0 }
}

// The gaps among the first n faces other than 0, where the faces start.
pub fn gaps(stored: &Stored, n: usize) -> u32
    requires { n ≤ others }
    ensures { result ≡ how_many gap_pair (pairs_from (layout_from stored.now.layout) stored.now.file.now n) }
{
    let mut total = 0u32;
    for f in 0..n {
        let zone = label_of(stored, f, 0);
        let block = label_of(stored, f, 1);
        total += gap(zone, block);
    }
    total
}

// Adds the first n faces other than 0, of the file with this number, to a table of `pairs` pairs.
pub fn add_faces(
    stored: &Stored,
    n: usize,
    number: u32,
    rows: &mut [u32],
    pairs: usize,
    ordered: bool,
) -> usize
    requires fact_1 { n ≤ others }
    requires fact_2 { tally_width * year_pairs ≤ length rows.old }
    requires fact_3 { Few roomy (kept rows.old pairs).tallies }
    requires fact_4 { (ordered ≡ true → InOrder (kept rows.old pairs).tallies) }
    ensures { kept rows.new result ≡ cap_faces number (kept rows.old pairs) (pairs_from (layout_from stored.now.layout) stored.now.file.now n) }
{
    let mut total = pairs;
    for f in 0..n {
        let zone = label_of(stored, f, 0);
        let block = label_of(stored, f, 1);
        total = add_face(rows, total, zone, block, number, ordered);
    }
    total
}

// One file more.
ghost use Rattle.std.specs.Prelude.{◌≡◌, ◌-◌, ◌*◌, ◌≤◌, ◌<◌, length};
ghost use Rattle.seq.specs.Seq.{some};
ghost use Rattle.paper.specs.Limits.{year_files, year_pairs};
ghost use Rattle.paper.specs.Year.{sheet_of};
ghost use Rattle.laws_year.specs.Step.{or_first};
ghost use Rattle.laws_year.specs.Capped.{cap_read};
ghost use Rattle.ovfile.specs.Values.{layout_from};
ghost use Rattle.year.specs.TallyRows.{tally_width};
ghost use Rattle.year.specs.Faced.{pairs_from, others};
ghost use Rattle.year.specs.Stated.{minus_one, state_of, year_state, next, Roomy};

use crate::face::in_order;
use crate::faces::{add_faces, gaps};
use crate::state::{Sums, Year, has_room, kept_pairs};
use limits::{FACE_CELLS, HALF_CELLS, SOURCE_CELLS, VERTEX_CELLS, YEAR_FILES};
use ovfile_read::{Stored, judge};

// The first bad file + 1, where the next one is bad.
fn first_bad(bad: u16, files: u16) -> u16
    requires { files < year_files }
    ensures { minus_one result ≡ or_first (minus_one bad) files }
{
    if bad == 0 { files + 1 } else { bad }
}

// The faces other than 0.
fn others(faces: u16) -> usize
    ensures { result ≡ faces - 1 }
{
    faces.saturating_sub(1) as usize
}

// A file that is read, with n faces other than 0.
fn add_sheet(stored: &Stored, n: usize, rows: &mut [u32], sums: Sums) -> Sums
    requires fact_1 { n ≤ others }
    requires fact_2 { Roomy rows.old sums }
    requires fact_3 { sums.files < year_files }
    ensures { state_of rows.new result ≡ cap_read (state_of rows.old sums) (some (pairs_from (layout_from stored.now.layout) stored.now.file.now n)) }
{
    let number = sums.files + 1;
    let ordered = in_order(rows, kept_pairs(sums.pairs));
    let pairs = add_faces(stored, n, number as u32, rows, sums.pairs, ordered);
    let gaps = sums.gaps + gaps(stored, n);
    Sums {
        pairs,
        gaps,
        files: number,
        ..sums
    }
}

// A file among the first 400, as the reader judges it.
fn add_read(rows: &mut [u32], sums: Sums, file: &[u8]) -> Sums
    requires fact_1 { Roomy rows.old sums }
    requires fact_2 { sums.files < year_files }
    ensures { state_of rows.new result ≡ cap_read (state_of rows.old sums) (sheet_of file.now) }
{
    match judge(file, VERTEX_CELLS, HALF_CELLS, SOURCE_CELLS, FACE_CELLS) {
        Err(_) => Sums {
            files: sums.files + 1,
            bad: first_bad(sums.bad, sums.files),
            ..sums
        },
        Ok(stored) => add_sheet(&stored, others(stored.counts.faces), rows, sums),
    }
}

// Any file: after the first 400 it is only counted, and not read.
fn add_file(rows: &mut [u32], sums: Sums, file: &[u8]) -> Sums
    requires { tally_width * year_pairs ≤ length rows.old }
    ensures { state_of rows.new result ≡ next (state_of rows.old sums) (sheet_of file.now) }
{
    if !has_room(rows, sums) {
        return sums;
    }
    if YEAR_FILES <= sums.files {
        return Sums {
            files: YEAR_FILES + 1,
            ..sums
        };
    }
    add_read(rows, sums, file)
}

// One file more.
pub fn add(year: Year, file: &[u8]) -> Year
    ensures { year_state result ≡ next (year_state year) (sheet_of file.now) }
{
    let mut rows = year.rows;
    let sums = add_file(&mut rows, year.sums, file);
    Year { rows, sums }
}

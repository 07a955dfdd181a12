// The form of an overlay file: "1 (under 11 bytes or wrong mark), 2 (version), 3 (a count over its number above), 4 (length)".
ghost use Rattle.std.specs.Prelude.{◌≡◌, not, ◌||◌, ltb, eqb, length, IfOk};
ghost use Rattle.paper.specs.Limits.{overlay_head};
ghost use Rattle.paper.specs.Bytes.{ascii, marked, u16};
ghost use Rattle.paper.specs.Refusal.{first_of};
ghost use Rattle.paper.specs.Ovfile.{layouts, layout_of};
ghost use Rattle.paper.specs.Reader.{head_faults};
ghost use Rattle.map_file.specs.Verdict.{verdict};

use crate::stored::{Stored, counts};
use limits::{OVERLAY_HEAD, VERSION};
use map_file::{Refusal, byte_at, given, u16_at};
use ovfile::{Layout, numbers, over};

// "under 11 bytes or wrong mark"
fn bad_mark(file: &[u8]) -> bool
    ensures { result ≡ (ltb (length file.now) overlay_head || not (marked (ascii "ZOV") file.now 0)) }
{
    file.len() < OVERLAY_HEAD
        || byte_at(file, 0) != b'Z'
        || byte_at(file, 1) != b'O'
        || byte_at(file, 2) != b'V'
}

// a version that is not known
fn bad_version(file: &[u8]) -> bool
    ensures { result ≡ (eqb (u16 file.now 3) 0 || ltb (length layouts) (u16 file.now 3)) }
{
    let version = u16_at(file, 3);
    version == 0 || VERSION < version
}

// The file of right form, or the first of rules 1 to 4 that it breaks.
pub fn head(file: &[u8]) -> Result<Stored<'_>, Refusal>
    ensures told { verdict result ≡ first_of (head_faults (length layouts) (layout_of layouts (u16 file.now 3)) file.now) }
    ensures same { IfOk result (λ s. s.file ≡ file.entry) }
{
    given(1, 0, bad_mark(file))?;
    given(2, 0, bad_version(file))?;
    let counts = counts(file);
    given(3, 0, over(numbers(), counts))?;
    let layout = Layout::of(u16_at(file, 3));
    given(4, 0, file.len() != layout.file_length(counts))?;
    Ok(Stored {
        file,
        layout,
        counts,
        edges: layout.edges_at(counts),
        faces: layout.faces_at(counts),
    })
}

// What a batch changes of a count.
ghost use Rattle.std.specs.Prelude.{◌≡◌, length};

use crate::state::Progress;
use limits::{FACES, PAIR_CELLS, SOUNDING_SIZE};

// The pairs in rows of two labels, their counts, the bytes of a sounding that is not whole yet, and the numbers.
#[derive(Drop)]
pub struct Tally {
    pub labels: [u16; PAIR_CELLS],
    pub counts: [u32; FACES],
    pub bytes: [u8; SOUNDING_SIZE],
    pub progress: Progress,
    pub ghost four: { length bytes ≡ 4 },
}

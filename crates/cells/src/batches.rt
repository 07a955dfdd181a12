// The list, read batch by batch. What is read no contract can say; but whatever it is, the answer is that of the whole list.
ghost use Rattle.soundings.specs.Unique.{Read};

use limits::BATCH_BYTES;
use soundings::{Count, add};
use std::io;

// 16 batches of 4,096 are more soundings than a list may hold.
const BATCHES: usize = 16;

// One batch more.
fn count_batch(count: Count, batch: &[u8]) -> Count
    ensures { Read count result }
{
    add(count, batch)
}

// Reads one batch more, and counts it. Where nothing is left it has no bytes. A buffer and no vector: `Read` has no place for an allocation that fails.
fn read_batch<F: io::Read>(file: &mut F, count: Count) -> Count
    ensures { Read count result }
{
    let mut buf = [0u8; BATCH_BYTES];
    let n = console::read_full(file, &mut buf);
    count_batch(count, &buf[..n])
}

// The whole list, or so much of it that it is refused with 12 whatever comes.
pub fn read_batches<F: io::Read>(file: &mut F, start: Count) -> Count
    ensures { Read start result }
{
    let mut count = start;
    for _ in 0..BATCHES {
        count = read_batch(file, count);
    }
    count
}

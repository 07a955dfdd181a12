// One batch more.
ghost use Rattle.std.specs.Prelude.{◌≡◌};
ghost use Rattle.laws_soundings.specs.Run.{next};
ghost use Rattle.soundings.specs.State.{run_of};

use crate::bytes::add_bytes;
use crate::maps::{Edges, Maps};
use crate::sound::sound;
use crate::state::Count;
use crate::tally::Tally;

// One batch more, of any bytes, if the count can go on; else it stays as it is.
pub fn add(count: Count, batch: &[u8]) -> Count
    ensures { run_of result ≡ next (run_of count) batch.now }
{
    let mut t = Tally {
        labels: count.labels,
        counts: count.counts,
        bytes: count.bytes,
        progress: count.progress,
    };
    // No early `return count`: a state handed through whole is copied once more, by memmove, which an archive for C would then ask for.
    if count.progress.bad == 0 && sound(&count) {
        let maps = Maps {
            zones: Edges {
                rails: &count.rails,
                easts: &count.easts,
                count: count.edges,
            },
            blocks: Edges {
                rails: &count.rails2,
                easts: &count.easts2,
                count: count.edges2,
            },
        };
        add_bytes(maps, batch, &mut t);
    }
    Count {
        labels: t.labels,
        counts: t.counts,
        bytes: t.bytes,
        progress: t.progress,
        ..count
    }
}

// An edge record as two numbers, each 0 where it is absent: its ends, and its sources. Both begin with which maps it came from, 1 for the first, 2 for the second
// and 4 for the third, added up: one number has no room for two vertices and three edges.
ghost use Rattle.std.specs.Prelude.{◌≡◌};
ghost use Rattle.tables.specs.Found.{found_of, source_from};
ghost use Rattle.bonnetewe.specs.Told.{kind as kind_of, in_first, in_second, in_third, told_ends, told_sources};

use crate::answer::join;
use tables::{OverlayEdge, Source};

fn kind(source: Source) -> u16
    ensures { result ≡ kind_of (source_from source) }
{
    match source {
        Source::First(_) => 1,
        Source::Second(_) => 2,
        Source::Both(_, _) => 3,
        Source::Third(_) => 4,
        Source::FirstThird(_, _) => 5,
        Source::SecondThird(_, _) => 6,
        Source::All(_, _, _) => 7,
    }
}

fn in_first(source: Source) -> u16
    ensures { result ≡ in_first (source_from source) }
{
    match source {
        Source::First(j) => j,
        Source::Second(_) => 0,
        Source::Both(j, _) => j,
        Source::Third(_) => 0,
        Source::FirstThird(j, _) => j,
        Source::SecondThird(_, _) => 0,
        Source::All(j, _, _) => j,
    }
}

fn in_second(source: Source) -> u16
    ensures { result ≡ in_second (source_from source) }
{
    match source {
        Source::First(_) => 0,
        Source::Second(k) => k,
        Source::Both(_, k) => k,
        Source::Third(_) => 0,
        Source::FirstThird(_, _) => 0,
        Source::SecondThird(k, _) => k,
        Source::All(_, k, _) => k,
    }
}

fn in_third(source: Source) -> u16
    ensures { result ≡ in_third (source_from source) }
{
    match source {
        Source::First(_) => 0,
        Source::Second(_) => 0,
        Source::Both(_, _) => 0,
        Source::Third(l) => l,
        Source::FirstThird(_, l) => l,
        Source::SecondThird(_, l) => l,
        Source::All(_, _, l) => l,
    }
}

pub fn ends_of(found: Option<OverlayEdge>) -> u64
    ensures { result ≡ told_ends (found_of found) }
{
    match found {
        Some(e) => {
            let source = e.source;
            join(kind(source), e.lower, e.upper, 0)
        }
        None => 0,
    }
}

pub fn sources_of(found: Option<OverlayEdge>) -> u64
    ensures { result ≡ told_sources (found_of found) }
{
    match found {
        Some(e) => {
            let source = e.source;
            join(
                kind(source),
                in_first(source),
                in_second(source),
                in_third(source),
            )
        }
        None => 0,
    }
}

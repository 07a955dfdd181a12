// The number of runs that a word asks for.
ghost use Rattle.std.specs.Prelude.{◌≤◌};

const MOST: u32 = 1000000;

// A number with one digit more behind it; at most MOST.
fn more(n: u32, digit: u8) -> u32
    requires { n ≤ 1000000 }
    ensures { result ≤ 1000000 }
{
    let next = 10 * n + u32::from(digit % 16);
    next.min(MOST)
}

// 0 for an empty word.
pub fn count_of(word: &[u8]) -> u32
    ensures { result ≤ 1000000 }
{
    let mut n = 0;
    for digit in word {
        n = more(n, *digit);
    }
    n
}

// Words and numbers put into a lent line, one behind the other. Each function answers the place behind what it put.
ghost use Rattle.std.specs.Prelude.{◌+◌, ◌≤◌, ◌++◌, length};
ghost use Rattle.paper.specs.Listing.{decimal as text_of};
ghost use Rattle.text.specs.Line.{Put};

// The words as they stand.
pub fn words(line: &mut [u8], at: usize, text: &[u8]) -> usize
    requires { at + length text.now ≤ length line.old }
    ensures { Put text.now (length text.now) line.old at line.new result }
{
    let end = at + text.len();
    line[at..end].copy_from_slice(text);
    end
}

// A number in decimal; it has at most five digits.
pub fn decimal(line: &mut [u8], at: usize, n: u16) -> usize
    requires { at + 5 ≤ length line.old }
    ensures { Put (text_of n) 5 line.old at line.new result }
{
    let mut digits = [0u8; 20];
    let k = io::decimal(n as u64, &mut digits);
    words(line, at, &digits[..k])
}

// Words, and a number behind them.
pub fn field(line: &mut [u8], at: usize, text: &[u8], n: u16) -> usize
    requires { at + length text.now + 5 ≤ length line.old }
    ensures { Put (text.now ++ text_of n) (length text.now + 5) line.old at line.new result }
{
    let next = words(line, at, text);
    decimal(line, next, n)
}

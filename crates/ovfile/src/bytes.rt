// Numbers in bytes, "low byte first", over the width: read from a file, where a byte past the end counts as 0, and stored in a buffer.
ghost use Rattle.std.specs.Prelude.{◌≡◌, ◌+◌, ◌*◌, ◌<◌, ◌≤◌, ◌^◌, nat_abs, length};
ghost use Rattle.std.proofs.lemmas.List.Edits.{sets};
ghost use Rattle.seq.specs.Seq.{gather};
ghost use Rattle.paper.specs.Bytes.{number, signed_at, le};
ghost use Rattle.laws_file.specs.Bytes.{wrapped};

use map_file::byte_at;

// How many numbers w bytes have.
pub fn numbers(width: usize) -> u64
    requires { width < 8 }
    ensures { result ≡ 256 ^ width }
{
    1 << (8 * width)
}

// The unsigned number in W bytes at a place, where there are so many: from the high byte down.
fn number_of<const W: usize>(file: &[u8], at: usize) -> u64
    requires { (W < 8) × (at + W ≤ length file.now) }
    ensures { result ≡ number W file.now at }
{
    let mut n: u64 = 0;
    for i in (0..W).rev() {
        n = file[at + i] as u64 + 256 * n;
    }
    n
}

// The unsigned number in the bytes at a place, from the high byte down.
fn number_by(file: &[u8], at: usize, width: usize) -> u64
    requires { width < 8 }
    ensures { result ≡ number width file.now at }
{
    if file.len() <= at {
        return 0;
    }
    let mut n: u64 = 0;
    for i in (0..width).rev() {
        n = byte_at(file, at + i) as u64 + 256 * n;
    }
    n
}

// The same, and at once where there are four bytes or six, as in the newest layout.
pub fn number_at(file: &[u8], at: usize, width: usize) -> u64
    requires { width < 8 }
    ensures { result ≡ number width file.now at }
{
    if file.len() <= at {
        return 0;
    }
    if 6 <= file.len() - at {
        if width == 6 {
            return number_of::<6>(file, at);
        }
        if width == 4 {
            return number_of::<4>(file, at);
        }
    }
    number_by(file, at, width)
}

// The signed number there, two's complement.
pub fn signed_at(file: &[u8], at: usize, width: usize) -> i64
    requires { width < 8 }
    ensures { result ≡ signed_at width file.now at }
{
    let n = number_at(file, at, width);
    let all = numbers(width);
    if n < all / 2 {
        n as i64
    } else {
        n as i64 - all as i64
    }
}

// The unsigned number whose bytes a signed one has, two's complement.
pub fn twos(z: i64, width: usize) -> u64
    requires { (width < 8) × (nat_abs z ≤ 256 ^ width) }
    ensures { result ≡ wrapped width z }
{
    if z < 0 {
        numbers(width) - z.unsigned_abs()
    } else {
        z.unsigned_abs()
    }
}

// Stores the low bytes of a number at a place. Byte by byte, since the width is a version's and may be any, where `to_le_bytes` has eight.
pub fn put(buffer: &mut [u8], at: usize, width: usize, n: u64)
    requires { at + width ≤ length buffer.old }
    ensures { buffer.new ≡ sets buffer.old at (le width n) }
{
    let mut rest = n;
    for i in 0..width {
        buffer[at + i] = (rest % 256) as u8;
        rest = rest / 256;
    }
}

// Stores 16-bit numbers one after the other.
pub fn put_fields(buffer: &mut [u8], at: usize, fields: &[u32])
    requires { at + 2 * length fields.now ≤ length buffer.old }
    ensures { buffer.new ≡ sets buffer.old at (gather (le 2) fields.now) }
{
    for i in 0..fields.len() {
        put(buffer, at + 2 * i, 2, fields[i] as u64);
    }
}

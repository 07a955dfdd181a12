// The mark and numbers in a file's bytes, "low byte first". A byte past the end counts as 0, so that every place of every file has an answer.
ghost use Rattle.std.specs.Prelude.{◌≡◌};
ghost use Rattle.paper.specs.Bytes.{ascii, byte_at, marked, u16, signed_at};

pub fn byte_at(file: &[u8], at: usize) -> u8
    ensures { result ≡ byte_at file.now at }
{
    if file.len() <= at {
        return 0;
    }
    file[at]
}

// "Mark `ZMP`": whether it stands at a place.
pub fn marked_at(file: &[u8], at: usize) -> bool
    ensures { result ≡ marked (ascii "ZMP") file.now at }
{
    at < file.len()
        && byte_at(file, at) == b'Z'
        && byte_at(file, at + 1) == b'M'
        && byte_at(file, at + 2) == b'P'
}

// The unsigned number in the two bytes at a place. The place after the last possible one is never counted out.
pub fn u16_at(file: &[u8], at: usize) -> u16
    ensures { result ≡ u16 file.now at }
{
    if file.len() <= at {
        return 0;
    }
    byte_at(file, at) as u16 + 256 * byte_at(file, at + 1) as u16
}

// The signed number there, two's complement, by arithmetic.
pub fn i16_at(file: &[u8], at: usize) -> i64
    ensures { result ≡ signed_at 2 file.now at }
{
    let n = u16_at(file, at);
    if n < 32768 {
        n as i64
    } else {
        n as i64 - 65536
    }
}

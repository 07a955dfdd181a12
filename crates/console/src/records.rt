// Files of records of one length.
use crate::files::read_full;
use std::io::{Read, Result};

// Does the same with each record of a file, in order, which is read into a buffer of its length. Answers how many bytes stand behind the last: a part of one more.
pub fn each_record<R: Read, F: FnMut(&[u8]) -> Result<()>>(
    file: &mut R,
    record: &mut [u8],
    mut each: F,
) -> Result<usize>
    requires { F.IsAlwaysCallable each }
{
    for _ in 0..u64::MAX {
        let n = read_full(file, record);
        if n < record.len() {
            return Ok(n);
        }
        each(record)?;
    }
    Ok(0)
}

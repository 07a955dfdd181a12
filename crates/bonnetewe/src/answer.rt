// "The answer is either the three counts or a refusal with number, map and place": four numbers of 16 bits in one of 64, the lowest first. The first is 0
// where it is done, and the counts follow; otherwise it is the refusal's number, and map, place and other edge follow.
ghost use Rattle.std.specs.Prelude.{◌≡◌};
ghost use Rattle.tables.specs.Values.{answer_of};
ghost use Rattle.map_check.specs.Answer.{answer_of as checked_answer};
ghost use Rattle.mend.specs.Answers.{answer_of as mended_answer};
ghost use Rattle.ovfile_write.specs.Answers.{answer_of as written_answer};
ghost use Rattle.bonnetewe.specs.Told.{four, told, told_map, told_length, Short};

use map_check::Checked;
use map_file::Refusal;
use mend::Mending;
use tables::Answer;

fn wide(x: u16) -> u64
    ensures { result ≡ x }
{
    x as u64
}

pub fn join(a: u16, b: u16, c: u16, d: u16) -> u64
    ensures { result ≡ four a b c d }
{
    wide(a) + 65536 * (wide(b) + 65536 * (wide(c) + 65536 * wide(d)))
}

// A function for each answer, here and in the modules beside: over a closure for what is done it would be one, but each promise would then speak of the closure's result, which is no plainer.
pub fn of_answer(answer: Answer) -> u64
    ensures { result ≡ told (answer_of answer) }
{
    match answer {
        Ok(c) => join(0, c.vertices, c.edges, c.faces),
        Err(r) => join(r.number, r.map, r.place, r.other),
    }
}

// A length of at most 32 bits stands above the first number.
pub fn of_written(answer: Result<usize, Refusal>) -> u64
    requires { Short (written_answer answer) }
    ensures { result ≡ told_length (written_answer answer) }
{
    match answer {
        Ok(n) => 65536 * n as u64,
        Err(r) => join(r.number, r.map, r.place, r.other),
    }
}

pub fn of_checked(answer: Checked) -> u64
    ensures { result ≡ told_map (checked_answer answer) }
{
    match answer {
        Ok(c) => join(0, c.vertices, c.edges, 0),
        Err(r) => join(r.number, r.map, r.place, r.other),
    }
}

// The file's length and the number of entries both fit 16 bits.
pub fn of_mended(answer: Result<Mending, Refusal>) -> u64
    ensures { result ≡ told_map (mended_answer answer) }
{
    match answer {
        Ok(m) => join(0, m.length, m.entries, 0),
        Err(r) => join(r.number, r.map, r.place, r.other),
    }
}

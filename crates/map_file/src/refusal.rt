// A refusal, and the checks that give one: "in this order", the first that is given is passed on by `?`.
ghost use Rattle.std.specs.Prelude.{◌≡◌};
ghost use Rattle.paper.specs.Refusal.{beside, given};
ghost use Rattle.map_file.specs.Verdict.{verdict};

// "a refusal with number, map and place"; and beside it the other edge of refusal 8, otherwise 0.
#[derive(Clone, Copy, PartialEq, Eq, Debug)]
pub struct Refusal {
    pub number: u16,
    pub map: u16,
    pub place: u16,
    pub other: u16,
}

// What a check finds: nothing, or what is refused.
pub type Check = Result<(), Refusal>;

// Refusal `number` with a place and another edge beside it, given exactly when `bad`. An operation on one map answers with map 0.
pub fn beside(number: u16, place: u16, other: u16, bad: bool) -> Check
    ensures { verdict result ≡ beside number place other bad }
{
    if bad {
        return Err(Refusal {
            number,
            map: 0,
            place,
            other,
        });
    }
    Ok(())
}

// The same with no other edge.
pub fn given(number: u16, place: u16, bad: bool) -> Check
    ensures { verdict result ≡ given number place bad }
{
    beside(number, place, 0, bad)
}

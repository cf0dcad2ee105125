// Why a call is refused: every numbered refusal, in one table.
#![tactic(auto)]

ghost use Rattle.std.specs.Prelude.{◌≡◌};
ghost use Rattle.refusals.specs.Refusals.{refusal_number};

// Each with document 01's number.
#[derive(Clone, Copy, PartialEq, Eq)]
pub enum Refusal {
    WrongLine = 1,
    WrongNumber = 2,
    OutOfRange = 3,
    WrongName = 4,
    UnknownKind = 5,
    WrongSide = 6,
    WrongEnd = 7,
    TooDeep = 8,
    WrongChildren = 9,
    TooLong = 10,
    NoRoom = 21,
    WrongRecord = 22,
    WrongTable = 23,
    NoName = 24,
}

// A refusal, and the place that is told with it: a line, a row, or 0 where it has none.
#[derive(Clone, Copy, PartialEq, Eq)]
pub struct Refused {
    pub refusal: Refusal,
    pub place: usize,
}

// Document 01's number of a refusal.
pub fn number_of(refusal: Refusal) -> usize
    ensures { result ≡ refusal_number refusal }
{
    refusal as usize
}

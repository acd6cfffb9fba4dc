// What every call answers: the value of what was accepted, or a refusal of the table; and the two numbers in which C is told and the program prints.
#![tactic(auto)]

ghost use Rattle.std.specs.Prelude.{◌≡◌};
ghost use Rattle.answers.specs.Said.{said};
ghost use Rattle.answers.specs.Told.{told, answer_of};

// The refusals, in the order of the table. Each carries the value that is stated there; where none is, the value is 0.
#[derive(Clone, Copy, Debug, PartialEq, Eq)]
pub enum Refusal {
    NotFours,
    TooManyEdges,
    OutOfRange(usize),
    FromEqualsTo(usize),
    NotClosed,
    ExpressionLength,
    TooDeep,
    NotInGrammar,
    HoldsOnNothing,
    TooLittleRoom(u64),
    FileTooLong,
    EndsInside(usize),
    BadNumber(usize),
    OtherEdition,
    RingOutOfRange(usize),
    NeighboursEqual(usize),
    TooManyPairs(usize),
    RoomTooShort(u64),
}

impl Refusal {
    // Its number in the table.
    pub fn number(self) -> u64
        ensures { result ≡ (answer_of self).number }
    {
        match self {
            Refusal::NotFours => 1,
            Refusal::TooManyEdges => 2,
            Refusal::OutOfRange(_) => 3,
            Refusal::FromEqualsTo(_) => 4,
            Refusal::NotClosed => 5,
            Refusal::ExpressionLength => 6,
            Refusal::TooDeep => 7,
            Refusal::NotInGrammar => 8,
            Refusal::HoldsOnNothing => 9,
            Refusal::TooLittleRoom(_) => 10,
            Refusal::FileTooLong => 11,
            Refusal::EndsInside(_) => 12,
            Refusal::BadNumber(_) => 13,
            Refusal::OtherEdition => 14,
            Refusal::RingOutOfRange(_) => 15,
            Refusal::NeighboursEqual(_) => 16,
            Refusal::TooManyPairs(_) => 17,
            Refusal::RoomTooShort(_) => 18,
        }
    }

    // Its value.
    pub fn value(self) -> u64
        ensures { result ≡ (answer_of self).value }
    {
        match self {
            Refusal::OutOfRange(place)
            | Refusal::FromEqualsTo(place)
            | Refusal::EndsInside(place)
            | Refusal::BadNumber(place)
            | Refusal::RingOutOfRange(place)
            | Refusal::NeighboursEqual(place)
            | Refusal::TooManyPairs(place) => place as u64,
            Refusal::TooLittleRoom(needed) | Refusal::RoomTooShort(needed) => needed,
            _ => 0,
        }
    }
}

// An answer in numbers, as C is told it and as it is printed: 0 with the value of what was accepted, or the number of a refusal with its value.
#[repr(C)]
#[derive(Clone, Copy, Debug, PartialEq, Eq)]
pub struct Answer {
    pub number: u64,
    pub value: u64,
}

impl From<Result<u64, Refusal>> for Answer {
    ghost from_gives = { λ r a. said a ≡ told r };

    fn from(given: Result<u64, Refusal>) -> Answer {
        match given {
            Ok(value) => Answer { number: 0, value },
            Err(refusal) => Answer {
                number: refusal.number(),
                value: refusal.value(),
            },
        }
    }
}

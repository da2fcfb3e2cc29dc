// The refusals, and the numbers that the paper gives them: named once here.
ghost use Rattle.std.specs.Prelude.{◌≡◌};
ghost use Rattle.ground.specs.Refusals.{number, code_of};

// Why a call refuses. As a number it is the paper's.
#[derive(Clone, Copy, Debug, PartialEq, Eq)]
pub enum Refusal {
    // The territory is none, or what is lent has not the sizes that it asks for.
    WrongSizes = 1,
    // A length above 32, address bits set after the length, or a hop that is none.
    WrongNumbers = 2,
    // The address or the prefix is not in the territory.
    Outside = 3,
    // The lent words contradict themselves where the call looks.
    Damage = 4,
    NotLive = 5,
    // The prefix is not live and no rule word is free.
    NoRuleWord = 6,
    // A prefix longer than 24 needs a segment and none is free.
    NoSegment = 7,
    NoRoute = 8,
    // The bytes end in a record.
    CutRecord = 20,
    WrongLengthField = 21,
    WrongVersion = 22,
    WrongKind = 23,
    WrongSerial = 24,
    WithdrawWithHop = 25,
    // No room for a record.
    NoRecordRoom = 26,
    // A word of octets would pass 2^53, or has passed it.
    TooManyOctets = 30,
    // A word of cents has passed 2^53.
    TooManyCents = 31,
}

impl From<Refusal> for u32 {
    ghost from_gives = { λ refusal n. n ≡ number refusal };

    fn from(refusal: Refusal) -> u32 {
        refusal as u32
    }
}

// The number of a call that answers nothing else: 0, or its refusal's.
pub fn code(outcome: Result<(), Refusal>) -> u32
    ensures { result ≡ code_of outcome }
{
    match outcome {
        Ok(()) => 0,
        Err(refusal) => refusal.into(),
    }
}

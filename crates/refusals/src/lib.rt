// The refusals of the calls (01, the tables of refusals), each with its number there.
#![tactic(auto)]

ghost use Rattle.std.specs.Prelude.{◌≡◌};
ghost use Rattle.refusals.specs.Number.{number_of, number_or_0};

mod other; // a number that none of 01's refusals has

pub use other::OtherNumber;

#[derive(Clone, Copy, Debug, PartialEq, Eq)]
pub enum Refusal {
    // From the input.
    Shape,
    Length,
    NoHeader,
    HeadersDiffer,
    Address,
    Body,
    Range,
    LossList,
    Staging,
    Record,
    Pool,
    // From the state.
    Sealed,
    NoLog,
    Broken,
    NoObject,
    Damaged,
    NoRoom,
    TooMany,
    TwoLost,
    Phase,
    // From the set-ups.
    NoSetup,
    SetupNumber,
    SetupSize,
    // Any other number: no call answers it, but a caller who makes an answer of its own may hand it in.
    Other(OtherNumber),
}

impl Refusal {
    // Its number, as include/pool.h has it. No From: `number` says which of its numbers it is.
    #[inline(never)] // else its table of jumps is copied to each place
    pub fn number(self) -> u8
        ensures { result ≡ number_of self }
    {
        match self {
            Refusal::Shape => 1,
            Refusal::Length => 2,
            Refusal::NoHeader => 3,
            Refusal::HeadersDiffer => 4,
            Refusal::Address => 5,
            Refusal::Body => 6,
            Refusal::Range => 7,
            Refusal::LossList => 8,
            Refusal::Staging => 9,
            Refusal::Record => 10,
            Refusal::Pool => 11,
            Refusal::Sealed => 21,
            Refusal::NoLog => 22,
            Refusal::Broken => 23,
            Refusal::NoObject => 24,
            Refusal::Damaged => 25,
            Refusal::NoRoom => 26,
            Refusal::TooMany => 27,
            Refusal::TwoLost => 28,
            Refusal::Phase => 29,
            Refusal::NoSetup => 31,
            Refusal::SetupNumber => 32,
            Refusal::SetupSize => 33,
            Refusal::Other(other) => other.number,
        }
    }
}

// The refusal of this number: each of the numbers 0 to 255 has one.
impl From<u8> for Refusal {
    ghost from_gives = { λ n r. number_of r ≡ n };

    #[tactic(auto, unfolding(crate::specs::Listed::is_listed))]
    fn from(n: u8) -> Refusal {
        match n {
            1 => Refusal::Shape,
            2 => Refusal::Length,
            3 => Refusal::NoHeader,
            4 => Refusal::HeadersDiffer,
            5 => Refusal::Address,
            6 => Refusal::Body,
            7 => Refusal::Range,
            8 => Refusal::LossList,
            9 => Refusal::Staging,
            10 => Refusal::Record,
            11 => Refusal::Pool,
            21 => Refusal::Sealed,
            22 => Refusal::NoLog,
            23 => Refusal::Broken,
            24 => Refusal::NoObject,
            25 => Refusal::Damaged,
            26 => Refusal::NoRoom,
            27 => Refusal::TooMany,
            28 => Refusal::TwoLost,
            29 => Refusal::Phase,
            31 => Refusal::NoSetup,
            32 => Refusal::SetupNumber,
            33 => Refusal::SetupSize,
            number => Refusal::Other(OtherNumber { number }),
        }
    }
}

// Why a call was refused: the refusal's number, or 0 where it is carried out.
pub fn number_or_0<T: Drop>(outcome: Result<T, Refusal>) -> u8
    ensures { result ≡ number_or_0 outcome }
{
    match outcome {
        Ok(_) => 0,
        Err(refusal) => refusal.number(),
    }
}

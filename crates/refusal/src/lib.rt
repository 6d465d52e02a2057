// The refusals of the calls, each with the number that a caller is told.
#![tactic(auto)]

ghost use Rattle.std.specs.Prelude.{◌≡◌};
ghost use Rattle.refusal.specs.Numbers as Numbers;

use std::error::Error;
use std::fmt;

// Why a call is refused.
#[derive(Clone, Copy, Debug, PartialEq, Eq)]
pub enum Refusal {
    BadCode = 1,
    KeyLength = 2,
    IvLength = 3,
    AreaLength = 4,
    BadPosition = 5,
    PastLimit = 6,
    BeforeStart = 7,
    LittleRoom = 8,
    EndsEarly = 9,
    BadNumber = 10,
    StringLength = 11,
    NoKey = 12,
    FalseWord = 13,
    VolumeNumber = 14,
    VolumeRange = 15,
    VolumeEnds = 16,
    SeedZero = 17,
    ManyCalls = 18,
    NoLine = 19,
    PastShares = 20,
    WrongSharing = 21,
    TwoCiphers = 23,
    BadRates = 24,
    RatesOrder = 25,
}

impl From<Refusal> for u64 {
    ghost from_gives = { λ refusal n. n ≡ Numbers.number_of refusal };

    fn from(refusal: Refusal) -> u64 {
        refusal as u64
    }
}

impl fmt::Display for Refusal {
    fn fmt<W: fmt::Write>(&self, f: &mut fmt::Formatter<W>) -> fmt::Result {
        f.write_str(match self {
            Refusal::BadCode => "the cipher code is neither 1 nor 2",
            Refusal::KeyLength => "the key has not the cipher's length",
            Refusal::IvLength => "the IV has not the cipher's length",
            Refusal::AreaLength => "the area has not the cipher's number of words",
            Refusal::BadPosition => "the position is over the limit of 67108864 bytes",
            Refusal::PastLimit => "the end would pass the limit of 67108864 bytes",
            Refusal::BeforeStart => "the end would be below 0",
            Refusal::LittleRoom => "fewer bytes are lent than the checkpoint has",
            Refusal::EndsEarly => "the checkpoint is empty or ends inside its position",
            Refusal::BadNumber => {
                "the position is longer than four bytes or not in its shortest form"
            }
            Refusal::StringLength => "the bytes after the position are not as many as the tables",
            Refusal::NoKey => "no key and IV have these tables at this position",
            Refusal::FalseWord => {
                "the word of the head is not the one that the tables have at this position"
            }
            Refusal::VolumeNumber => "a number of the volume is not in its shortest form",
            Refusal::VolumeRange => "a number of the volume is out of its range",
            Refusal::VolumeEnds => "the volume ends early or has bytes after its last entry",
            Refusal::SeedZero => "the seed of the test load is 0",
            Refusal::ManyCalls => "the test load is to run more than 1000 calls",
            Refusal::NoLine => "there is no such line",
            Refusal::PastShares => "the bytes are beyond the share and the common part",
            Refusal::WrongSharing => "sharing is open, or is not open",
            Refusal::TwoCiphers => "the two checkpoints are of different ciphers",
            Refusal::BadRates => "the table of rates has a number that is no rate or product",
            Refusal::RatesOrder => "a product of the table of rates is not above the one before it",
        })
    }
}

impl Error for Refusal {}

// The number that a caller is told: 0 where the call is accepted.
pub fn number_of<T: Copy>(answer: Result<T, Refusal>) -> u64
    ensures { result ≡ Numbers.number_in answer }
{
    match answer {
        Ok(_) => 0,
        Err(refusal) => refusal.into(),
    }
}

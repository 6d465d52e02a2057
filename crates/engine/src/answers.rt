// What the calls hand back: the next head beside the answer. For C the answers are structs without padding: the refusal number first, 0 where the call
// is accepted, then values, which are 0 where it is refused.
ghost use Rattle.std.specs.Prelude.{◌≡◌};
ghost use Rattle.engine.specs.Answers as Answers;

use crate::Head;
use refusal::Refusal;

// What a call hands back: the head that holds afterwards, and what the call answers.
#[derive(Clone, Copy, Debug, PartialEq, Eq)]
pub struct Next<T> {
    pub head: Head,
    pub answer: Result<T, Refusal>,
}

// What load gives: the key and the IV as eight words each, unused words 0.
#[derive(Clone, Copy, Debug, PartialEq, Eq)]
pub struct Keys {
    pub key: [u32; 8],
    pub iv: [u32; 8],
}

// For C the answer of write and of checkpoint length: the checkpoint's length.
#[repr(C)]
#[derive(Clone, Copy, Debug, PartialEq, Eq)]
pub struct LengthAnswer {
    pub refusal: u64,
    pub length: usize,
}

impl From<Result<usize, Refusal>> for LengthAnswer {
    ghost from_gives = { λ answer given. given ≡ Answers.length_answer answer };

    fn from(answer: Result<usize, Refusal>) -> LengthAnswer {
        LengthAnswer {
            refusal: refusal::number_of(answer),
            length: answer.unwrap_or(0),
        }
    }
}

// For C the answer of load.
#[repr(C)]
#[derive(Clone, Copy, Debug, PartialEq, Eq)]
pub struct LoadAnswer {
    pub refusal: u64,
    pub key: [u32; 8],
    pub iv: [u32; 8],
}

impl From<Result<Keys, Refusal>> for LoadAnswer {
    ghost from_gives = { λ answer given. given ≡ Answers.load_answer answer };

    fn from(answer: Result<Keys, Refusal>) -> LoadAnswer {
        let none = Keys {
            key: [0; 8],
            iv: [0; 8],
        };
        let Keys { key, iv } = answer.unwrap_or(none);
        LoadAnswer {
            refusal: refusal::number_of(answer),
            key,
            iv,
        }
    }
}

// For C the answer of spent: the count.
#[repr(C)]
#[derive(Clone, Copy, Debug, PartialEq, Eq)]
pub struct SpentAnswer {
    pub refusal: u64,
    pub count: u64,
}

impl From<Result<u64, Refusal>> for SpentAnswer {
    ghost from_gives = { λ answer given. given ≡ Answers.spent_answer answer };

    fn from(answer: Result<u64, Refusal>) -> SpentAnswer {
        SpentAnswer {
            refusal: refusal::number_of(answer),
            count: answer.unwrap_or(0),
        }
    }
}

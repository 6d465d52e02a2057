// Same run or not: whether two checkpoints have the same key and IV. Each is led back to the sixteen words of its key and IV, the first string first,
// and then the words are compared.
#![tactic(auto)]

ghost use Rattle.std.specs.Prelude.{◌≡◌, false};
ghost use Rattle.laws.specs.Result.{outcome};
ghost use Rattle.refusal.specs.Told.{told};
ghost use Rattle.same_run.specs.SameRun as SameRun;
ghost use Rattle.same_run.specs.Found as Found;

use cipher::Cipher;
use refusal::Refusal;

// The answer for C: the refusal number, 0 where the pair is accepted, and then 1 for yes and 0 for no; beside a refusal 0. The order needs no padding.
#[repr(C)]
#[derive(Clone, Copy, Debug, PartialEq, Eq)]
pub struct YesOrNoAnswer {
    pub refusal: u64,
    pub yes: u64,
}

impl From<Result<bool, Refusal>> for YesOrNoAnswer {
    ghost from_gives = { λ answer given. given ≡ SameRun.for_c (outcome false (told answer)) };

    fn from(answer: Result<bool, Refusal>) -> YesOrNoAnswer {
        YesOrNoAnswer {
            refusal: refusal::number_of(answer),
            yes: answer.unwrap_or(false).into(),
        }
    }
}

// What a checkpoint leads back to: its cipher and the sixteen words of its key and IV.
#[derive(Clone, Copy)]
struct Origin {
    cipher: Cipher,
    words: [u32; 16],
}

// What a checkpoint leads back to, or load's refusal of it.
#[tactic(auto, using(crate::proofs::Origins::origin_none, crate::proofs::Origins::origin_found))]
fn origin_of(string: &[u8]) -> Result<Origin, Refusal>
    ensures { Found.OriginIs string.now result }
{
    let beginning = conditions::string_check(string)?;
    let cipher = beginning.cipher;
    let position = beginning.position as usize;
    let found = recovery::of_string(cipher, position, string, beginning.next);
    match found {
        Ok(words) => Ok(Origin { cipher, words }),
        Err(_) => Err(Refusal::NoKey),
    }
}

// Whether two checkpoints are of one run.
#[tactic(auto, unfolding(crate::specs::SameRun::same_run))]
pub fn same_run(first: &[u8], second: &[u8]) -> Result<bool, Refusal>
    ensures { told result ≡ SameRun.same_run first.now second.now }
{
    let a = origin_of(first)?;
    let b = origin_of(second)?;
    if a.cipher != b.cipher {
        return Err(Refusal::TwoCiphers);
    }
    Ok(a.words == b.words)
}

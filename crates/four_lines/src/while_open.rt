// The six calls that are refused while sharing is open: each is to get its number. Where it is accepted, head, area and bytes are to be those after
// the engine's own call; where it is refused, everything is to stay.
use crate::lines::line;
use crate::state::{State, first};
use engine::Head;
use engine::answers::{Keys, Next};
use refusal::Refusal;
use sharing::ShareAccount;
use std::fmt::Display;
use std::{fmt, io};

static KEY: [u8; 32] = [8; 32];

// A key of a code, and an IV: as many bytes as its cipher has, or 32 where it has no cipher.
fn key_of(code: u32) -> &'static [u8] {
    match code {
        1 => &KEY[..16],
        _ => &KEY,
    }
}

// The outcome of a load, which is to give the key and the IV of the set up, bytes 5 and 6.
fn loaded(next: Next<Keys>) -> Next<()> {
    let answer = next.answer.and_then(|keys| {
        if keys.key[0] == 0x05050505 && keys.iv[0] == 0x06060606 {
            Ok(())
        } else {
            Err(Refusal::NoKey)
        }
    });
    Next {
        head: next.head,
        answer,
    }
}

// What a call is to get, and the position and the mark that it is to leave.
#[derive(Clone, Copy)]
pub struct Outcome {
    pub answer: Result<(), Refusal>,
    pub position: u64,
    pub mark: u64,
}

impl Outcome {
    pub fn accepted(position: u64, mark: u64) -> Outcome {
        Outcome {
            answer: Ok(()),
            position,
            mark,
        }
    }

    pub fn refused(refusal: Refusal, position: u64, mark: u64) -> Outcome {
        Outcome {
            answer: Err(refusal),
            position,
            mark,
        }
    }
}

impl Display for Outcome {
    fn fmt<W: fmt::Write>(&self, f: &mut fmt::Formatter<W>) -> fmt::Result {
        let Outcome {
            answer,
            position,
            mark,
        } = *self;
        write!(
            f,
            "{}, at {position} mark {mark}",
            refusal::number_of(answer)
        )
    }
}

// A call that is lent n bytes, by sharing and by the engine itself.
fn calls<S, E>(
    rt: &impl Print,
    from: &State,
    call: impl Display + Drop,
    n: usize,
    by_sharing: S,
    by_engine: E,
    expected: Outcome,
) -> io::Result<()>
where
    S: Fn(Head, ShareAccount, &mut [u32], &mut [u8]) -> Next<()>,
    E: Fn(Head, ShareAccount, &mut [u32], &mut [u8]) -> Next<()>,
    requires { S.IsAlwaysCallable by_sharing × E.IsAlwaysCallable by_engine }
{
    let got = from.after(n, by_sharing)?;
    let to = match expected.answer {
        Ok(()) => from.after(n, by_engine)?,
        Err(refusal) => from.kept(refusal),
    };
    let Head { position, mark, .. } = got.state.head;
    let is_right = got == to
        && got.answer == expected.answer
        && position == expected.position
        && mark == expected.mark;
    line(rt, from, call, expected, is_right)
}

// Set up with a code.
pub fn set_up(rt: &impl Print, from: &State, code: u32, expected: Outcome) -> io::Result<()> {
    let key = key_of(code);
    calls(
        rt,
        from,
        format_args!("set up with code {code}"),
        0,
        |head, account, area, _| sharing::set_up(head, account, code, key, key, area),
        |head, _, area, _| head.set_up(code, key, key, area),
        expected,
    )
}

// Load of so many bytes of the checkpoint that the head writes.
pub fn load(rt: &impl Print, from: &State, n: usize, expected: Outcome) -> io::Result<()> {
    let mut string = [0; 8194];
    from.head.write(from.area()?, &mut string);
    let string = first(&string, n)?;
    calls(
        rt,
        from,
        format_args!("load of bytes {n}"),
        0,
        |head, account, area, _| loaded(sharing::load(head, account, area, string)),
        |head, _, area, _| loaded(head.load(area, string)),
        expected,
    )
}

// Move by so many bytes.
pub fn move_by(rt: &impl Print, from: &State, n: i64, expected: Outcome) -> io::Result<()> {
    calls(
        rt,
        from,
        format_args!("move by bytes {n}"),
        0,
        |head, account, area, _| sharing::move_by(head, account, area, n),
        |head, _, area, _| head.move_by(area, n),
        expected,
    )
}

// Test load of three calls from a seed, with the code of the head.
pub fn run_test_load(
    rt: &impl Print,
    from: &State,
    seed: u32,
    expected: Outcome,
) -> io::Result<()> {
    let code = from.head.code;
    let key = key_of(code);
    calls(
        rt,
        from,
        format_args!("test load from seed {seed}"),
        0,
        |head, account, area, _| sharing::run_test_load(
            head, account, seed, 3, code, key, key, area,
        ),
        |head, _, area, _| test_load::test_load(head, seed, 3, code, key, key, area),
        expected,
    )
}

// Encipher volume of so many bytes.
pub fn encipher_volume(
    rt: &impl Print,
    from: &State,
    n: usize,
    expected: Outcome,
) -> io::Result<()> {
    let call = format_args!("encipher volume of bytes {n}");
    calls(
        rt,
        from,
        call,
        n,
        sharing::encipher_volume,
        |head, _, area, bytes| head.encipher_volume(area, bytes),
        expected,
    )
}

// Cipher of so many bytes.
pub fn cipher(rt: &impl Print, from: &State, n: usize, expected: Outcome) -> io::Result<()> {
    let call = format_args!("cipher of bytes {n}");
    calls(
        rt,
        from,
        call,
        n,
        sharing::cipher,
        |head, _, area, bytes| head.cipher(area, bytes),
        expected,
    )
}

// The line of a case: what was called, and `ok` or `wrong`.
use cipher::Cipher;
use refusal::Refusal;
use std::{fmt, io};

// Bytes in hexadecimal, a space before each.
#[derive(Clone, Copy)]
pub struct Hex<'a>(pub &'a [u8]);

impl fmt::Display for Hex<'_> {
    fn fmt<W: fmt::Write>(&self, f: &mut fmt::Formatter<W>) -> fmt::Result {
        for byte in self.0 {
            write!(f, " {byte:02x}")?;
        }
        Ok(())
    }
}

// The word with which a line ends.
fn verdict(ok: bool) -> &'static str {
    if ok { "ok" } else { "wrong" }
}

// The line of a call that leaves everything as it is, with its refusal number.
pub fn gets(
    rt: &impl Print,
    call: impl fmt::Display + Drop,
    answer: Result<(), Refusal>,
    ok: bool,
) -> io::Result<()> {
    println!(rt;
        "{call} gets {} {}",
        refusal::number_of(answer),
        verdict(ok)
    )
}

// The cipher that a line names by a head's code.
fn cipher_of(code: u32) -> Cipher {
    match code {
        1 => Cipher::Hc128,
        _ => Cipher::Hc256,
    }
}

// The line of a step of a cipher's story, with its position.
pub fn report(rt: &impl Print, code: u32, position: u64, case: &str, ok: bool) -> io::Result<()> {
    println!(rt; "{} at {position} {case} {}", cipher_of(code), verdict(ok))
}

// The line of a step of a cipher's story, with its position and the scene that the step belongs to.
pub fn report_in(
    rt: &impl Print,
    code: u32,
    position: u64,
    scene: &str,
    case: &str,
    ok: bool,
) -> io::Result<()> {
    println!(rt;
        "{} at {position} {scene}, {case} {}",
        cipher_of(code),
        verdict(ok)
    )
}

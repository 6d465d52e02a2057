// The cases of document 02 (m), same run or not, for both ciphers: a line each, `ok` or `wrong`.
#![tactic(auto)]

use cipher::Cipher;
use refusal::Refusal;
use std::fmt::Display;
use std::io;
use strings::Run;

mod pairs;
mod refusals;
mod strings;

// The key and the IV of the box; the second halves are HC-256's alone.
const KEY: [u8; 32] = [
    1, 2, 3, 4, 5, 6, 7, 8, 9, 10, 11, 12, 13, 14, 15, 16, 17, 18, 19, 20, 21, 22, 23, 24, 25, 26,
    27, 28, 29, 30, 31, 32,
];

const IV: [u8; 32] = [
    201, 202, 203, 204, 205, 206, 207, 208, 209, 210, 211, 212, 213, 214, 215, 216, 217, 218, 219,
    220, 221, 222, 223, 224, 225, 226, 227, 228, 229, 230, 231, 232,
];

// Prints the line of a pair: what the two strings are, the answer that they are to get, and whether they get it.
pub fn check(
    rt: &impl Print,
    case: impl Display + Drop,
    first: &[u8],
    second: &[u8],
    expected: Result<bool, Refusal>,
) -> io::Result<()> {
    let is_right = same_run::same_run(first, second) == expected;
    let word = if is_right { "ok" } else { "wrong" };
    match expected {
        Ok(true) => println!(rt; "{case}: yes {word}"),
        Ok(false) => println!(rt; "{case}: no {word}"),
        Err(refusal) => println!(rt; "{case}: refused {} {word}", u64::from(refusal)),
    }
}

fn main(rt: HostRuntime) -> io::Result<()> {
    for cipher in [Cipher::Hc128, Cipher::Hc256] {
        let run = Run {
            cipher,
            key: KEY,
            iv: IV,
        };
        pairs::one_run(&rt, run)?;
        pairs::other_runs(&rt, run)?;
        refusals::two_ciphers(&rt, run)?;
        refusals::one_refused(&rt, run)?;
        refusals::two_refused(&rt, run)?;
    }
    Ok(())
}

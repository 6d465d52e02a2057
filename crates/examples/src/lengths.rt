// The length of a checkpoint, on both sides of each position where its groups grow in number.
use crate::sizes::Sizes;
use refusal::Refusal;
use std::io;

// The length that is given for a code at a position, 0 where it is refused.
fn case(
    rt: &impl Print,
    code: u32,
    position: u64,
    answer: Result<usize, Refusal>,
) -> io::Result<()> {
    let length = answer.unwrap_or(0);
    let number = refusal::number_of(answer);
    let ok = engine::checkpoint_length(code, position) == answer;
    let word = if ok { "ok" } else { "wrong" };
    println!(rt; "checkpoint length code {code} at {position} is {length} gets {number} {word}")
}

// A code that is neither cipher's is refused, also where the position is over the limit: the smallest code and the one after HC-256's; codes whose low
// bits are a cipher's; the largest byte and the largest code.
pub fn unknown_codes(rt: &impl Print) -> io::Result<()> {
    for code in [0, 3, 255, 257, 65_537, 16_777_218, u32::MAX] {
        for position in [0, 67_108_865] {
            case(rt, code, position, Err(Refusal::BadCode))?;
        }
    }
    Ok(())
}

// The lengths of a cipher's checkpoints.
pub fn of_cipher(rt: &impl Print, sizes: Sizes) -> io::Result<()> {
    let Sizes { code, tables, .. } = sizes;
    for (position, answer) in [
        (0, Ok(tables + 2)),
        (127, Ok(tables + 2)),
        (128, Ok(tables + 3)),
        (16_383, Ok(tables + 3)),
        (16_384, Ok(tables + 4)),
        (2_097_151, Ok(tables + 4)),
        (2_097_152, Ok(tables + 5)),
        (67_108_864, Ok(tables + 5)),
        (67_108_865, Err(Refusal::BadPosition)),
        (u64::MAX, Err(Refusal::BadPosition)),
    ] {
        case(rt, code, position, answer)?;
    }
    Ok(())
}

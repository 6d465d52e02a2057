// The cases of document 02 (b), spent after a move back, for both ciphers: a line each, `ok` or `wrong`.
#![tactic(auto)]

use calls::{Bench, Call, Checkpoint, Place, SIZES, Sizes, line};
use engine::Head;
use engine::answers::Next;
use refusal::Refusal;
use std::io;

mod calls;

// The request's own case, an operator who moves back to look at an old entry; then bytes before the mark, up to it, past it and across it; and a move
// beyond it, where no bytes leave it and one byte raises it. Gives the bench at 20, with the mark 32.
fn looked_back(rt: &impl Print, sizes: Sizes) -> io::Result<Bench> {
    let mut bench = Bench::fresh(sizes);
    for (call, position, mark) in [
        (Call::SetUp(sizes.key), 0, 0),
        (Call::Cipher(10), 10, 10),
        (Call::Move(-7), 3, 10),
        (Call::Cipher(2), 5, 10),
        (Call::Cipher(5), 10, 10),
        (Call::Cipher(1), 11, 11),
        (Call::Move(-4), 7, 11),
        (Call::Cipher(10), 17, 17),
        (Call::Move(14), 31, 17),
        (Call::Cipher(0), 31, 17),
        (Call::Cipher(1), 32, 32),
        (Call::Move(-12), 20, 32),
    ] {
        bench.makes(rt, call, Ok(()), position, mark)?;
    }
    Ok(bench)
}

// Write and recover leave the mark, and so do refused calls: a move before the start and one past the limit, a key that is too short, a string that
// is empty and one that is cut. Load makes the mark the loaded position. Gives the checkpoint.
fn kept(rt: &impl Print, bench: &Bench) -> io::Result<Checkpoint> {
    let string = bench.writes(rt, 20, 32)?;
    let short = bench.sizes.key.saturating_sub(1);
    let cut = match string.split_last() {
        Some((_, rest)) => rest,
        None => &[],
    };
    for (call, answer) in [
        (Call::Recover, Ok(())),
        (Call::Move(-21), Err(Refusal::BeforeStart)),
        (Call::Move(67_108_845), Err(Refusal::PastLimit)),
        (Call::SetUp(short), Err(Refusal::KeyLength)),
        (Call::Load(&[]), Err(Refusal::EndsEarly)),
        (Call::Load(cut), Err(Refusal::StringLength)),
    ] {
        let mut copy = *bench;
        copy.makes(rt, call, answer, 20, 32)?;
    }
    let load = Call::Load(&string);
    for mut bench in [*bench, Bench::fresh(bench.sizes)] {
        bench.makes(rt, load, Ok(()), 20, 20)?;
    }
    Ok(string)
}

// A mark that is made up for the head at 20 is taken as given: spent gives it, also over the limit, and refuses by code and position alone, the code
// first; a call of no bytes and a move keep it; one byte gives the larger of it and 21; and load makes it the loaded position.
fn made_up(
    rt: &impl Print,
    bench: &Bench,
    string: &[u8],
    mark: u64,
    larger: u64,
) -> io::Result<()> {
    let Sizes { cipher, code, .. } = bench.sizes;
    let over = 67_108_865;
    for (code, position, call, answer) in [
        (code, 20, "spent", Ok(mark)),
        (code, over, "spent", Err(Refusal::BadPosition)),
        (0, over, "code 0 spent", Err(Refusal::BadCode)),
    ] {
        let head = Head::at(code, position, bench.head.word, mark);
        let ok = head.spent() == Next { head, answer };
        let place = Place { position, mark };
        line(rt, head, call, answer.and(Ok(())), cipher, place, ok)?;
    }
    for (call, position, mark_then) in [
        (Call::Cipher(0), 20, mark),
        (Call::Move(-20), 0, mark),
        (Call::Cipher(1), 21, larger),
        (Call::Load(string), 20, 20),
    ] {
        let mut made = *bench;
        made.head.mark = mark;
        made.makes(rt, call, Ok(()), position, mark_then)?;
    }
    Ok(())
}

// At the limit: bytes past it leave the mark, the last byte takes it there, and it stays there after a move back to 0.
fn at_limit(rt: &impl Print, bench: &mut Bench) -> io::Result<()> {
    for (call, answer, position, mark) in [
        (Call::Move(67_108_842), Ok(()), 67_108_862, 32),
        (Call::Cipher(3), Err(Refusal::PastLimit), 67_108_862, 32),
        (Call::Cipher(1), Ok(()), 67_108_863, 67_108_863),
        (Call::Cipher(1), Ok(()), 67_108_864, 67_108_864),
        (Call::Move(-67_108_864), Ok(()), 0, 67_108_864),
        (Call::Cipher(1), Ok(()), 1, 67_108_864),
    ] {
        bench.makes(rt, call, answer, position, mark)?;
    }
    Ok(())
}

// Set up by a used head starts the mark at 0. From there two lists of calls come to one position with different marks, and write the same checkpoint.
fn two_lists(rt: &impl Print, mut bench: Bench) -> io::Result<()> {
    let Sizes { cipher, key, .. } = bench.sizes;
    bench.makes(rt, Call::SetUp(key), Ok(()), 0, 0)?;
    let mut other = bench;
    bench.makes(rt, Call::Move(3), Ok(()), 3, 0)?;
    other.makes(rt, Call::Cipher(10), Ok(()), 10, 10)?;
    other.makes(rt, Call::Move(-7), Ok(()), 3, 10)?;
    let first = bench.writes(rt, 3, 0)?;
    let second = other.writes(rt, 3, 10)?;
    let there = Place::of(other.head);
    let call = "same checkpoint as by a list that";
    line(rt, bench.head, call, Ok(()), cipher, there, first == second)
}

// The cases of a cipher. The marks made up are the smallest and the largest, those around the position, and those on both sides of the limit.
fn of_cipher(rt: &impl Print, sizes: Sizes) -> io::Result<()> {
    let mut bench = looked_back(rt, sizes)?;
    let string = kept(rt, &bench)?;
    for (mark, larger) in [
        (0, 21),
        (1, 21),
        (19, 21),
        (20, 21),
        (21, 21),
        (67_108_864, 67_108_864),
        (67_108_865, 67_108_865),
        (u64::MAX, u64::MAX),
    ] {
        made_up(rt, &bench, &string, mark, larger)?;
    }
    at_limit(rt, &mut bench)?;
    two_lists(rt, bench)
}

fn main(rt: HostRuntime) -> io::Result<()> {
    for sizes in SIZES {
        of_cipher(&rt, sizes)?;
    }
    Ok(())
}

// Pairs of checkpoints of one cipher: of one run at two positions, and of runs whose key or IV is another.
use crate::check;
use crate::strings::{Run, change, key_bytes};
use std::io;

// One run: the same position; positions inside one word, which have the same tables; positions on both sides of a word's end, of the places where the
// position gets a group more, and of the ends of a table's turn; the start and the end of the stream. Each pair in both orders.
pub fn one_run(rt: &impl Print, run: Run) -> io::Result<()> {
    let cipher = run.cipher;
    for (p, q) in [
        (0, 0),
        (0, 1),
        (1, 4),
        (4, 5),
        (127, 128),
        (2_048, 2_049),
        (4_096, 4_097),
        (8_192, 8_193),
        (777, 16_383),
        (16_383, 16_384),
        (2_097_151, 2_097_152),
        (0, 67_108_864),
        (67_108_863, 67_108_864),
    ] {
        let a = run.checkpoint(p);
        let b = run.checkpoint(q);
        check(
            rt,
            format_args!("{cipher} at {p} and {q}"),
            &a,
            &b,
            Ok(true),
        )?;
        check(
            rt,
            format_args!("{cipher} at {q} and {p}"),
            &b,
            &a,
            Ok(true),
        )?;
    }
    Ok(())
}

// A key or an IV with one bit of a byte changed.
fn changed(bytes: [u8; 32], at: usize) -> [u8; 32] {
    let mut other = bytes;
    change(&mut other, at);
    other
}

// Runs whose key and IV differ in one bit of their first or last byte, or are exchanged, at one position and at two. Each pair in both orders.
pub fn other_runs(rt: &impl Print, run: Run) -> io::Result<()> {
    let Run { cipher, key, iv } = run;
    let last = key_bytes(cipher) - 1;
    for (p, q) in [(0, 0), (5, 5), (777, 20)] {
        for (case, key, iv) in [
            ("first byte of the key", changed(key, 0), iv),
            ("last byte of the key", changed(key, last), iv),
            ("first byte of the IV", key, changed(iv, 0)),
            ("last byte of the IV", key, changed(iv, last)),
            ("key and IV exchanged", iv, key),
        ] {
            let other = Run { cipher, key, iv };
            let a = run.checkpoint(p);
            let b = other.checkpoint(q);
            check(
                rt,
                format_args!("{cipher} at {p} and {q}, {case}"),
                &a,
                &b,
                Ok(false),
            )?;
            check(
                rt,
                format_args!("{cipher} at {q} and {p}, {case}"),
                &b,
                &a,
                Ok(false),
            )?;
        }
    }
    Ok(())
}

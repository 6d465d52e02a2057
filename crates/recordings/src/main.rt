// The cases of document 02 (k), the blender's log against the tank gauge's: a line each, `ok` or `wrong`. An entry is minutes, litres, ratio and
// product.
#![tactic(auto)]

use arrayvec::ArrayVec;
use comparison::Part;
use pairs::{Pair, blenders, gauges};
use refusal::Refusal;
use refusal::Refusal::{VolumeEnds, VolumeNumber, VolumeRange};
use std::io;

mod many;
mod pairs;

// The volume of a list of entries; no bytes where there is none or it has more than N.
pub fn volume_of<const N: usize>(list: &[u32]) -> ArrayVec<u8, N> {
    let mut bytes = ArrayVec::from([0; N]);
    let length = volume::write_volume(list, &mut bytes).unwrap_or(0);
    bytes.truncate(length);
    bytes
}

// Both have ended, or one of them, which is then a beginning of the other.
fn ended(rt: &impl Print) -> io::Result<()> {
    for pair in [
        Pair::new("no entries, no entries", b"\x00", b"\x00", blenders(1, 0)),
        Pair::new(
            "an entry, the same",
            b"\x01\x00\x64\x05\x01",
            b"\x01\x00\x64\x05\x01",
            blenders(5, 0),
        ),
        Pair::new(
            "an entry, none",
            b"\x01\x00\x64\x05\x01",
            b"\x00",
            blenders(1, 4),
        ),
        Pair::new(
            "none, an entry",
            b"\x00",
            b"\x01\x00\x64\x05\x01",
            gauges(1, 4),
        ),
        Pair::new(
            "two entries, the first of them",
            b"\x02\x00\x64\x05\x01\x0f\x64\x05\x01",
            b"\x01\x00\x64\x05\x01",
            blenders(5, 4),
        ),
        Pair::new(
            "the first of two entries, both",
            b"\x01\x00\x64\x05\x01",
            b"\x02\x00\x64\x05\x01\x0f\x64\x05\x01",
            gauges(5, 4),
        ),
    ] {
        pair.run(rt)?;
    }
    Ok(())
}

// Pairs of recordings of one entry each.
fn of_one_entry(
    rt: &impl Print,
    cases: &[(&str, [u32; 4], [u32; 4], Result<Part, Refusal>)],
) -> io::Result<()> {
    for (name, b, g, expected) in cases {
        let blender = volume_of::<9>(b);
        let gauge = volume_of::<9>(g);
        Pair::new(name, &blender, &gauge, *expected).run(rt)?;
    }
    Ok(())
}

// Recordings of one entry each. The ratios are equal and another number differs: the blender's, whichever number is the smaller.
fn equal_ratios(rt: &impl Print) -> io::Result<()> {
    of_one_entry(
        rt,
        &[
            (
                "minutes 0, 1",
                [0, 100, 5, 2],
                [1, 100, 5, 2],
                blenders(1, 4),
            ),
            (
                "minutes 1, 0",
                [1, 100, 5, 2],
                [0, 100, 5, 2],
                blenders(1, 4),
            ),
            (
                "litres 99, 100",
                [0, 99, 5, 2],
                [0, 100, 5, 2],
                blenders(1, 4),
            ),
            (
                "litres 100, 99",
                [0, 100, 5, 2],
                [0, 99, 5, 2],
                blenders(1, 4),
            ),
            (
                "litres 128, 127",
                [0, 128, 5, 2],
                [0, 127, 5, 2],
                blenders(1, 5),
            ),
            (
                "product 1, 2",
                [0, 100, 5, 1],
                [0, 100, 5, 2],
                blenders(1, 4),
            ),
            (
                "product 2, 1",
                [0, 100, 5, 2],
                [0, 100, 5, 1],
                blenders(1, 4),
            ),
            (
                "all but the ratio",
                [1, 100, 5, 2],
                [0, 99, 5, 1],
                blenders(1, 4),
            ),
        ],
    )
}

// The ratios differ: the one with the smaller ratio, whatever the other numbers are, and whatever the bytes of the ratio, which are two from 128 on.
fn smaller_ratio(rt: &impl Print) -> io::Result<()> {
    of_one_entry(
        rt,
        &[
            ("ratio 5, 6", [0, 100, 5, 1], [0, 100, 6, 1], blenders(1, 4)),
            ("ratio 6, 5", [0, 100, 6, 1], [0, 100, 5, 1], gauges(1, 4)),
            (
                "ratio 0, 10000",
                [0, 100, 0, 1],
                [0, 100, 10000, 1],
                blenders(1, 4),
            ),
            (
                "ratio 10000, 0",
                [0, 100, 10000, 1],
                [0, 100, 0, 1],
                gauges(1, 4),
            ),
            (
                "ratio 127, 128",
                [0, 100, 127, 1],
                [0, 100, 128, 1],
                blenders(1, 4),
            ),
            (
                "ratio 128, 127",
                [0, 100, 128, 1],
                [0, 100, 127, 1],
                gauges(1, 4),
            ),
            (
                "ratio 129, 256",
                [0, 100, 129, 1],
                [0, 100, 256, 1],
                blenders(1, 5),
            ),
            (
                "ratio 256, 129",
                [0, 100, 256, 1],
                [0, 100, 129, 1],
                gauges(1, 5),
            ),
            (
                "ratio 6, 5, others less",
                [0, 99, 6, 1],
                [1, 100, 5, 2],
                gauges(1, 4),
            ),
            (
                "ratio 5, 6, others more",
                [1, 100, 5, 2],
                [0, 99, 6, 1],
                blenders(1, 4),
            ),
        ],
    )
}

// Several entries: the first place counts, and what follows it does not, also where an entry is missing in one of them or where one of them ends.
fn several_entries(rt: &impl Print) -> io::Result<()> {
    for pair in [
        Pair::new(
            "second entry, ratio 6, 5",
            b"\x02\x00\x64\x05\x01\x00\x64\x06\x01",
            b"\x02\x00\x64\x05\x01\x00\x64\x05\x01",
            gauges(5, 4),
        ),
        Pair::new(
            "third entry, ratio 5, 6",
            b"\x03\x00\x64\x05\x01\x00\x64\x06\x01\x00\x64\x05\x01",
            b"\x03\x00\x64\x05\x01\x00\x64\x06\x01\x00\x64\x06\x01",
            blenders(9, 4),
        ),
        Pair::new(
            "first entry, ratio 6, 5, second, 5, 6",
            b"\x02\x00\x64\x06\x01\x00\x64\x05\x01",
            b"\x02\x00\x64\x05\x01\x00\x64\x06\x01",
            gauges(1, 8),
        ),
        Pair::new(
            "the gauge's without the second entry",
            b"\x03\x00\x64\x05\x01\x01\x64\x06\x01\x02\x64\x07\x01",
            b"\x02\x00\x64\x05\x01\x02\x64\x07\x01",
            blenders(5, 8),
        ),
        Pair::new(
            "the blender's without the second entry",
            b"\x02\x00\x64\x05\x01\x02\x64\x07\x01",
            b"\x03\x00\x64\x05\x01\x01\x64\x06\x01\x02\x64\x07\x01",
            gauges(5, 8),
        ),
        Pair::new(
            "product 1, 2, and the gauge's ends",
            b"\x02\x00\x64\x05\x01\x00\x64\x05\x01",
            b"\x01\x00\x64\x05\x02",
            blenders(1, 8),
        ),
        Pair::new(
            "product 1, 2, and the blender's ends",
            b"\x01\x00\x64\x05\x01",
            b"\x02\x00\x64\x05\x02\x00\x64\x05\x01",
            blenders(1, 4),
        ),
    ] {
        pair.run(rt)?;
    }
    Ok(())
}

// Refused as reading refuses, the blender's first; also for what comes after the first place where the entries differ.
fn refused(rt: &impl Print) -> io::Result<()> {
    for pair in [
        Pair::new("an empty string, no entries", b"", b"\x00", Err(VolumeEnds)),
        Pair::new("no entries, an empty string", b"\x00", b"", Err(VolumeEnds)),
        Pair::new("two empty strings", b"", b"", Err(VolumeEnds)),
        Pair::new(
            "count 128 in three groups, no entries",
            b"\x80\x81\x00",
            b"\x00",
            Err(VolumeNumber),
        ),
        Pair::new(
            "no entries, count 128 in three groups",
            b"\x00",
            b"\x80\x81\x00",
            Err(VolumeNumber),
        ),
        Pair::new(
            "count 2001, no entries",
            b"\xd1\x0f",
            b"\x00",
            Err(VolumeRange),
        ),
        Pair::new(
            "no entries, count 2001",
            b"\x00",
            b"\xd1\x0f",
            Err(VolumeRange),
        ),
        Pair::new("16 and 14", b"\x01", b"\x80\x00", Err(VolumeEnds)),
        Pair::new("14 and 16", b"\x80\x00", b"\x01", Err(VolumeNumber)),
        Pair::new("14 and 15", b"\x80\x00", b"\xd1\x0f", Err(VolumeNumber)),
        Pair::new("15 and 14", b"\xd1\x0f", b"\x80\x00", Err(VolumeRange)),
        Pair::new("15 and 16", b"\xd1\x0f", b"\x01", Err(VolumeRange)),
        Pair::new("16 and 15", b"\x01", b"\xd1\x0f", Err(VolumeEnds)),
        Pair::new(
            "a byte after the blender's",
            b"\x01\x00\x64\x05\x01\x00",
            b"\x01\x00\x64\x06\x01",
            Err(VolumeEnds),
        ),
        Pair::new(
            "a byte after the gauge's",
            b"\x01\x00\x64\x05\x01",
            b"\x01\x00\x64\x06\x01\x00",
            Err(VolumeEnds),
        ),
        Pair::new(
            "the blender's second entry of product 9",
            b"\x02\x00\x64\x05\x01\x00\x64\x05\x09",
            b"\x01\x00\x64\x06\x01",
            Err(VolumeRange),
        ),
        Pair::new(
            "the gauge's second entry cut",
            b"\x01\x00\x64\x05\x01",
            b"\x02\x00\x64\x06\x01\x00\x64\x05",
            Err(VolumeEnds),
        ),
    ] {
        pair.run(rt)?;
    }
    Ok(())
}

fn main(rt: HostRuntime) -> io::Result<()> {
    ended(&rt)?;
    equal_ratios(&rt)?;
    smaller_ratio(&rt)?;
    several_entries(&rt)?;
    refused(&rt)?;
    many::around_128(&rt)?;
    many::most(&rt)
}

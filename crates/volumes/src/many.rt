// Volumes of 2,000 entries, written and read, and their duty; one with a byte after it, its soundness and that of its beginnings; and lists of more.
use crate::beginnings::judges;
use crate::duties::owes;
use crate::lent::{reads, writes};
use crate::table::no_room;
use arrayvec::ArrayVec;
use rates::Rates;
use soundness::Soundness;
use std::io;

// Puts what stands first into a buffer, and then an entry 2,000 times.
fn put_and_2000<T: Copy + Drop, const N: usize>(
    all: &mut ArrayVec<T, N>,
    first: &[T],
    entry: &[T],
) -> io::Result<()> {
    all.try_extend_from_slice(first).map_err(no_room)?;
    for _ in 0..2000 {
        all.try_extend_from_slice(entry).map_err(no_room)?;
    }
    Ok(())
}

// Puts the volume of 2,000 entries of these bytes into a buffer: its count and the entries.
fn put_volume<const N: usize>(all: &mut ArrayVec<u8, N>, entry: &[u8]) -> io::Result<()> {
    put_and_2000(all, b"\xd0\x0f", entry)
}

// A list of 2,000 entries of these four numbers, its volume, in which each has these bytes, and its duty. A byte more is lent than the volume has, and
// an element more than its entries have.
fn alike(
    rt: &impl Print,
    case: &str,
    numbers: [u32; 4],
    entry: &[u8],
    cents: u64,
) -> io::Result<()> {
    let mut list: ArrayVec<u32, 8000> = ArrayVec::new();
    put_and_2000(&mut list, &[], &numbers)?;
    let mut string: ArrayVec<u8, 16_002> = ArrayVec::new();
    put_volume(&mut string, entry)?;
    writes(rt, case, &list, string.len() + 1, 0, &string)?;
    reads(rt, case, &string, list.len() + 1, 0, &list)?;
    owes(rt, Rates::ours(), case, &string, 0, cents)
}

// The smallest entry has 4 bytes and the largest 8, and the count of 2,000 has 2. The third owes the most of any volume under our rates and, where
// the rate of product 1 is 65,535, under any table.
pub fn most(rt: &impl Print) -> io::Result<()> {
    let largest = b"\xa0\x0b\xa0\x8d\x06\x90\x4e\x08";
    let largest_of_1 = b"\xa0\x0b\xa0\x8d\x06\x90\x4e\x01";
    alike(rt, "2000 smallest", [0, 0, 0, 1], b"\x00\x00\x00\x01", 0)?;
    alike(rt, "2000 largest", [1440, 100_000, 10_000, 8], largest, 0)?;
    alike(
        rt,
        "2000 largest of product 1",
        [1440, 100_000, 10_000, 1],
        largest_of_1,
        24_000_000_000,
    )?;
    let mut string: ArrayVec<u8, 16_002> = ArrayVec::new();
    put_volume(&mut string, largest_of_1)?;
    owes(
        rt,
        Rates {
            cents: [65_535, 0, 0, 0, 0, 0, 0, 0],
        },
        "2000 largest of product 1 at rate 65535",
        &string,
        0,
        13_107_000_000_000,
    )?;
    let mut longer: ArrayVec<u8, 16_003> = ArrayVec::new();
    put_volume(&mut longer, largest)?;
    longer.try_push(0xa0).map_err(no_room)?;
    judges(
        rt,
        "2000 largest and a byte",
        &longer,
        Soundness::Hopeless { length: 16_003 },
    )
}

// More than 2,000 entries, also where a number is out of its range and no bytes are lent; and a list that is not whole entries besides.
pub fn over(rt: &impl Print) -> io::Result<()> {
    let smallest = [0, 0, 0, 1];
    let mut list: ArrayVec<u32, 8004> = ArrayVec::new();
    put_and_2000(&mut list, &smallest, &smallest)?;
    writes(rt, "2001 entries", &list, 16_016, 15, b"")?;
    let mut list: ArrayVec<u32, 8005> = ArrayVec::new();
    put_and_2000(&mut list, &[0, 100_001, 0, 1], &smallest)?;
    writes(
        rt,
        "2001 entries, litres 100001, none lent",
        &list,
        0,
        15,
        b"",
    )?;
    list.try_push(0).map_err(no_room)?;
    writes(
        rt,
        "8005 numbers, litres 100001, none lent",
        &list,
        0,
        16,
        b"",
    )
}

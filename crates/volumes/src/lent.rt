// Reading and writing, with what is lent to a call before it and after it.
use crate::duties::refuses_as_reading;
use crate::table::{each, line, no_numbers};
use std::{array, io};

// What a list holds before a call, over and over. No number of these is in a range.
const NUMBERS: [u32; 4] = [0xb0000007, 0xc1000b03, 0xd200020d, 0xe3000f0b];

// What each lent byte is before a call.
const BYTE: u8 = 0xa5;

// Whether what was lent begins with these after a call, and then goes on as it was before.
fn begins<T: PartialEq>(after: &[T], these: &[T], before: &[T]) -> bool {
    match after.strip_prefix(these) {
        Some(rest) => before.get(these.len()..) == Some(rest),
        None => false,
    }
}

// Whether reading a string into a list of this size, 8,008 at most, gives this refusal number and these entries.
pub fn read_is(string: &[u8], size: usize, refusal: u64, entries: &[u32]) -> bool {
    let before: [u32; 8008] = array::from_fn(|i| NUMBERS[i % 4]);
    let mut list = before;
    let (Some(before), Some(list)) = (before.get(..size), list.get_mut(..size)) else {
        return false;
    };
    let answer = volume::read_volume(string, list);
    refusal::number_of(answer) == refusal
        && answer.unwrap_or(0) == entries.len() / 4
        && begins(list, entries, before)
}

// Whether writing a list into this number of lent bytes, 16,016 at most, gives this refusal number and this string.
fn write_is(list: &[u32], size: usize, refusal: u64, string: &[u8]) -> bool {
    let before = [BYTE; 16_016];
    let mut lent = before;
    let (Some(before), Some(lent)) = (before.get(..size), lent.get_mut(..size)) else {
        return false;
    };
    let answer = volume::write_volume(list, lent);
    refusal::number_of(answer) == refusal
        && answer.unwrap_or(0) == string.len()
        && begins(lent, string, before)
}

// Reads a string into a list of this size.
pub fn reads(
    rt: &impl Print,
    case: &str,
    string: &[u8],
    size: usize,
    refusal: u64,
    entries: &[u32],
) -> io::Result<()> {
    let is_right = read_is(string, size, refusal, entries);
    line(rt, "read", case, refusal, is_right)
}

// Writes a list into this number of lent bytes, which is to give this refusal number and this string.
pub fn writes(
    rt: &impl Print,
    case: &str,
    list: &[u32],
    size: usize,
    refusal: u64,
    string: &[u8],
) -> io::Result<()> {
    let is_right = write_is(list, size, refusal, string);
    line(rt, "write", case, refusal, is_right)
}

// Reads each string of a table, and takes its duty. Its numbers are the size of the list, the refusal number, which is 0 where the string is accepted,
// and the numbers of the entries; a refused string has none.
pub fn read_each(rt: &impl Print, table: &str) -> io::Result<()> {
    each(table, |case, string, numbers| {
        let [size, refusal, entries @ ..] = numbers else {
            return no_numbers(rt, case);
        };
        let refusal = u64::from(*refusal);
        reads(rt, case, string, *size as usize, refusal, entries)?;
        refuses_as_reading(rt, case, string, refusal)
    })
}

// Writes the entries of each case of a table. Its numbers are the number of lent bytes, the refusal number, which is 0 where the list is accepted, and
// the numbers of the entries; a refused list has no bytes.
pub fn write_each(rt: &impl Print, table: &str) -> io::Result<()> {
    each(table, |case, string, numbers| {
        let [size, refusal, list @ ..] = numbers else {
            return no_numbers(rt, case);
        };
        writes(rt, case, list, *size as usize, u64::from(*refusal), string)
    })
}

// Tables of cases, in text. A line is a case: its name up to `:`, the bytes of a volume, or of a table of rates, in hexadecimal, up to `:`, and numbers
// in other text.
use arrayvec::{ArrayVec, CapacityError};
use std::fmt::Display;
use std::io;

// The error of a buffer in which there is no room.
pub fn no_room<T: Drop>(_full: CapacityError<T>) -> io::Error {
    io::Error::other("no room in a buffer")
}

// The bytes of a text of two hexadecimal digits each.
fn bytes_in(text: &str) -> io::Result<ArrayVec<u8, 40>> {
    let mut bytes = ArrayVec::new();
    for digits in text.split_whitespace() {
        if let Ok(byte) = u8::from_str_radix(digits, 16) {
            bytes.try_push(byte).map_err(no_room)?;
        }
    }
    Ok(bytes)
}

// The numbers of a text, with words and commas among them.
fn numbers_in(text: &str) -> io::Result<ArrayVec<u32, 16>> {
    let mut numbers = ArrayVec::new();
    for word in text.split_whitespace() {
        if let Ok(number) = word.trim_end_matches(',').parse::<u32>() {
            numbers.try_push(number).map_err(no_room)?;
        }
    }
    Ok(numbers)
}

// Runs each case of a table, with its name, its bytes and its numbers.
pub fn each<F: Fn(&str, &[u8], &[u32]) -> io::Result<()>>(table: &str, run: F) -> io::Result<()>
    requires { F.IsAlwaysCallable run }
{
    for line in table.lines() {
        let mut parts = line.split(':');
        let name = parts.next().unwrap_or("");
        let string = bytes_in(parts.next().unwrap_or(""))?;
        let numbers = numbers_in(parts.next().unwrap_or(""))?;
        run(name, &string, &numbers)?;
    }
    Ok(())
}

// Prints the line of a case: what is called, the case, the refusal number that it is to get, 0 where it is accepted, and whether it is so.
pub fn line(
    rt: &impl Print,
    call: impl Display + Drop,
    case: &str,
    refusal: u64,
    is_right: bool,
) -> io::Result<()> {
    let word = if is_right { "ok" } else { "wrong" };
    println!(rt; "{call} {case}: gets {refusal} {word}")
}

// Prints the line of a case with too few numbers.
pub fn no_numbers(rt: &impl Print, case: &str) -> io::Result<()> {
    line(rt, "no numbers in", case, 0, false)
}

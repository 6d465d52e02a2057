// Numbers in groups of seven bits, lowest first: the writer, the count of the groups, and the reader.
#![tactic(auto)]

ghost use Rattle.std.specs.Prelude.{◌≡◌, ◌+◌, ◌≤◌, length, drop};
ghost use Rattle.std.proofs.lemmas.List.Edits.{sets};
ghost use Rattle.varint.specs.Number as Number;
ghost use Rattle.varint.specs.Place.{reading_of, next_within};

// Writes n from place `at` on, group by group until the quotient is 0, and returns the place after it.
pub fn write_number(n: u64, out: &mut [u8], at: usize) -> usize
    requires { at + length (Number.number n) ≤ length out.old }
    ensures { (result ≡ at + length (Number.number n)) × (out.new ≡ sets out.old at (Number.number n)) }
{
    if n < 128 {
        out[at] = n as u8;
        return at + 1;
    }
    out[at] = (n % 128 + 128) as u8;
    write_number(n / 128, out, at + 1)
}

// Writes a value as `write_number` does. One or two groups are written here, without a call, since most numbers of a volume have no more.
pub fn put_number(value: u64, out: &mut [u8], at: usize) -> usize
    requires { at + length (Number.number value) ≤ length out.old }
    ensures { (result ≡ at + length (Number.number value)) × (out.new ≡ sets out.old at (Number.number value)) }
{
    if value < 128 {
        out[at] = value as u8;
        return at + 1;
    }
    out[at] = (value % 128 + 128) as u8;
    let rest = value / 128;
    if rest < 128 {
        out[at + 1] = rest as u8;
        return at + 2;
    }
    write_number(rest, out, at + 1)
}

// How many groups n has.
pub fn count_groups(n: u64) -> usize
    ensures { (result ≡ length (Number.number n)) × (result ≤ 10) }
{
    if n < 128 {
        return 1;
    }
    1 + count_groups(n / 128)
}

// What was found in a string, and the place after it.
#[derive(Clone, Copy, Debug, PartialEq, Eq)]
pub struct Found<T> {
    pub value: T,
    pub next: usize,
}

// Why there is no number: the string ends before its last group, or the number is malformed.
#[derive(Clone, Copy, Debug, PartialEq, Eq)]
pub enum NoNumber {
    Ended,
    Malformed,
}

// The number from place `at` on, of at most `most` groups. It is a loop and no recursion, for the speed of reading a volume.
pub fn read_number(string: &[u8], at: usize, most: u32) -> Result<Found<u64>, NoNumber>
    requires { (at ≤ length string.now) × (most ≤ 9) }
    ensures { (reading_of string.now result ≡ Number.read_number most (drop at string.now))
        × next_within at (length string.now) result }
{
    let mut value: u64 = 0;
    let mut weight: u64 = 1;
    let mut least: u8 = 0;
    for k in 0..most {
        let next = at + k as usize;
        if next == string.len() {
            return Err(NoNumber::Ended);
        }
        let b = string[next];
        if b < 128 {
            if b < least {
                return Err(NoNumber::Malformed);
            }
            return Ok(Found {
                value: value + weight * (b as u64),
                next: next + 1,
            });
        }
        value += weight * ((b as u64) - 128);
        weight *= 128;
        least = 1;
    }
    Err(NoNumber::Malformed) // also where the string ends here
}

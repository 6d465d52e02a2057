// The shift volume: a count of entries, then the entries, four numbers each. It is read from a string into a lent list, and written from a list into
// lent bytes. Where a call is refused, the lent list or the lent bytes keep their values.
#![tactic(auto)]

ghost use Rattle.std.specs.Prelude.{◌≡◌};
ghost use Rattle.refusal.specs.Told.{told};
ghost use Rattle.volume.specs.Volume as Volume;
ghost use Rattle.volume.specs.Calls as Calls;
ghost use Rattle.volume.specs.Answers as Answers;

pub mod reading;
mod writing;

use reading::{count_entries, store_entries};
use refusal::Refusal;
use varint::Found;
use writing::{measure_entries, put_entries};

// The ranges: the most entries, and the most that each number of an entry may be. The least is 0, but for the product, which is 1 at least.
pub const MOST_ENTRIES: u32 = 2000;

pub const MOST_MINUTES: u32 = 1440;

pub const MOST_LITRES: u32 = 100_000;

pub const MOST_RATIO: u32 = 10_000;

pub const LEAST_PRODUCT: u32 = 1;

pub const MOST_PRODUCT: u32 = 8;

// The numbers from the least to the most.
#[derive(Clone, Copy, Debug, PartialEq, Eq)]
pub struct Range {
    pub least: u32,
    pub most: u32,
}

pub const COUNT: Range = Range {
    least: 0,
    most: MOST_ENTRIES,
};

pub const MINUTES: Range = Range {
    least: 0,
    most: MOST_MINUTES,
};

pub const LITRES: Range = Range {
    least: 0,
    most: MOST_LITRES,
};

pub const RATIO: Range = Range {
    least: 0,
    most: MOST_RATIO,
};

pub const PRODUCT: Range = Range {
    least: LEAST_PRODUCT,
    most: MOST_PRODUCT,
};

impl Range {
    // Whether a number is in the range.
    pub fn contains(self, n: u64) -> bool
        ensures { result ≡ Volume.in_range self n }
    {
        u64::from(self.least) <= n && n <= u64::from(self.most)
    }
}

// An entry: minutes since the previous entry, litres, ratio in hundredths of a percent, product.
#[derive(Clone, Copy, Debug, PartialEq, Eq)]
pub struct Entry {
    pub minutes: u32,
    pub litres: u32,
    pub ratio: u32,
    pub product: u32,
}

// The answer of reading for C: the refusal number, 0 where the volume is accepted, and the count of its entries, 0 where it is refused.
#[repr(C)]
#[derive(Clone, Copy)]
pub struct CountAnswer {
    pub refusal: u64,
    pub count: usize,
}

impl From<Result<usize, Refusal>> for CountAnswer {
    ghost from_gives = { λ answer given. given ≡ Answers.count_answer answer };

    fn from(answer: Result<usize, Refusal>) -> CountAnswer {
        CountAnswer {
            refusal: refusal::number_of(answer),
            count: answer.unwrap_or(0),
        }
    }
}

// The answer of writing for C: the refusal number, 0 where the list is accepted, and the length of the volume, 0 where it is refused.
#[repr(C)]
#[derive(Clone, Copy)]
pub struct LengthAnswer {
    pub refusal: u64,
    pub length: usize,
}

impl From<Result<usize, Refusal>> for LengthAnswer {
    ghost from_gives = { λ answer given. given ≡ Answers.length_answer answer };

    fn from(answer: Result<usize, Refusal>) -> LengthAnswer {
        LengthAnswer {
            refusal: refusal::number_of(answer),
            length: answer.unwrap_or(0),
        }
    }
}

// Whether a string is a volume; the refusal is never `LittleRoom`.
pub fn check_volume(string: &[u8]) -> Result<(), Refusal>
    ensures { told result ≡ Calls.check_volume string.now }
{
    count_entries(string)?;
    Ok(())
}

// Reads a volume: puts its entries at the start of the lent list, four numbers each, and gives their count; later elements stay.
pub fn read_volume(string: &[u8], list: &mut [u32]) -> Result<usize, Refusal>
    ensures { Answers.read_gives result list.new ≡ Calls.read_volume_call string.now list.old }
{
    let found = count_entries(string)?;
    let n = found.value;
    if list.len() < 4 * n {
        return Err(Refusal::LittleRoom);
    }
    store_entries(string, found.next, n, list);
    Ok(n)
}

// Writes a volume: puts the volume of the entries at the start of the lent bytes, and gives its length; later bytes stay.
pub fn write_volume(list: &[u32], lent: &mut [u8]) -> Result<usize, Refusal>
    ensures { Answers.write_gives result lent.new ≡ Calls.write_volume_call list.now lent.old }
{
    let numbers = list.len();
    if numbers % 4 != 0 {
        return Err(Refusal::VolumeEnds);
    }
    let n = numbers / 4;
    if n > MOST_ENTRIES as usize {
        return Err(Refusal::VolumeRange);
    }
    let length = varint::count_groups(n as u64) + measure_entries(list)?;
    if lent.len() < length {
        return Err(Refusal::LittleRoom);
    }
    let first = varint::write_number(n as u64, lent, 0);
    put_entries(list, lent, first);
    Ok(length)
}

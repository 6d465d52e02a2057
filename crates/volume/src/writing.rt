// Writing: the entries are measured first, and written where there is room for all of them.
ghost use Rattle.std.specs.Prelude.{◌≡◌, ◌+◌, ◌*◌, ◌≤◌, ◌<◌, length, IfOk};
ghost use Rattle.std.proofs.lemmas.List.Edits.{sets};
ghost use Rattle.refusal.specs.Told.{told};
ghost use Rattle.volume.specs.Volume as Volume;
ghost use Rattle.volume.specs.Found as Found;

use crate::{Entry, LEAST_PRODUCT, MOST_LITRES, MOST_MINUTES, MOST_PRODUCT, MOST_RATIO};
use refusal::Refusal;

// The entry of four numbers.
fn entry_of(numbers: &[u32]) -> Entry
    requires { length numbers.now ≡ 4 }
    ensures { numbers.now ≡ Volume.four_numbers result }
{
    Entry {
        minutes: numbers[0],
        litres: numbers[1],
        ratio: numbers[2],
        product: numbers[3],
    }
}

// Whether each number of an entry is in its range. They are compared one by one: where each is asked by `contains`, the compiler compares the four at
// once, and writing a volume takes 1.7 times as long.
fn in_range(entry: Entry) -> bool
    ensures { result ≡ Volume.entry_in_range entry }
{
    if MOST_MINUTES < entry.minutes {
        return false;
    }
    if MOST_LITRES < entry.litres {
        return false;
    }
    if MOST_RATIO < entry.ratio {
        return false;
    }
    if entry.product < LEAST_PRODUCT {
        return false;
    }
    entry.product <= MOST_PRODUCT
}

// How many bytes an entry takes.
fn entry_bytes(entry: Entry) -> usize
    ensures { (result ≡ length (Volume.entry_string entry)) × (result ≤ 40) }
{
    let minutes = varint::count_groups(entry.minutes.into());
    let litres = varint::count_groups(entry.litres.into());
    let ratio = varint::count_groups(entry.ratio.into());
    let product = varint::count_groups(entry.product.into());
    minutes + litres + ratio + product
}

// How many bytes the entries of a list take, each number of which is to be in its range.
pub fn measure_entries(list: &[u32]) -> Result<usize, Refusal>
    requires { length list.now ≤ 8000 }
    ensures measured { told result ≡ Found.entries_length (Volume.entries_of list.now) }
    ensures at_most { IfOk result (λ length. length ≤ 80000) }
{
    let mut length = 0;
    for numbers in list.chunks_exact(4) {
        let entry = entry_of(numbers);
        if !in_range(entry) {
            return Err(Refusal::VolumeRange);
        }
        length += entry_bytes(entry);
    }
    Ok(length)
}

// Writes an entry from place `at` on, and gives the place after it.
fn put_entry(entry: Entry, lent: &mut [u8], at: usize) -> usize
    requires { at + length (Volume.entry_string entry) ≤ length lent.old }
    ensures { (result ≡ at + length (Volume.entry_string entry)) × (lent.new ≡ sets lent.old at (Volume.entry_string entry)) }
{
    let after_minutes = varint::put_number(entry.minutes.into(), lent, at);
    let after_litres = varint::put_number(entry.litres.into(), lent, after_minutes);
    let after_ratio = varint::put_number(entry.ratio.into(), lent, after_litres);
    varint::put_number(entry.product.into(), lent, after_ratio)
}

// Writes the entries of a list from place `first` on.
pub fn put_entries(list: &[u32], lent: &mut [u8], first: usize)
    requires { first + length (Volume.entries_string (Volume.entries_of list.now)) ≤ length lent.old }
    ensures { lent.new ≡ sets lent.old first (Volume.entries_string (Volume.entries_of list.now)) }
{
    let mut at = first;
    for numbers in list.chunks_exact(4) {
        at = put_entry(entry_of(numbers), lent, at);
    }
}

// Reading: every number is checked first, and nothing is stored before the whole volume has been read; then the numbers are read again and stored.
ghost use Rattle.std.specs.Prelude.{◌≡◌, ◌+◌, ◌*◌, ◌≤◌, ◌<◌, length, drop, IfOk};
ghost use Rattle.std.proofs.lemmas.List.Edits.{sets};
ghost use Rattle.refusal.specs.Told.{told, told_as};
ghost use Rattle.volume.specs.Volume as Volume;
ghost use Rattle.volume.specs.Calls as Calls;
ghost use Rattle.volume.specs.Found.{value_from, entry_from, entries_only, count_in, Begins, NumberReadAgain, EntryReadAgain, Stored};

use crate::{COUNT, Entry, LITRES, MINUTES, PRODUCT, RATIO, Range};
use refusal::Refusal;
use varint::{Found, NoNumber};

// The number from place `at` on, which is to be in a range.
pub fn read_value(string: &[u8], at: usize, range: Range) -> Result<Found<u32>, Refusal>
    requires { at ≤ length string.now }
    ensures value { told_as (value_from string.now) result ≡ Calls.read_value range (drop at string.now) }
    ensures within { IfOk result (λ found. found.next ≤ length string.now) }
{
    let read = match varint::read_number(string, at, 3) {
        Ok(read) => read,
        Err(NoNumber::Ended) => return Err(Refusal::VolumeEnds),
        Err(NoNumber::Malformed) => return Err(Refusal::VolumeNumber),
    };
    if !range.contains(read.value) {
        return Err(Refusal::VolumeRange);
    }
    Ok(Found {
        value: read.value as u32,
        next: read.next,
    })
}

// The entry from place `at` on, each number of which is to be in its range.
pub fn check_entry(string: &[u8], at: usize) -> Result<Found<Entry>, Refusal>
    requires { at ≤ length string.now }
    ensures entry { told_as (entry_from string.now) result ≡ Calls.read_entry (drop at string.now) }
    ensures within { IfOk result (λ found. found.next ≤ length string.now) }
{
    let minutes = read_value(string, at, MINUTES)?;
    let litres = read_value(string, minutes.next, LITRES)?;
    let ratio = read_value(string, litres.next, RATIO)?;
    let product = read_value(string, ratio.next, PRODUCT)?;
    Ok(Found {
        value: Entry {
            minutes: minutes.value,
            litres: litres.value,
            ratio: ratio.value,
            product: product.value,
        },
        next: product.next,
    })
}

// Whether n entries stand from place `first` on and nothing after them.
fn check_entries(string: &[u8], first: usize, n: usize) -> Result<(), Refusal>
    requires { first ≤ length string.now }
    ensures { told result ≡ entries_only (λ _. tt {0}) n (drop first string.now) }
{
    let mut at = first;
    for k in 0..n {
        let found = check_entry(string, at)?;
        at = found.next;
    }
    if at != string.len() {
        return Err(Refusal::VolumeEnds);
    }
    Ok(())
}

// The count of the entries of a volume, once the whole volume has been read, and the place of the first.
pub fn count_entries(string: &[u8]) -> Result<Found<usize>, Refusal>
    ensures count { told_as (λ found. found.value) result ≡ count_in string.now }
    ensures begins { IfOk result (λ found. Begins string.now found) }
{
    let count = read_value(string, 0, COUNT)?;
    let n = count.value as usize;
    let first = count.next;
    check_entries(string, first, n)?;
    Ok(Found {
        value: n,
        next: first,
    })
}

// The number from place `at` on, of a volume that has been checked.
fn number_at(string: &[u8], at: usize) -> Found<u32>
    requires { at ≤ length string.now }
    ensures { NumberReadAgain string.now at result × (result.next ≤ length string.now) }
{
    match varint::read_number(string, at, 3) {
        Ok(found) => Found {
            value: found.value as u32,
            next: found.next,
        },
        Err(_) => Found { value: 0, next: 0 },
    }
}

// The entry from place `at` on, of a volume that has been checked.
pub fn read_entry(string: &[u8], at: usize) -> Found<Entry>
    requires { at ≤ length string.now }
    ensures { EntryReadAgain string.now at result × (result.next ≤ length string.now) }
{
    let minutes = number_at(string, at);
    let litres = number_at(string, minutes.next);
    let ratio = number_at(string, litres.next);
    let product = number_at(string, ratio.next);
    Found {
        value: Entry {
            minutes: minutes.value,
            litres: litres.value,
            ratio: ratio.value,
            product: product.value,
        },
        next: product.next,
    }
}

// Stores the four numbers of an entry from element `at` of a list on.
fn store_entry(entry: Entry, list: &mut [u32], at: usize)
    requires { at + 3 < length list.old }
    ensures { list.new ≡ sets list.old at (Volume.four_numbers entry) }
{
    list[at] = entry.minutes;
    list[at + 1] = entry.litres;
    list[at + 2] = entry.ratio;
    list[at + 3] = entry.product;
}

// Puts the n entries from place `first` on at the start of the lent list; later elements stay.
// The elements are counted: over `list.chunks_exact_mut(4).take(n)` no fact at the loop's end says what the list holds, and the proof did not close.
pub fn store_entries(string: &[u8], first: usize, n: usize, list: &mut [u32])
    requires { (first ≤ length string.now) × (4 * n ≤ length list.old) × (n ≤ 2000) }
    ensures { Stored n (drop first string.now) list.old list.new }
{
    let mut at = first;
    for k in 0..n {
        let found = read_entry(string, at);
        store_entry(found.value, list, 4 * k);
        at = found.next;
    }
}

// Loading a table of rates: with our table in use, and with another.
use crate::table::{each, line, no_numbers};
use rates::Rates;
use std::io;

// Our rates.
const OURS: [u16; 8] = [120, 95, 95, 60, 40, 40, 15, 0];

// The rates of another table, which all differ from ours.
const ANOTHER: [u16; 8] = [1001, 1002, 1003, 1004, 1005, 1006, 1007, 65_535];

// Whether 1 litre at 10,000 of this product owes so many cents under these rates.
fn litre_owes(rates: Rates, product: u8, cents: u64) -> bool {
    let volume = [0x01, 0x00, 0x01, 0x90, 0x4e, product];
    duty::volume_duty(rates, &volume) == Ok(cents)
}

// Whether these are the rates of a table, and each product owes by them.
fn table_is(rates: Rates, expected: [u16; 8]) -> bool {
    rates.cents == expected
        && (1..=8)
            .zip(expected)
            .all(|(product, rate)| litre_owes(rates, product, rate.into()))
}

// Whether loading a string with this table in use gives this refusal number, and leaves these rates in use.
fn load_is(before: Rates, string: &[u8], refusal: u64, left: [u16; 8]) -> bool {
    let mut rates = before;
    let answer = rates::load_rates(&mut rates, string);
    refusal::number_of(answer) == refusal && table_is(rates, left)
}

// The eight rates that these numbers are; none where there are fewer or more of them, or one is above 65,535.
fn rates_of(numbers: &[u32]) -> Option<[u16; 8]> {
    let &[a, b, c, d, e, f, g, h] = numbers else {
        return None;
    };
    let mut rates = [0; 8];
    for (rate, number) in rates.iter_mut().zip([a, b, c, d, e, f, g, h]) {
        *rate = u16::try_from(number).ok()?;
    }
    Some(rates)
}

// Whether loading a string gives this refusal number, and leaves the rates that these numbers are in use, or where it is refused those before.
fn is_right(string: &[u8], refusal: u64, numbers: &[u32]) -> bool {
    let another = Rates { cents: ANOTHER };
    if refusal != 0 {
        return load_is(Rates::ours(), string, refusal, OURS)
            && load_is(another, string, refusal, ANOTHER);
    }
    match rates_of(numbers) {
        Some(loaded) => {
            load_is(Rates::ours(), string, 0, loaded) && load_is(another, string, 0, loaded)
        }
        None => false,
    }
}

// Loads each string of a table. Its numbers are the refusal number and, where it is 0, the eight rates.
pub fn load_each(rt: &impl Print, table: &str) -> io::Result<()> {
    each(table, |case, string, numbers| {
        let [refusal, rates @ ..] = numbers else {
            return no_numbers(rt, case);
        };
        let refusal = u64::from(*refusal);
        line(rt, "rates", case, refusal, is_right(string, refusal, rates))
    })
}

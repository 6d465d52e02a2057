// The duty on a volume.
use crate::table::{each, line, no_numbers};
use rates::Rates;
use std::io;

// Takes the duty on a string under a table of rates. It is to get this refusal number and this number of cents.
pub fn owes(
    rt: &impl Print,
    rates: Rates,
    case: &str,
    string: &[u8],
    refusal: u64,
    cents: u64,
) -> io::Result<()> {
    let answer = duty::volume_duty(rates, string);
    let is_right = refusal::number_of(answer) == refusal && answer.unwrap_or(0) == cents;
    line(rt, "duty", case, refusal, is_right)
}

// Takes the duty on a string for which reading is to get this refusal number: the duty gets the same, but for 8, where it is accepted.
pub fn refuses_as_reading(
    rt: &impl Print,
    case: &str,
    string: &[u8],
    reading: u64,
) -> io::Result<()> {
    let refusal = if reading == 8 { 0 } else { reading };
    let answer = duty::volume_duty(Rates::ours(), string);
    line(
        rt,
        "duty",
        case,
        refusal,
        refusal::number_of(answer) == refusal,
    )
}

// Takes the duty on each string of a table under our rates. Its numbers are the refusal number and the cents.
pub fn owe_each(rt: &impl Print, table: &str) -> io::Result<()> {
    each(table, |case, string, numbers| {
        let [refusal, cents] = numbers else {
            return no_numbers(rt, case);
        };
        let (refusal, cents) = (u64::from(*refusal), u64::from(*cents));
        owes(rt, Rates::ours(), case, string, refusal, cents)
    })
}

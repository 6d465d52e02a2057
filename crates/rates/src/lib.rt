// The duty rates: our table, and the loading of a refinery's own in its place. Where a loading is refused, the table in use stays.
#![tactic(auto)]

ghost use Rattle.std.specs.Prelude.{◌≡◌, ◌≤◌, length, drop, IfOk};
ghost use Rattle.refusal.specs.Numbers.{number_in};
ghost use Rattle.refusal.specs.Told.{told_as};
ghost use Rattle.volume.specs.Found.{value_from};
ghost use Rattle.volume.specs.Calls.{read_value};
ghost use Rattle.rates.specs.Rates.{our_rates, rate_of};
ghost use Rattle.rates.specs.Calls as Calls;
ghost use Rattle.rates.specs.Found.{pair_from};

use refusal::Refusal;
use varint::Found;
use volume::reading::read_value;
use volume::{PRODUCT, Range};

// Our rates of products 1 to 8, in cents per litre.
pub const RATES: [u16; 8] = [120, 95, 95, 60, 40, 40, 15, 0];

// The ranges of a table that is loaded: the most pairs, and the most that a rate may be. The least is 0; products are those of a volume.
pub const MOST_PAIRS: u32 = 8;

pub const MOST_RATE: u32 = 65_535;

const PAIR_COUNT: Range = Range {
    least: 0,
    most: MOST_PAIRS,
};

const RATE: Range = Range {
    least: 0,
    most: MOST_RATE,
};

// A table of rates: those of products 1 to 8, in cents per litre.
#[repr(C)]
#[derive(Clone, Copy, Debug, PartialEq, Eq)]
pub struct Rates {
    pub cents: [u16; 8],
}

// A pair of a table that is loaded.
#[derive(Clone, Copy, Debug, PartialEq, Eq)]
pub struct Pair {
    pub product: u32,
    pub rate: u32,
}

// Our rate of a product.
fn our_rate(product: u32) -> u16
    requires { (1 ≤ product) × (product ≤ 8) }
    ensures { result ≡ rate_of our_rates product }
{
    RATES[(product - 1) as usize]
}

impl Rates {
    // Our table, which is in use until a refinery has loaded its own.
    pub fn ours() -> Rates
        ensures { result.cents ≡ our_rates }
    {
        Rates {
            cents: [
                our_rate(1),
                our_rate(2),
                our_rate(3),
                our_rate(4),
                our_rate(5),
                our_rate(6),
                our_rate(7),
                our_rate(8),
            ],
        }
    }
}

// The number from place `at` on, which is to be in a range; whatever a volume would be refused for is the same refusal here.
fn read_number(string: &[u8], at: usize, range: Range) -> Result<Found<u32>, Refusal>
    requires { at ≤ length string.now }
    ensures value { told_as (value_from string.now) result ≡ Calls.refused_as24 (read_value range (drop at string.now)) }
    ensures within { IfOk result (λ found. found.next ≤ length string.now) }
{
    read_value(string, at, range).map_err(|_| Refusal::BadRates)
}

// The pair from place `at` on, where `last` is the product of the pair before, and 0 where there is none.
fn read_pair(string: &[u8], at: usize, last: u32) -> Result<Found<Pair>, Refusal>
    requires { at ≤ length string.now }
    ensures pair { told_as (pair_from string.now) result ≡ Calls.read_pair last (drop at string.now) }
    ensures within { IfOk result (λ found. found.next ≤ length string.now) }
{
    let product = read_number(string, at, PRODUCT)?;
    if product.value <= last {
        return Err(Refusal::RatesOrder);
    }
    let rate = read_number(string, product.next, RATE)?;
    Ok(Found {
        value: Pair {
            product: product.value,
            rate: rate.value,
        },
        next: rate.next,
    })
}

// Loads a refinery's own table: its rates take the place of the table in use, and a product without a pair has rate 0.
pub fn load_rates(rates: &mut Rates, string: &[u8]) -> Result<(), Refusal>
    ensures { Calls.rates_left (number_in result) rates.new.cents ≡ Calls.load_rates_call rates.old.cents string.now }
{
    let count = read_number(string, 0, PAIR_COUNT)?;
    let mut cents = [0; 8];
    let mut last = 0;
    let mut at = count.next;
    for k in 0..count.value {
        let found = read_pair(string, at, last)?;
        last = found.value.product;
        cents[(last - 1) as usize] = found.value.rate as u16;
        at = found.next;
    }
    if at != string.len() {
        return Err(Refusal::BadRates);
    }
    rates.cents = cents;
    Ok(())
}

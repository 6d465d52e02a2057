// The component duty on a shift volume under a table of rates.
#![tactic(auto)]

ghost use Rattle.std.specs.Prelude.{◌≡◌, ◌≤◌, length};
ghost use Rattle.refusal.specs.Told.{told};
ghost use Rattle.rates.specs.Rates.{rate_of};
ghost use Rattle.duty.specs.Duty as Duty;
ghost use Rattle.duty.specs.Calls as Calls;

use rates::Rates;
use refusal::Refusal;
use volume::reading::{check_entry, read_value};
use volume::{COUNT, Entry};

// The answer for C: the refusal number, 0 where the volume is accepted, and the duty in whole cents, 0 where it is refused.
#[repr(C)]
#[derive(Clone, Copy)]
pub struct DutyAnswer {
    pub refusal: u64,
    pub cents: u64,
}

impl From<Result<u64, Refusal>> for DutyAnswer {
    ghost from_gives = { λ answer given. given ≡ Calls.duty_answer answer };

    fn from(answer: Result<u64, Refusal>) -> DutyAnswer {
        DutyAnswer {
            refusal: refusal::number_of(answer),
            cents: answer.unwrap_or(0),
        }
    }
}

// The rate of a product in a table of rates.
fn rate_of(table: &[u16], product: u32) -> u16
    requires { (length table.now ≡ 8) × (1 ≤ product) × (product ≤ 8) }
    ensures { (result ≡ rate_of table.now product) × (result ≤ 65535) }
{
    table[(product - 1) as usize]
}

// The duty of an entry before it is cut down, in ten-thousandths of a cent.
fn exact_duty(table: &[u16], entry: Entry) -> u64
    requires { (length table.now ≡ 8) × (entry.litres ≤ 100000) × (entry.ratio ≤ 10000) × (1 ≤ entry.product) × (entry.product ≤ 8) }
    ensures { (result ≡ Duty.exact_duty table.now entry) × (result ≤ 65535000000000) }
{
    u64::from(entry.litres) * u64::from(entry.ratio) * u64::from(rate_of(table, entry.product))
}

// The duty on a volume under a table of rates: the sum over its entries, each cut down to whole cents. Each number is read once.
pub fn volume_duty(rates: Rates, string: &[u8]) -> Result<u64, Refusal>
    ensures { told result ≡ Calls.volume_duty rates.cents string.now }
{
    let count = read_value(string, 0, COUNT)?;
    let mut cents: u64 = 0;
    let mut at = count.next;
    for k in 0..count.value {
        let found = check_entry(string, at)?;
        cents += exact_duty(&rates.cents, found.value) / 10_000;
        at = found.next;
    }
    if at != string.len() {
        return Err(Refusal::VolumeEnds);
    }
    Ok(cents)
}

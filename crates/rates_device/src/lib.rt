// The rates' part of the box's interface, for C. The table in use is the caller's own, and a loading updates it.
#![tactic(auto)]

ghost use Rattle.std.specs.Prelude.{◌≡◌};
ghost use Rattle.rates.specs.Rates.{our_rates};
ghost use Rattle.rates.specs.Calls as Calls;

use rates::Rates;

// Our rates: the table that is in use until a refinery has loaded its own.
#[unsafe(no_mangle)]
pub extern "C" fn hc_our_rates() -> Rates
    ensures { result.cents ≡ our_rates }
{
    Rates::ours()
}

// Load rates: a refinery's own table in place of the one in use.
#[unsafe(no_mangle)]
pub extern "C" fn hc_load_rates(rates: &mut [u16; 8], string: &[u8]) -> u64
    ensures { Calls.rates_left result rates.new ≡ Calls.load_rates_call rates.old string.now }
{
    let mut table = Rates { cents: *rates };
    let loaded = rates::load_rates(&mut table, string);
    *rates = table.cents;
    refusal::number_of(loaded)
}

// The duty's part of the box's interface, for C. It is compiled apart from the calls that read a volume: in one module, where the check of an entry has
// two callers, both are slower.
#![tactic(auto)]

ghost use Rattle.std.specs.Prelude.{◌≡◌};
ghost use Rattle.duty.specs.Calls as Calls;

use duty::DutyAnswer;
use rates::Rates;

// Volume duty: the component duty on a volume under the table of rates in use, in whole cents.
#[unsafe(no_mangle)]
pub extern "C" fn hc_volume_duty(rates: &[u16; 8], string: &[u8]) -> DutyAnswer
    ensures { Calls.duty_given result ≡ Calls.volume_duty_call rates.now string.now }
{
    duty::volume_duty(Rates { cents: *rates }, string).into()
}

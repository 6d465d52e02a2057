// The test load's part of the box's interface, for C, on the caller's own head. It is compiled apart from the other calls, so that it does not change
// how they are compiled.
#![tactic(auto)]

ghost use Rattle.std.specs.Prelude.{◌≡◌};
ghost use Rattle.engine.specs.Answers as Answers;
ghost use Rattle.test_load.specs.TestLoad as Loads;

use engine::Head;

// Test load: a set up, and then the calls of so many words that come from a seed. The head is taken by mutable reference, a copy goes to the call, and
// the head that comes back is stored.
#[unsafe(no_mangle)]
pub extern "C" fn hc_test_load(
    head: &mut Head,
    seed: u32,
    count: u64,
    code: u32,
    key: &[u8],
    iv: &[u8],
    area: &mut [u32],
) -> u64
    ensures { Answers.done result head.new area.new
        ≡ Loads.test_load_call head.old seed count code key.now iv.now area.old }
{
    let next = test_load::test_load(*head, seed, count, code, key, iv, area);
    *head = next.head;
    refusal::number_of(next.answer)
}

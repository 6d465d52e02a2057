// A test load that can be repeated: a set up, and then calls that words from a seed give. Two benches that run the same load put the same strain on a
// box.
#![tactic(auto)]

ghost use Rattle.std.specs.Prelude.{◌≡◌, ◌≤◌};
ghost use Rattle.engine.specs.Calls as Calls;
ghost use Rattle.engine.specs.Outcomes as Outcomes;
ghost use Rattle.test_load.specs.Words as Words;
ghost use Rattle.test_load.specs.TestLoad as Loads;

use engine::Head;
use engine::answers::Next;
use refusal::Refusal;

// The most calls that a test load runs.
const MOST_CALLS: u64 = 1000;

// The word that comes after x.
fn next_word(x: u32) -> u32
    ensures { result ≡ Words.next_word x }
{
    let first = x ^ (x << 13);
    let second = first ^ (first >> 17);
    second ^ (second << 5)
}

// Ciphers over n zero bytes, 256 at most, and hands back the next head.
fn cipher_zeros(head: Head, area: &mut [u32], n: usize) -> Head
    requires { n ≤ 256 }
    ensures { Calls.engine_of result area.new ≡ Loads.run_call (Words.cipher_zeros n) (Calls.engine_of head area.old) }
{
    let mut zeros = [0u8; 256];
    head.cipher(area, &mut zeros[..n]).head
}

// Makes the call that a word gives, and hands back the next head. In a test load no such call is refused.
#[tactic(auto, using(crate::proofs::Loads::even_moves, crate::proofs::Loads::odd_ciphers, crate::proofs::Loads::ran_move))]
fn run_call(head: Head, area: &mut [u32], word: u32) -> Head
    ensures { Calls.engine_of result area.new ≡ Loads.run_call (Words.call_of word) (Calls.engine_of head area.old) }
{
    let half = word / 2;
    if word % 2 == 0 {
        move_to::move_to(head, area, (half % 4096) as u64).head
    } else {
        cipher_zeros(head, area, (half % 257) as usize)
    }
}

// Makes the calls of so many new words, and hands back the head that they leave.
#[tactic(auto, using(crate::proofs::Loads::run_starts, crate::proofs::Loads::run_turns, crate::proofs::Loads::run_ends))]
fn run_calls(mut head: Head, area: &mut [u32], seed: u32, count: u64) -> Head
    ensures { Calls.engine_of result area.new
        ≡ Loads.run_calls (Words.generated_calls seed count) (Calls.engine_of head area.old) }
{
    let mut word = seed;
    for _ in 0..count {
        word = next_word(word);
        head = run_call(head, area, word);
    }
    head
}

// Sets up with a key and an IV, and then makes the calls of so many words that come from a seed.
pub fn test_load(
    mut head: Head,
    seed: u32,
    count: u64,
    code: u32,
    key: &[u8],
    iv: &[u8],
    area: &mut [u32],
) -> Next<()>
    ensures { Outcomes.done result.answer result.head area.new
        ≡ Loads.test_load_call head seed count code key.now iv.now area.old }
{
    let answer = load_here(&mut head, seed, count, code, key, iv, area);
    Next { head, answer }
}

// The test load on a head in its place: where it is refused, the head stays.
#[tactic(auto, using(crate::proofs::Loads::seed_zero, crate::proofs::Loads::many_calls))]
fn load_here(
    head: &mut Head,
    seed: u32,
    count: u64,
    code: u32,
    key: &[u8],
    iv: &[u8],
    area: &mut [u32],
) -> Result<(), Refusal>
    ensures { Outcomes.done result head.new area.new
        ≡ Loads.test_load_call head.old seed count code key.now iv.now area.old }
{
    if seed == 0 {
        return Err(Refusal::SeedZero);
    }
    if MOST_CALLS < count {
        return Err(Refusal::ManyCalls);
    }
    let start = head.set_up(code, key, iv, area);
    start.answer?;
    *head = run_calls(start.head, area, seed, count);
    Ok(())
}

// Many steps of a cipher, forward and back, by runs where there are any; a move from one byte position to another; and the word of a position.
#![tactic(auto)]

ghost use Rattle.std.specs.Prelude.{◌≡◌, ◌+◌, ◌-◌, ◌^◌, ◌≤◌, ◌<◌, length};
ghost use Rattle.laws.specs.Iterate.{forward, backward};
ghost use Rattle.cipher.specs.Numbers.{area_length};
ghost use Rattle.steps.specs.Steps as Steps;

use cipher::Cipher;
use runs::{Change, Step};

// The steps that the tables have taken at byte position p.
pub fn steps_at(p: usize) -> usize
    requires { p < 2 ^ 63 }
    ensures { result ≡ Steps.steps_at p }
{
    (p + 3) / 4
}

// Some of the changes at the steps i to i + n - 1, from the first on: those of a run, or one; their number.
#[tactic(auto, using(laws::proofs::Iterate::forward_one))]
fn advance_some<C: Change>(change: C, area: &mut [u32], i: usize, n: usize) -> usize
    requires { (length area.old ≡ area_length (C.cipher_of change)) × (0 < n) }
    ensures { (0 < result) × (result ≤ n) × (area.new ≡ forward (C.forth change) area.old i result) }
{
    let m = n.min(runs::run_from(change.cipher(), i));
    if m == 0 {
        change.make(area, i);
        1
    } else {
        runs::advance(change, area, i, m);
        m
    }
}

// The changes at the steps i to i + n - 1.
#[tactic(auto, using(laws::proofs::Iterate::forward_none, laws::proofs::Loops::forward_turns_by))]
pub fn advance_with<C: Change>(change: C, area: &mut [u32], i: usize, n: usize)
    requires { (length area.old ≡ area_length (C.cipher_of change)) × (i + n < 2 ^ 64) }
    ensures { area.new ≡ forward (C.forth change) area.old i n }
{
    // A `while`, since each turn makes the changes of a run.
    let mut k = 0;
    while k < n {
        k += advance_some(change, area, i + k, n - k);
    }
}

// Some of the changes at the steps i to i + n - 1 undone, from the last on: those of a run, or one; their number.
#[tactic(auto, using(laws::proofs::Iterate::backward_one))]
fn retreat_some<C: Change>(change: C, area: &mut [u32], i: usize, n: usize) -> usize
    requires { (length area.old ≡ area_length (C.cipher_of change)) × (0 < n) × (i + n < 2 ^ 64) }
    ensures { (0 < result) × (result ≤ n) × (area.new ≡ backward (C.back change) area.old (i + (n - result)) result) }
{
    let m = n.min(runs::run_before(change.cipher(), i + n));
    if m == 0 {
        change.undo(area, i + (n - 1));
        1
    } else {
        runs::retreat(change, area, i + (n - m), m);
        m
    }
}

// The changes at the steps i to i + n - 1 undone, last first.
#[tactic(auto, using(laws::proofs::Loops::backward_turns_by, laws::proofs::Loops::backward_ends))]
pub fn retreat_with<C: Change>(change: C, area: &mut [u32], i: usize, n: usize)
    requires { (length area.old ≡ area_length (C.cipher_of change)) × (i + n < 2 ^ 64) }
    ensures { area.new ≡ backward (C.back change) area.old i n }
{
    // A `while`, since each turn undoes the changes of a run.
    let mut k = n;
    while 0 < k {
        k -= retreat_some(change, area, i, k);
    }
}

// The steps i to i + n - 1.
pub fn advance(cipher: Cipher, area: &mut [u32], i: usize, n: usize)
    requires { (length area.old ≡ area_length cipher) × (i + n < 2 ^ 64) }
    ensures { area.new ≡ Steps.steps cipher area.old i n }
{
    advance_with(Step { cipher: cipher }, area, i, n);
}

// The steps i to i + n - 1 undone, last first.
pub fn retreat(cipher: Cipher, area: &mut [u32], i: usize, n: usize)
    requires { (length area.old ≡ area_length cipher) × (i + n < 2 ^ 64) }
    ensures { area.new ≡ Steps.steps_back cipher area.old i n }
{
    retreat_with(Step { cipher: cipher }, area, i, n);
}

// The tables moved from position p to position q.
#[tactic(auto, using(crate::proofs::Moved::moved_up, crate::proofs::Moved::moved_down))]
pub fn move_tables(cipher: Cipher, area: &mut [u32], p: usize, q: usize)
    requires { (length area.old ≡ area_length cipher) × (p < 2 ^ 63) × (q < 2 ^ 63) }
    ensures { area.new ≡ Steps.moved cipher area.old p q }
{
    let from = steps_at(p);
    let to = steps_at(q);
    if from <= to {
        advance(cipher, area, from, to - from);
    } else {
        retreat(cipher, area, to, from - to);
    }
}

// The word of position p: the output of the last step taken, and 0 at position 0.
#[tactic(auto, using(crate::proofs::Words::none_taken, crate::proofs::Words::last_taken))]
pub fn word_at(cipher: Cipher, area: &[u32], p: usize) -> u32
    requires { (length area.now ≡ area_length cipher) × (p < 2 ^ 63) }
    ensures { result ≡ Steps.word_at cipher area.now p }
{
    let n = steps_at(p);
    if n == 0 {
        0
    } else {
        tables::output_again(cipher, area, n - 1)
    }
}

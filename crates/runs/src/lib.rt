// A run is a number of steps of one turn whose indices do not wrap: A[j-3] is then the word three places before A[j] in the area. What is made at each
// step is a type parameter: the step of a cipher here, the change of HC-128's last pass above.
#![tactic(auto)]

ghost use Rattle.std.specs.Prelude.{◌≡◌, ◌+◌, ◌%◌, ◌<◌, List, ℕ, length, get_or};
ghost use Rattle.laws.specs.Iterate.{forward, backward};
ghost use Rattle.cipher.specs.declared.Cipher.{Cipher};
ghost use Rattle.cipher.specs.Numbers.{table_length, area_length};
ghost use Rattle.functions.specs.ByCipher.{put};
ghost use Rattle.tables.specs.Step.{feedback, filter, step, step_back};
ghost use Rattle.runs.specs.Run as Run;
ghost use Rattle.runs.specs.Change.{ByPlace, steps_by_place};

use cipher::Cipher;

// The word w with the feedback of step k put on it, or taken off where `back` holds; p tells whether P changes, and `next` is A[j+1].
#[tactic(auto, using(crate::proofs::At::feedback_at))]
pub fn with_feedback(
    cipher: Cipher,
    back: bool,
    area: &[u32],
    p: bool,
    k: usize,
    next: u32,
    w: u32,
) -> u32
    requires { Run.At cipher area.now p k × (next ≡ get_or area.now (k + 1) 0) }
    ensures { result ≡ put back w (feedback cipher area.now k) }
{
    functions::with_feedback(cipher, back, area, p, area[k - 3], area[k - 10], next, w)
}

// h(A[j-12]) at step k, where p tells whether P changes.
#[tactic(auto, using(crate::proofs::At::filter_at))]
pub fn filter(cipher: Cipher, area: &[u32], p: bool, k: usize) -> u32
    requires { Run.At cipher area.now p k }
    ensures { result ≡ filter cipher area.now k }
{
    functions::filter(cipher, area, p, area[k - 12])
}

// A change of A[j] that is made at numbered steps, and its undoing.
pub trait Change: Copy {
    // The cipher of the area, and the change at a step and its undoing.
    ghost cipher_of: { Self → Cipher };

    ghost forth: { Self → List ℕ → ℕ → List ℕ };

    ghost back: { Self → List ℕ → ℕ → List ℕ };

    // Steps with the same place of A[j] have the same change.
    ghost by_place: { (x : Self) → ByPlace (cipher_of x) (forth x) (back x) };

    // The cipher of the area.
    fn cipher(self) -> Cipher
        ensures { result ≡ cipher_of self };

    // The change at step i.
    fn make(self, area: &mut [u32], i: usize)
        requires { length area.old ≡ area_length (cipher_of self) }
        ensures { area.new ≡ forth self area.old i };

    // The change at step i undone.
    fn undo(self, area: &mut [u32], i: usize)
        requires { length area.old ≡ area_length (cipher_of self) }
        ensures { area.new ≡ back self area.old i };

    // The change at step k of a run, where p tells whether P changes.
    fn make_in_run(self, area: &mut [u32], p: bool, k: usize)
        requires { Run.At (cipher_of self) area.old p k }
        ensures { area.new ≡ forth self area.old k };

    // The change at step k of a run undone, where p tells whether P changed and `next` is A[j+1]; the word restored.
    fn undo_in_run(self, area: &mut [u32], p: bool, k: usize, next: u32) -> u32
        requires { Run.At (cipher_of self) area.old p k × (next ≡ get_or area.old (k + 1) 0) }
        ensures { (area.new ≡ back self area.old k) × (result ≡ get_or area.new k 0) };
}

// The step of a cipher.
#[derive(Clone, Copy)]
pub struct Step {
    pub cipher: Cipher,
}

impl Change for Step {
    ghost cipher_of = { λ x. x.cipher };

    ghost forth = { λ x. step x.cipher };

    ghost back = { λ x. step_back x.cipher };

    ghost by_place = { λ x. steps_by_place x.cipher };

    fn cipher(self) -> Cipher {
        self.cipher
    }

    fn make(self, area: &mut [u32], i: usize) {
        tables::step(self.cipher, area, i);
    }

    fn undo(self, area: &mut [u32], i: usize) {
        tables::step_back(self.cipher, area, i);
    }

    #[tactic(auto, using(crate::proofs::At::place_at), unfolding(tables::specs::Step::step))]
    fn make_in_run(self, area: &mut [u32], p: bool, k: usize) {
        let next = area[k + 1];
        area[k] = with_feedback(self.cipher, false, area, p, k, next, area[k]);
    }

    #[tactic(auto, using(crate::proofs::At::place_at), unfolding(tables::specs::Step::step_back))]
    fn undo_in_run(self, area: &mut [u32], p: bool, k: usize, next: u32) -> u32 {
        area[k] = with_feedback(self.cipher, true, area, p, k, next, area[k]);
        area[k]
    }
}

// The index j of step i.
fn index(cipher: Cipher, i: usize) -> usize
    ensures { (result ≡ i % table_length cipher) × (result < table_length cipher) }
{
    i % cipher.table_words()
}

// How many steps from step i on are a run.
pub fn run_from(cipher: Cipher, i: usize) -> usize
    ensures { result ≡ Run.run_from (table_length cipher) i }
{
    let j = index(cipher, i);
    if j < 12 {
        0
    } else {
        cipher.table_words() - 1 - j
    }
}

// How many steps before step i are a run.
pub fn run_before(cipher: Cipher, i: usize) -> usize
    ensures { result ≡ Run.run_before (table_length cipher) i }
{
    index(cipher, i).saturating_sub(12)
}

// The changes at the steps i to i + n - 1, which are a run.
#[tactic(auto, using(laws::proofs::Iterate::forward_none, laws::proofs::Loops::forward_turns, crate::proofs::At::forth_at_place))]
pub fn advance<C: Change>(change: C, area: &mut [u32], i: usize, n: usize)
    requires { (length area.old ≡ area_length (C.cipher_of change)) × Run.Run (table_length (C.cipher_of change)) i n }
    ensures { area.new ≡ forward (C.forth change) area.old i n }
{
    let cipher = change.cipher();
    let p = tables::changes_p(cipher, i);
    let k = tables::place(cipher, i);
    for m in 0..n {
        change.make_in_run(area, p, k + m);
    }
}

// The changes at the steps i to i + n - 1, which are a run, undone, last first.
#[tactic(auto, using(laws::proofs::Loops::backward_turns, laws::proofs::Loops::backward_ends, crate::proofs::At::back_at_place))]
pub fn retreat<C: Change>(change: C, area: &mut [u32], i: usize, n: usize)
    requires { (length area.old ≡ area_length (C.cipher_of change)) × Run.Run (table_length (C.cipher_of change)) i n }
    ensures { area.new ≡ backward (C.back change) area.old i n }
{
    let cipher = change.cipher();
    let p = tables::changes_p(cipher, i);
    let k = tables::place(cipher, i);
    let mut next = area[k + n];
    for m in (0..n).rev() {
        next = change.undo_in_run(area, p, k + m, next);
    }
}

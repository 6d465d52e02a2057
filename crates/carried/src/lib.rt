// The five indices of a step carried from step to step, and a step taken with them. What carries them stands here and not among the methods of
// `Indices`, since the definition of carrying is this crate's. Cipher and p go apart, so that a loop's copy for a case has both as constants.
#![tactic(auto)]

ghost use Rattle.std.specs.Prelude.{◌≡◌, ◌+◌, ◌%◌, ◌^◌, ◌<◌, length};
ghost use Rattle.cipher.specs.declared.Cipher.TheVariants.{Hc256};
ghost use Rattle.cipher.specs.Numbers.{table_length, area_length};
ghost use Rattle.tables.specs.Area.{Within};
ghost use Rattle.carried.specs.Carried as Carried;
ghost use Rattle.carried.specs.Steps as Steps;
ghost use Rattle.carried.specs.Runs as Runs;
ghost use Rattle.carried.specs.Runs.{NoneWraps};

use cipher::Cipher;
use tables::Indices;

// An index one step on, in a table of t words: the one that reaches t becomes 0.
fn up(t: usize, k: usize) -> usize
    requires { k < 1024 }
    ensures { result ≡ Carried.up t k }
{
    if k + 1 == t { 0 } else { k + 1 }
}

// The five indices one step on, in tables of t words.
fn carry(t: usize, x: Indices) -> Indices
    requires { Within 1024 x }
    ensures { result ≡ Carried.carry t x }
{
    x.map(|k| up(t, k))
}

// The five indices one step on, where none wraps.
pub fn carry_unwrapped(x: Indices) -> Indices
    requires { Within 1024 x }
    ensures { result ≡ Runs.carry_unwrapped x }
{
    x.map(|k| k + 1)
}

// The five indices of step i + 1, where x are those of step i and none of them wraps in m steps: worked out from the step number where a turn begins,
// and carried inside it.
pub fn next_five(cipher: Cipher, i: usize, x: Indices, m: usize) -> Indices
    requires { NoneWraps (table_length cipher) x m × (x.j ≡ i % table_length cipher) × (i + 1 < 2 ^ 64) }
    ensures { result ≡ Carried.next_five (table_length cipher) x i }
{
    if m != 0 {
        return carry_unwrapped(x);
    }
    let next = carry(cipher.table_words(), x);
    if next.j == 0 {
        Indices::at(cipher, i + 1)
    } else {
        next
    }
}

// A number of steps in which none of the five indices x of a step wraps: those up to where j + 1 does, and 0 where one has wrapped already.
pub fn before_wrap(cipher: Cipher, x: Indices) -> usize
    requires { Within (table_length cipher) x }
    ensures { result ≡ Runs.before_wrap (table_length cipher) x }
{
    if x.minus12 < x.plus1 {
        cipher.table_words() - 1 - x.plus1
    } else {
        0
    }
}

// The step with the five indices x, where p tells whether P changes.
#[tactic(auto, using(crate::proofs::Arms::step_read))]
pub fn step(cipher: Cipher, p: bool, area: &mut [u32], x: Indices)
    requires { (length area.old ≡ area_length cipher) × Within (table_length cipher) x }
    ensures { area.new ≡ Steps.step_with cipher p area.old x }
{
    let at = x.places(cipher, p);
    area[at.j] = functions::with_feedback(
        cipher,
        false,
        area,
        p,
        area[at.minus3],
        area[at.minus10],
        area[at.plus1],
        area[at.j],
    );
}

// The output of the step with the five indices x, from the area after it, where p tells whether P changes.
#[tactic(auto, using(crate::proofs::Arms::output_read))]
pub fn output(cipher: Cipher, p: bool, area: &[u32], x: Indices) -> u32
    requires { (length area.now ≡ area_length cipher) × Within (table_length cipher) x }
    ensures { result ≡ Steps.output_with cipher p area.now x }
{
    let at = x.places(cipher, p);
    functions::filter(cipher, area, p, area[at.minus12]) ^ area[at.j]
}

// The step with the five indices x, where p tells whether P changes; its output.
pub fn word(cipher: Cipher, p: bool, area: &mut [u32], x: Indices) -> u32
    requires { (length area.old ≡ area_length cipher) × Within (table_length cipher) x }
    ensures { Runs.Taken cipher p area.old x area.new result }
{
    step(cipher, p, area, x);
    output(cipher, p, area, x)
}

// HC-256's step with the five indices x, where p tells whether P changes; its output. The table that is looked up is a part of the area, so that one
// piece of code serves where P changes and where Q does.
fn word_256(p: bool, area: &mut [u32], x: Indices) -> u32
    requires { (length area.old ≡ area_length Hc256) × Within (table_length Hc256) x }
    ensures { Runs.Taken Hc256 p area.old x area.new result }
{
    let at = x.places(Cipher::Hc256, p);
    let t = Cipher::Hc256.table_words();
    let b = t - tables::start_a(t, p);
    let g = functions::g_256(&area[b..], 0, area[at.minus3], area[at.plus1]);
    area[at.j] = area[at.j].wrapping_add(area[at.minus10].wrapping_add(g));
    functions::h(Cipher::Hc256, &area[b..], area[at.minus12]) ^ area[at.j]
}

// A step of a run with the five indices x, where p tells whether P changes; its output. Its case is told apart once, before the step, so that a loop
// over it can be compiled for each case by itself.
pub fn word_in_run(cipher: Cipher, p: bool, area: &mut [u32], x: Indices) -> u32
    requires { (length area.old ≡ area_length cipher) × Within (table_length cipher) x }
    ensures { Runs.Taken cipher p area.old x area.new result }
{
    match (cipher, p) {
        (Cipher::Hc128, true) => word(Cipher::Hc128, true, area, x),
        (Cipher::Hc128, false) => word(Cipher::Hc128, false, area, x),
        (Cipher::Hc256, true) => word(Cipher::Hc256, true, area, x),
        (Cipher::Hc256, false) => word(Cipher::Hc256, false, area, x),
    }
}

// A step by itself with the five indices x, where p tells whether P changes; its output. Its case is told apart once, in less code than a run's, and
// apart from it: a function of this size is copied into its caller only where it has one, and with one for both short calls are slower.
pub fn word_alone(cipher: Cipher, p: bool, area: &mut [u32], x: Indices) -> u32
    requires { (length area.old ≡ area_length cipher) × Within (table_length cipher) x }
    ensures { Runs.Taken cipher p area.old x area.new result }
{
    match (cipher, p) {
        (Cipher::Hc128, true) => word(Cipher::Hc128, true, area, x),
        (Cipher::Hc128, false) => word(Cipher::Hc128, false, area, x),
        (Cipher::Hc256, _) => word_256(p, area, x),
    }
}

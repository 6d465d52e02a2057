// The table area of a cipher, 2T words, P then Q: a step, its inverse and its output word, by the number of the step. That a lent area has the cipher's
// length stands in each contract: a struct of both would need one type for `&` and one for `&mut`, and goes through memory where a call is not inlined.
#![tactic(auto)]

ghost use Rattle.std.specs.Prelude.{◌≡◌, ◌≤◌, ◌<◌, length};
ghost use Rattle.cipher.specs.Numbers.{table_length, area_length};
ghost use Rattle.functions.specs.ByCipher.{put};
ghost use Rattle.tables.specs.Area as Area;
ghost use Rattle.tables.specs.Area.{Within};
ghost use Rattle.tables.specs.Step as Step;

use cipher::Cipher;

// The five indices that a step reads in a table of T words: j, j - 3, j - 10, j + 1 and j - 12, modulo T.
#[derive(Clone, Copy, Debug, PartialEq, Eq)]
pub struct Indices {
    pub j: usize,
    pub minus3: usize,
    pub minus10: usize,
    pub plus1: usize,
    pub minus12: usize,
}

impl Indices {
    // The indices of step i. T is a power of two, so that & takes the remainder; 1,021 is 1,024 - 3, so that adding it goes 3 back modulo 512 and
    // modulo 1,024, and so for the others.
    pub fn at(cipher: Cipher, i: usize) -> Indices
        ensures { (result ≡ Area.indices_at (table_length cipher) i) × Within (table_length cipher) result }
    {
        let below = cipher.table_words() - 1;
        let j = i & below;
        Indices {
            j,
            minus3: (j + 1021) & below,
            minus10: (j + 1014) & below,
            plus1: (j + 1) & below,
            minus12: (j + 1012) & below,
        }
    }

    // What f gives for each of the five.
    pub fn map<F: Fn(usize) -> usize>(self, f: F) -> Indices
        requires { F.pre f self.j × F.pre f self.minus3 × F.pre f self.minus10 × F.pre f self.plus1 × F.pre f self.minus12 }
        ensures { F.post f self.j result.j × F.post f self.minus3 result.minus3 × F.post f self.minus10 result.minus10
            × F.post f self.plus1 result.plus1 × F.post f self.minus12 result.minus12 }
    {
        Indices {
            j: f(self.j),
            minus3: f(self.minus3),
            minus10: f(self.minus10),
            plus1: f(self.plus1),
            minus12: f(self.minus12),
        }
    }

    // Their places in the area, where p tells whether P changes.
    pub fn places(self, cipher: Cipher, p: bool) -> Indices
        requires { Within (table_length cipher) self }
        ensures { (result ≡ Area.places (table_length cipher) p self) × Within (area_length cipher) result }
    {
        let start = start_a(cipher.table_words(), p);
        self.map(|k| start + k)
    }
}

// Whether P changes at step i: T is a power of two, so that its bit of i tells.
#[tactic(auto, using(crate::proofs::Masks::changes_and))]
pub fn changes_p(cipher: Cipher, i: usize) -> bool
    ensures { result ≡ Area.changes_p (table_length cipher) i }
{
    i & cipher.table_words() == 0
}

// Where the table that changes begins, for tables of t words, where p tells whether P changes.
pub fn start_a(t: usize, p: bool) -> usize
    ensures { (result ≡ Area.start_a t p) × (result ≤ t) }
{
    if p { 0 } else { t }
}

// The place of A[j] in the area.
pub fn place(cipher: Cipher, i: usize) -> usize
    ensures { (result ≡ Step.place cipher i) × (result < area_length cipher) }
{
    i % cipher.area_words()
}

// The word w with the feedback of step i put on it, or taken off where `back` holds.
#[tactic(auto, using(crate::proofs::Words::feedback_read))]
pub fn with_feedback(cipher: Cipher, back: bool, area: &[u32], i: usize, w: u32) -> u32
    requires { length area.now ≡ area_length cipher }
    ensures { result ≡ put back w (Step.feedback cipher area.now i) }
{
    let p = changes_p(cipher, i);
    let at = Indices::at(cipher, i).places(cipher, p);
    functions::with_feedback(
        cipher,
        back,
        area,
        p,
        area[at.minus3],
        area[at.minus10],
        area[at.plus1],
        w,
    )
}

// h(A[j-12]) at step i.
#[tactic(auto, using(crate::proofs::Words::filter_read))]
pub fn filter(cipher: Cipher, area: &[u32], i: usize) -> u32
    requires { length area.now ≡ area_length cipher }
    ensures { result ≡ Step.filter cipher area.now i }
{
    let p = changes_p(cipher, i);
    let at = Indices::at(cipher, i).places(cipher, p);
    functions::filter(cipher, area, p, area[at.minus12])
}

// Step i.
#[tactic(auto, using(crate::proofs::Words::stepped))]
pub fn step(cipher: Cipher, area: &mut [u32], i: usize)
    requires { length area.old ≡ area_length cipher }
    ensures { area.new ≡ Step.step cipher area.old i }
{
    let k = place(cipher, i);
    area[k] = with_feedback(cipher, false, area, i, area[k]);
}

// Step i undone. A step and its inverse are told apart by a word; one function with a flag would be no plainer where it is called.
#[tactic(auto, using(crate::proofs::Words::stepped_back))]
pub fn step_back(cipher: Cipher, area: &mut [u32], i: usize)
    requires { length area.old ≡ area_length cipher }
    ensures { area.new ≡ Step.step_back cipher area.old i }
{
    let k = place(cipher, i);
    area[k] = with_feedback(cipher, true, area, i, area[k]);
}

// The output word of step i, from the area after it, in few operations: it is worked out in each call that compares the head's word. T and 2T are
// powers of two, so that & takes the remainders; 1,012 is 1,024 - 12, so that adding it goes 12 back modulo 512 and modulo 1,024.
pub fn output_again(cipher: Cipher, area: &[u32], i: usize) -> u32
    requires { length area.now ≡ area_length cipher }
    ensures { result ≡ Step.output cipher area.now i }
{
    let t = area.len() / 2;
    let k = i & (area.len() - 1);
    let a = k & t;
    let minus12 = a + ((k + 1012) & (t - 1));
    let b = t - a;
    functions::h(cipher, &area[b..], area[minus12]) ^ area[k]
}

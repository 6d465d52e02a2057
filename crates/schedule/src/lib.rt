// The expansion of W0..15, which fills a table area, and its inverse.
#![tactic(auto)]

ghost use Rattle.std.specs.Prelude.{◌≡◌, ◌++◌, ◌+◌, ◌-◌, ◌%◌, ◌≤◌, length, take, drop};
ghost use Rattle.laws.specs.Iterate.{backward};
ghost use Rattle.laws.specs.Same.{same};
ghost use Rattle.word.specs.Word as Word;
ghost use Rattle.word.specs.Word.{◌⊞◌, ◌⊟◌};
ghost use Rattle.cipher.specs.Numbers.{area_length};
ghost use Rattle.schedule.specs.Expansion as Expansion;
ghost use Rattle.schedule.specs.Origin as Origin;
ghost use Rattle.schedule.specs.Window as Window;

use cipher::Cipher;

// Wi, from W(i-2), W(i-7), W(i-15), W(i-16) and i.
fn next_word(w2: u32, w7: u32, w15: u32, w16: u32, i: u32) -> u32
    ensures { result ≡ Word.f2 w2 ⊞ w7 ⊞ Word.f1 w15 ⊞ w16 ⊞ i }
{
    let earlier = word::sum(word::sum(word::sum(word::f2(w2), w7), word::f1(w15)), w16);
    word::sum(earlier, i)
}

// W(i-16), from Wi, W(i-2), W(i-7), W(i-15) and i.
fn previous_word(w: u32, w2: u32, w7: u32, w15: u32, i: u32) -> u32
    ensures { result ≡ w ⊟ (Word.f2 w2 ⊞ w7 ⊞ Word.f1 w15 ⊞ i) }
{
    let added = word::sum(word::sum(word::f2(w2), w7), word::f1(w15));
    word::difference(w, word::sum(added, i))
}

// The window n words back; the last that is undone is Wi.
fn unexpand(w: [u32; 16], i: usize, n: usize) -> [u32; 16]
    requires { i + n ≤ 4096 }
    ensures { result ≡ backward Window.previous w i n }
{
    let mut v = w;
    for k in (0..n).rev() {
        let at = i + k;
        v[at % 16] = previous_word(
            v[at % 16],
            v[(at + 14) % 16],
            v[(at + 9) % 16],
            v[(at + 1) % 16],
            at as u32,
        );
    }
    v
}

// T/2.
fn half_table(cipher: Cipher) -> usize
    ensures { Window.IsHalf cipher result }
{
    cipher.table_words() / 2
}

// The word at place k, made of words before it, where the first word is Wn and w2 the word at place k - 2.
fn next_at(words: &[u32], k: usize, w2: u32, n: usize) -> u32
    requires { (16 ≤ k) × (k ≤ length words.now) × (n + k ≤ 4096) }
    ensures { result ≡ Window.next_at words.now k w2 n }
{
    next_word(
        w2,
        words[k - 7],
        words[k - 15],
        words[k - 16],
        (n + k) as u32,
    )
}

// Makes each word from the seventeenth on of the sixteen before it, where the first word is Wn: four in a row, the last two carried.
#[tactic(auto, using(crate::proofs::Run::going_four))]
fn go_on(words: &mut [u32], n: usize)
    requires { (16 ≤ length words.old) × (length words.old % 4 ≡ 0) × (n + length words.old ≤ 4096) }
    ensures { (take 16 words.new ≡ take 16 words.old) × Window.Run n words.new }
{
    let mut w2 = words[14];
    let mut w1 = words[15];
    for j in 4..words.len() / 4 {
        let k = 4 * j;
        w2 = next_at(words, k, w2, n);
        words[k] = w2;
        w1 = next_at(words, k + 1, w1, n);
        words[k + 1] = w1;
        w2 = next_at(words, k + 2, w2, n);
        words[k + 2] = w2;
        w1 = next_at(words, k + 3, w1, n);
        words[k + 3] = w1;
    }
}

// The sixteen words after w, whose first is Wn.
fn sixteen_more(w: [u32; 16], n: usize) -> [u32; 16]
    requires { n + 32 ≤ 4096 }
    ensures { Window.Run n (w ++ result) }
{
    let mut words = [0u32; 32];
    words[..16].copy_from_slice(&w);
    go_on(&mut words, n);
    *words.last_chunk().unwrap()
}

// Fills the area with the words after the sixteen words w, whose first is Wn, and hands back the last sixteen.
fn expand(w: [u32; 16], n: usize, area: &mut [u32]) -> [u32; 16]
    requires { (16 ≤ length area.old) × (length area.old % 4 ≡ 0) × (n + 16 + length area.old ≤ 4096) }
    ensures { Window.Run n (w ++ area.new) × (result ≡ drop (length area.new - 16) area.new) }
{
    let first = sixteen_more(w, n);
    area[..16].copy_from_slice(&first);
    go_on(area, n + 16);
    *area.last_chunk().unwrap()
}

// Fills the area with the expansion of W0..15 from W(T/2) on; the words before W(T/2) are made in the area and do not stay.
pub fn fill(cipher: Cipher, w: [u32; 16], area: &mut [u32])
    requires { length area.old ≡ area_length cipher }
    ensures { area.new ≡ Expansion.filled cipher w }
{
    let half = half_table(cipher);
    let v = expand(w, 0, &mut area[..half - 16]);
    expand(v, half - 16, &mut area[..cipher.expansion_words() - half]);
}

// Whether all of the area is the expansion of the words that it leads back to: from the seventeenth on, each is made of those before it.
fn is_expansion(cipher: Cipher, area: &[u32]) -> bool
    requires { length area.now ≡ area_length cipher }
    ensures { result ≡ same area.now (Expansion.filled cipher (Origin.origin cipher area.now)) }
{
    let half = half_table(cipher);
    for k in 16..area.len() {
        let next = next_at(area, k, area[k - 2], half);
        if area[k] != next {
            return false;
        }
    }
    true
}

// The sixteen words that an area leads back to: `Ok` where they fill all of it and stand twice where they have to, else `Err`.
pub fn origin(cipher: Cipher, area: &[u32]) -> Result<[u32; 16], [u32; 16]>
    requires { length area.now ≡ area_length cipher }
    ensures { result ≡ Origin.if_filled cipher area.now }
{
    let half = half_table(cipher);
    let words = unexpand(*area.first_chunk().unwrap(), 16, half);
    let filled = is_expansion(cipher, area) & keys::doubled(cipher, words);
    if filled { Ok(words) } else { Err(words) }
}

// The exclusive or of lent bytes with the keystream from any byte position.
#![tactic(auto)]

ghost use Rattle.std.specs.Prelude.{◌≡◌, ◌+◌, ◌*◌, ◌%◌, ◌^◌, ◌≤◌, ◌<◌, length};
ghost use Rattle.cipher.specs.Numbers.{table_length, area_length};
ghost use Rattle.tables.specs.Area.{changes_p, indices_at, Within};
ghost use Rattle.carried.specs.Carried.{carried, five_of};
ghost use Rattle.carried.specs.Runs.{NoneWraps};
ghost use Rattle.carried.specs.Steps.{call_step, call_output};
ghost use Rattle.carried.specs.Runs.{Taken, run_step, run_output};
ghost use Rattle.steps.specs.Steps as Steps;
ghost use Rattle.keystream.specs.Keystream as Keystream;
ghost use Rattle.keystream.specs.Stores as Stores;
ghost use Rattle.keystream.specs.Stores.{xor_part, Worded, Begun};

use cipher::Cipher;
use tables::Indices;

// The n bytes from place start on with the bytes of w from byte `from` on.
fn xor_part(bytes: &mut [u8], start: usize, n: usize, w: u32, from: usize)
    requires { (start + n ≤ length bytes.old) × (from + n ≤ 4) }
    ensures { bytes.new ≡ Stores.xor_part start n w from bytes.old }
{
    for k in 0..n {
        bytes[start + k] ^= word::byte(w, (from + k) as u32) as u8;
    }
}

// The four bytes from place start on with the bytes of w.
fn xor_word(bytes: &mut [u8], start: usize, w: u32)
    requires { start + 4 ≤ length bytes.old }
    ensures { bytes.new ≡ Stores.xor_part start 4 w 0 bytes.old }
{
    let [b0, b1, b2, b3] = word::to_bytes(w);
    bytes[start] ^= b0;
    bytes[start + 1] ^= b1;
    bytes[start + 2] ^= b2;
    bytes[start + 3] ^= b3;
}

// The bytes that lie in the word w, which position p is inside; their number.
fn finish_word(p: usize, w: u32, bytes: &mut [u8]) -> usize
    ensures { Stores.Finished bytes.old p w result bytes.new }
{
    if p % 4 == 0 {
        return 0;
    }
    let n = (4 - p % 4).min(bytes.len());
    xor_part(bytes, 0, n, w, p % 4);
    n
}

// The five indices of the next step, and the last output.
#[derive(Clone, Copy)]
struct Next {
    five: Indices,
    last: u32,
}

// The step with the five indices x, where p tells whether P changes; the word at place start with its output; that output.
fn xor_one(
    cipher: Cipher,
    p: bool,
    area: &mut [u32],
    x: Indices,
    bytes: &mut [u8],
    start: usize,
) -> u32
    requires { (length area.old ≡ area_length cipher) × Within (table_length cipher) x × (start + 4 ≤ length bytes.old) }
    ensures { Taken cipher p area.old x area.new result × (bytes.new ≡ xor_part start 4 result 0 bytes.old) }
{
    let w = carried::word_alone(cipher, p, area, x);
    xor_word(bytes, start, w);
    w
}

// n words from place start on, each with the output of its step, where n is a multiple of four and none of the five indices wraps in n steps from
// `next` on; the five are carried from each step to the next, and four steps stand in a row. p tells whether P changes.
fn xor_run(
    cipher: Cipher,
    p: bool,
    area: &mut [u32],
    mut next: Next,
    bytes: &mut [u8],
    start: usize,
    n: usize,
) -> Next
    requires { (length area.old ≡ area_length cipher) × NoneWraps (table_length cipher) next.five n × (n % 4 ≡ 0)
        × (start + 4 * n ≤ length bytes.old) }
    ensures { Worded (run_step cipher p next.five) (run_output cipher p next.five) area.old bytes.old 0 start n next.last
        area.new bytes.new result.last
        × (result.five ≡ carried (table_length cipher) next.five n) }
{
    for m in 0..n / 4 {
        for q in 0..4 {
            next.last = carried::word_in_run(cipher, p, area, next.five);
            xor_word(bytes, start + 4 * (4 * m + q), next.last);
            next.five = carried::carry_unwrapped(next.five);
        }
    }
    next
}

// n words from place start on, each with the output of its step, from step i on, whose five indices are in `next`. The five of a later step are worked
// out from its number where it is the first of a turn, and carried inside the turn: four steps in a row where none wraps in them, and else step by
// step. The loop is no `for`, since a turn of it takes one step or many.
fn xor_words(
    cipher: Cipher,
    area: &mut [u32],
    i: usize,
    mut next: Next,
    bytes: &mut [u8],
    start: usize,
    n: usize,
) -> Next
    requires { (length area.old ≡ area_length cipher) × (next.five ≡ indices_at (table_length cipher) i) × (i + n < 2 ^ 64)
        × (start + 4 * n ≤ length bytes.old) }
    ensures { Worded (call_step cipher i) (call_output cipher i) area.old bytes.old 0 start n next.last
        area.new bytes.new result.last
        × (result.five ≡ five_of (table_length cipher) i n) }
{
    let mut k = 0;
    while k < n {
        let p = tables::changes_p(cipher, i + k);
        let m = (n - k).min(carried::before_wrap(cipher, next.five));
        if m < 4 {
            next.last = xor_one(cipher, p, area, next.five, bytes, start + 4 * k);
            next.five = carried::next_five(cipher, i + k, next.five, m);
            k += 1;
        } else {
            let fours = m - m % 4;
            next = xor_run(cipher, p, area, next, bytes, start + 4 * k, fours);
            k += fours;
        }
    }
    next
}

// The last n bytes, fewer than four, with the first bytes of the output of step i, which is taken, with the five indices in `next`, only where there
// are any; that output, or the last one where there are none.
fn begin_word(
    cipher: Cipher,
    area: &mut [u32],
    i: usize,
    next: Next,
    bytes: &mut [u8],
    n: usize,
) -> u32
    requires { (length area.old ≡ area_length cipher) × Within (table_length cipher) next.five × (n < 4) × (n ≤ length bytes.old) }
    ensures { Begun (run_step cipher (changes_p (table_length cipher) i) next.five) (run_output cipher (changes_p (table_length cipher) i) next.five)
        area.old bytes.old 0 n next.last area.new bytes.new result }
{
    if n == 0 {
        return next.last;
    }
    let first = carried::word(cipher, tables::changes_p(cipher, i), area, next.five);
    xor_part(bytes, bytes.len() - n, n, first, 0);
    first
}

// Each lent byte with its keystream byte, from position p on, where the area holds the tables at p and w is the word of p; the word of the end.
pub fn xor_keystream(cipher: Cipher, area: &mut [u32], p: usize, w: u32, bytes: &mut [u8]) -> u32
    requires { (length area.old ≡ area_length cipher) × (p + length bytes.old < 2 ^ 63) × (w ≡ Steps.word_at cipher area.old p) }
    ensures { Keystream.CipheredFrom cipher area.old p bytes.old area.new bytes.new result }
{
    let start = finish_word(p, w, bytes);
    let left = bytes.len() - start;
    if left == 0 {
        return w;
    }
    let i = steps::steps_at(p);
    let n = left / 4;
    let first = Next {
        five: Indices::at(cipher, i),
        last: w,
    };
    let next = xor_words(cipher, area, i, first, bytes, start, n);
    begin_word(cipher, area, i + n, next, bytes, left % 4)
}

// The functions g and h of the two ciphers, and with them the feedback and h(A[j-12]) by cipher, where P changes or Q.
#![tactic(auto)]

ghost use Rattle.std.specs.Prelude.{◌≡◌, ◌+◌, ◌≤◌, ◌<◌, length};
ghost use Rattle.cipher.specs.Numbers.{table_length, area_length};
ghost use Rattle.functions.specs.Functions as Functions;
ghost use Rattle.functions.specs.Functions.{table};
ghost use Rattle.functions.specs.ByCipher as ByCipher;

use cipher::Cipher;

// HC-128's rotation by n bits, to the right where P changes and else to the left.
fn rotate(p: bool, x: u32, n: u32) -> u32
    requires { (0 < n) × (n < 32) }
    ensures { result ≡ Functions.rotation p n x }
{
    if p {
        word::rotate_right(x, n)
    } else {
        word::rotate_left(x, n)
    }
}

// g of HC-128, where p tells whether P changes.
fn g_128(p: bool, x: u32, y: u32, z: u32) -> u32
    ensures { result ≡ Functions.g128 (Functions.rotation p) x y z }
{
    (rotate(p, x, 10) ^ rotate(p, z, 23)).wrapping_add(rotate(p, y, 8))
}

// g of HC-256, where the table that is looked up begins at b.
pub fn g_256(area: &[u32], b: usize, x: u32, y: u32) -> u32
    requires { b + 1024 ≤ length area.now }
    ensures { result ≡ Functions.g256 (table area.now b) x y }
{
    let rotated = word::rotate_right(x, 10) ^ word::rotate_right(y, 23);
    rotated.wrapping_add(area[b + ((x ^ y) % 1024) as usize])
}

// h of HC-128, where the table that is looked up begins at b.
fn h_128(area: &[u32], b: usize, x: u32) -> u32
    requires { b + 512 ≤ length area.now }
    ensures { result ≡ Functions.h128 (table area.now b) x }
{
    let [x0, _, x2, _] = word::to_bytes(x);
    area[b + usize::from(x0)].wrapping_add(area[b + 256 + usize::from(x2)])
}

// h of HC-256, where the table that is looked up begins at b.
fn h_256(area: &[u32], b: usize, x: u32) -> u32
    requires { b + 1024 ≤ length area.now }
    ensures { result ≡ Functions.h256 (table area.now b) x }
{
    let [x0, x1, x2, x3] = word::to_bytes(x);
    area[b + usize::from(x0)]
        .wrapping_add(area[b + 256 + usize::from(x1)])
        .wrapping_add(area[b + 512 + usize::from(x2)])
        .wrapping_add(area[b + 768 + usize::from(x3)])
}

// The word w with d put on it, or taken off where `back` holds.
fn put(back: bool, w: u32, d: u32) -> u32
    ensures { result ≡ ByCipher.put back w d }
{
    if back {
        w.wrapping_sub(d)
    } else {
        w.wrapping_add(d)
    }
}

// The word w with the feedback put on it, or taken off where `back` holds; x, y and z are A[j-3], A[j-10] and A[j+1], and p tells whether P changes.
// Each case is told apart by a test, so that in a loop's copy for that case the table looked up begins at a constant; as a part of the area its place
// is one more variable of the loop, and HC-256 slower. `back` is a constant at each call, and the word is given so that the sum can be ordered.
#[tactic(auto, unfolding(crate::specs::ByCipher::feedback_of))]
pub fn with_feedback(
    cipher: Cipher,
    back: bool,
    area: &[u32],
    p: bool,
    x: u32,
    y: u32,
    z: u32,
    w: u32,
) -> u32
    requires { length area.now ≡ area_length cipher }
    ensures { result ≡ ByCipher.put back w (ByCipher.feedback_of cipher p area.now x y z) }
{
    match (cipher, p) {
        (Cipher::Hc128, true) => put(back, w, g_128(true, x, y, z)),
        (Cipher::Hc128, false) => put(back, w, g_128(false, x, y, z)),
        (Cipher::Hc256, true) => put(back, w, y.wrapping_add(g_256(area, 1024, x, z))),
        (Cipher::Hc256, false) => put(back, w, y.wrapping_add(g_256(area, 0, x, z))),
    }
}

// h(x), where the words lent begin with the table that is looked up.
#[tactic(auto, unfolding(crate::specs::ByCipher::h_of))]
pub fn h(cipher: Cipher, words: &[u32], x: u32) -> u32
    requires { table_length cipher ≤ length words.now }
    ensures { result ≡ ByCipher.h_of cipher (table words.now 0) x }
{
    match cipher {
        Cipher::Hc128 => h_128(words, 0, x),
        Cipher::Hc256 => h_256(words, 0, x),
    }
}

// h(x), where p tells whether P changes.
#[tactic(auto, unfolding(crate::specs::ByCipher::filter_of, crate::specs::ByCipher::h_of))]
pub fn filter(cipher: Cipher, area: &[u32], p: bool, x: u32) -> u32
    requires { length area.now ≡ area_length cipher }
    ensures { result ≡ ByCipher.filter_of cipher p area.now x }
{
    match (cipher, p) {
        (Cipher::Hc128, true) => h_128(area, 512, x),
        (Cipher::Hc128, false) => h_128(area, 0, x),
        (Cipher::Hc256, true) => h_256(area, 1024, x),
        (Cipher::Hc256, false) => h_256(area, 0, x),
    }
}

// Key and IV to W0..15, and back.
#![tactic(auto)]

ghost use Rattle.std.specs.Prelude.{◌≡◌, ◌+◌, ◌*◌, ◌/◌, ◌<◌, ◌≤◌, length, take, drop, get_or};
ghost use Rattle.laws.specs.Same.{same};
ghost use Rattle.word.specs.Bytes as Bytes;
ghost use Rattle.cipher.specs.Numbers.{key_length, iv_length};
ghost use Rattle.keys.specs.Key as Key;

use cipher::Cipher;

// Word k of a string of bytes.
#[tactic(auto, using(word::proofs::Bytes::words_at))]
fn word_at(b: &[u8], k: usize) -> u32
    requires { (4 * k + 3 < length b.now) × (k < 16) }
    ensures { result ≡ get_or (Bytes.words b.now) k 0 }
{
    let at = 4 * k;
    word::from_bytes(b[at], b[at + 1], b[at + 2], b[at + 3])
}

// The words of a key, and of an IV.
fn key_words(cipher: Cipher) -> usize
    ensures { (result ≡ key_length cipher / 4) × (0 < result) × (result ≤ 8) × (4 * result ≡ key_length cipher) × (4 * result ≡ iv_length cipher) }
{
    cipher.key_bytes() / 4
}

// W0..15 of a key and an IV.
#[tactic(auto, using(crate::proofs::Sixteen::sixteen_is))]
pub fn sixteen_words(cipher: Cipher, key: &[u8], iv: &[u8]) -> [u32; 16]
    requires { (length key.now ≡ key_length cipher) × (length iv.now ≡ iv_length cipher) }
    ensures { result ≡ Key.sixteen cipher key.now iv.now }
{
    let n = key_words(cipher);
    let mut w = [0u32; 16];
    for k in 0..8 {
        w[k] = word_at(key, k % n);
        w[8 + k] = word_at(iv, k % n);
    }
    w
}

// Fills `out` with the bytes of the first of these words.
fn store_bytes(words: &[u32], out: &mut [u8])
    requires { (length out.old ≤ 4 * length words.now) × (4 * (length out.old / 4) ≡ length out.old) }
    ensures { out.new ≡ Bytes.bytes (take (length out.old / 4) words.now) }
{
    for (j, byte) in out.iter_mut().enumerate() {
        *byte = word::byte(words[j / 4], (j % 4) as u32) as u8;
    }
}

// Fills the two buffers with the key and the IV of W0..15.
#[tactic(auto, unfolding(crate::specs::Key::key_of, crate::specs::Key::iv_of))]
pub fn store_key_and_iv(cipher: Cipher, w: [u32; 16], key: &mut [u8], iv: &mut [u8])
    requires { (length key.old ≡ key_length cipher) × (length iv.old ≡ iv_length cipher) }
    ensures { (key.new ≡ Key.key_of cipher w) × (iv.new ≡ Key.iv_of cipher w) }
{
    store_bytes(&w, key);
    store_bytes(&w[8..], iv);
}

// Whether the words that have to stand twice do.
#[tactic(auto, using(crate::proofs::Sixteen::doubled_is), unfolding(crate::specs::Key::doubled))]
pub fn doubled(cipher: Cipher, w: [u32; 16]) -> bool
    ensures { result ≡ Key.doubled cipher w }
{
    match cipher {
        Cipher::Hc128 => w[..4] == w[4..8] && w[8..12] == w[12..],
        Cipher::Hc256 => true,
    }
}

// Words of 32 bits: sums and differences modulo 2^32, rotations, f1 and f2, and their bytes, least significant first.
#![tactic(auto)]

ghost use Rattle.std.specs.Prelude.{◌≡◌, ◌<◌, [], ◌∷◌};
ghost use Rattle.word.specs.Word as Word;
ghost use Rattle.word.specs.Word.{◌⊞◌, ◌⊟◌};
ghost use Rattle.word.specs.Bytes as Bytes;

// x + y modulo 2^32.
pub fn sum(x: u32, y: u32) -> u32
    ensures { result ≡ x ⊞ y }
{
    x.wrapping_add(y)
}

// x - y modulo 2^32.
pub fn difference(x: u32, y: u32) -> u32
    ensures { result ≡ x ⊟ y }
{
    x.wrapping_sub(y)
}

// x rotated right by n bits, n from 1 to 31.
pub fn rotate_right(x: u32, n: u32) -> u32
    requires { (0 < n) × (n < 32) }
    ensures { result ≡ Word.R n x }
{
    x.rotate_right(n)
}

// x rotated left by n bits, n from 1 to 31.
pub fn rotate_left(x: u32, n: u32) -> u32
    requires { (0 < n) × (n < 32) }
    ensures { result ≡ Word.L n x }
{
    x.rotate_left(n)
}

// f1 of the expansion.
#[tactic(auto, unfolding(crate::specs::Word::f1))]
pub fn f1(x: u32) -> u32
    ensures { result ≡ Word.f1 x }
{
    rotate_right(x, 7) ^ rotate_right(x, 18) ^ (x >> 3)
}

// f2 of the expansion.
#[tactic(auto, unfolding(crate::specs::Word::f2))]
pub fn f2(x: u32) -> u32
    ensures { result ≡ Word.f2 x }
{
    rotate_right(x, 17) ^ rotate_right(x, 19) ^ (x >> 10)
}

// Byte k of x, k from 0, the lowest, to 3.
pub fn byte(x: u32, k: u32) -> u32
    requires { k < 4 }
    ensures { (result ≡ Bytes.byte k x) × (result < 256) }
{
    (x >> (8 * k)) % 256
}

// The word of four bytes, least significant first.
pub fn from_bytes(b0: u8, b1: u8, b2: u8, b3: u8) -> u32
    ensures { result ≡ Bytes.word b0 b1 b2 b3 }
{
    u32::from_le_bytes([b0, b1, b2, b3])
}

// The four bytes of a word, least significant first.
pub fn to_bytes(x: u32) -> [u8; 4]
    ensures { result ≡ Bytes.byte 0 x ∷ Bytes.byte 1 x ∷ Bytes.byte 2 x ∷ Bytes.byte 3 x ∷ [] }
{
    x.to_le_bytes()
}

// From the tables at a position back to the sixteen words of their key and IV: of an area that stays, or of the words of a checkpoint.
#![tactic(auto)]

ghost use Rattle.std.specs.Prelude.{◌≡◌, ◌++◌, ◌+◌, ◌-◌, ◌*◌, ◌^◌, ◌≤◌, ◌<◌, length, take, drop, replicate};
ghost use Rattle.word.specs.Bytes.{words};
ghost use Rattle.cipher.specs.Numbers.{area_length};
ghost use Rattle.recovery.specs.Recovery.{found_at};

use cipher::Cipher;

// The sixteen words that the tables at a position lead back to: `Ok` where they are those of a key and an IV, else `Err`; the area is used up.
fn undo_at(cipher: Cipher, position: usize, area: &mut [u32]) -> Result<[u32; 16], [u32; 16]>
    requires { (length area.old ≡ area_length cipher) × (position < 2 ^ 63) }
    ensures { result ≡ found_at cipher area.old position }
{
    let n = steps::steps_at(position);
    steps::retreat(cipher, area, 0, n);
    setup::undo_set_up(cipher, area)
}

// The sixteen words that the tables of an area at a position lead back to; the area stays, and the copy that is used up is on the stack.
pub fn of_area(cipher: Cipher, position: usize, area: &[u32]) -> Result<[u32; 16], [u32; 16]>
    requires { (length area.now ≡ area_length cipher) × (position < 2 ^ 63) }
    ensures { result ≡ found_at cipher area.now position }
{
    let mut scratch = [0u32; 2048];
    let copy = &mut scratch[..cipher.area_words()];
    copy.copy_from_slice(area);
    undo_at(cipher, position, copy)
}

// The sixteen words that the tables in a string, from place `from` on, lead back to at a position; the area that is used up is on the stack.
pub fn of_string(
    cipher: Cipher,
    position: usize,
    string: &[u8],
    from: usize,
) -> Result<[u32; 16], [u32; 16]>
    requires { (from + 4 * area_length cipher ≡ length string.now) × (position < 2 ^ 63) }
    ensures { result ≡ found_at cipher (words (drop from string.now)) position }
{
    let mut scratch = [0u32; 2048];
    let area = &mut scratch[..cipher.area_words()];
    checkpoint::read_words(string, from, area);
    undo_at(cipher, position, area)
}

// Eight words, of which n are those of w from place `from` on and the others 0.
pub fn eight_words(w: [u32; 16], from: usize, n: usize) -> [u32; 8]
    requires { (from ≤ 8) × (n ≤ 8) }
    ensures { result ≡ take n (drop from w) ++ replicate (8 - n) 0 }
{
    let mut out = [0u32; 8];
    out[..n].copy_from_slice(&w[from..from + n]);
    out
}

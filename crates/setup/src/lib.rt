// Whole set-up, key and IV to tables, and its undoing, tables to key and IV or none.
#![tactic(auto)]

ghost use Rattle.std.specs.Prelude.{◌≡◌, length};
ghost use Rattle.cipher.specs.Numbers.{area_length, key_length, iv_length};
ghost use Rattle.setup.specs.SetUp as SetUp;
ghost use Rattle.setup.specs.LedBack.{LedBack};

use cipher::Cipher;

// The area of a key and an IV.
#[tactic(auto, unfolding(crate::specs::SetUp::set_up))]
pub fn set_up(cipher: Cipher, key: &[u8], iv: &[u8], area: &mut [u32])
    requires { (length key.now ≡ key_length cipher) × (length iv.now ≡ iv_length cipher) × (length area.old ≡ area_length cipher) }
    ensures { area.new ≡ SetUp.set_up cipher key.now iv.now }
{
    let w = keys::sixteen_words(cipher, key, iv);
    schedule::fill(cipher, w, area);
    last_pass::last_pass(cipher, area);
}

// The last pass undone in the area, and the sixteen words that what it leaves leads back to: `Ok` where they fill it, else `Err`.
pub fn undo_set_up(cipher: Cipher, area: &mut [u32]) -> Result<[u32; 16], [u32; 16]>
    requires { length area.old ≡ area_length cipher }
    ensures { LedBack cipher area.old area.new result }
{
    last_pass::undo_last_pass(cipher, area);
    schedule::origin(cipher, area)
}

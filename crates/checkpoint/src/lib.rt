// The checkpoint as a string of bytes: written from its parts, and its words read back.
#![tactic(auto)]

ghost use Rattle.std.specs.Prelude.{◌≡◌, ◌∷◌, [], ◌+◌, ◌*◌, ◌≤◌, length, drop};
ghost use Rattle.std.proofs.lemmas.List.Edits.{sets};
ghost use Rattle.laws.specs.Lent.{put_first};
ghost use Rattle.word.specs.Bytes.{bytes, words};
ghost use Rattle.cipher.specs.Numbers.{area_length};
ghost use Rattle.checkpoint.specs.Checkpoint as Checkpoint;

use cipher::Cipher;

// The length of a checkpoint: 1, plus the groups of the position, plus 4 times 2T.
pub fn length_of(cipher: Cipher, position: u64) -> usize
    ensures { result ≡ Checkpoint.length_of cipher position }
{
    1 + varint::count_groups(position) + 4 * cipher.area_words()
}

// Writes words from place `at` on, one after another, each least significant byte first.
#[tactic(auto, using(crate::proofs::Stores::word_more), unfolding(word::specs::Bytes::bytes))]
fn put_words(out: &mut [u8], at: usize, area: &[u32])
    requires { (at + 4 * length area.now ≤ length out.old) × (length area.now ≤ 2048) }
    ensures { out.new ≡ sets out.old at (bytes area.now) }
{
    for (k, word) in area.iter().enumerate() {
        let b = word::to_bytes(*word);
        let place = at + 4 * k;
        out[place..place + 4].copy_from_slice(&b);
    }
}

// Puts the checkpoint at the start of the lent bytes; later bytes stay.
#[tactic(auto, using(crate::proofs::Checkpoint::layout_length, crate::proofs::Checkpoint::layout_stored))]
pub fn write_checkpoint(cipher: Cipher, position: u64, area: &[u32], lent: &mut [u8])
    requires { (length area.now ≡ area_length cipher) × (Checkpoint.length_of cipher position ≤ length lent.old) }
    ensures { lent.new ≡ put_first (Checkpoint.layout cipher position area.now) lent.old }
{
    lent[0] = cipher.row().code;
    let at = varint::write_number(position, lent, 1);
    put_words(lent, at, area);
}

// Fills the area with the words of a string from place `from` on, least significant byte first.
#[tactic(auto, using(crate::proofs::Words::word_read))]
pub fn read_words(string: &[u8], from: usize, area: &mut [u32])
    requires { (from + 4 * length area.old ≡ length string.now) × (length area.old ≤ 2048) }
    ensures { area.new ≡ words (drop from string.now) }
{
    for (j, word) in area.iter_mut().enumerate() {
        let at = from + 4 * j;
        *word = word::from_bytes(string[at], string[at + 1], string[at + 2], string[at + 3]);
    }
}

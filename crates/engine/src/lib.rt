// The engine: a head and its table area, the seven calls of document 01, the enciphering of a volume, and the length of a checkpoint. All but the
// last receive the head and hand back the next one beside their answer. A refused call answers its refusal, and head, area and every lent byte keep
// their values.
#![tactic(auto)]

ghost use Rattle.std.specs.Prelude.{◌≡◌};
ghost use Rattle.engine.specs.Head as Heads;
ghost use Rattle.engine.specs.Calls as Calls;
ghost use Rattle.engine.specs.Outcomes as Outcomes;

pub mod answers;

use answers::{Keys, Next};
use conditions::Beginning;
use refusal::Refusal;

// The head: cipher code; the word we are inside, which is the output of the step last taken and 0 at position 0; position; and the mark, which is the
// farthest byte that a cipher call reached since the last set up or load. The order needs no padding. Heads are made by the constructors below.
#[repr(C)]
#[derive(Clone, Copy, Debug, PartialEq, Eq)]
pub struct Head {
    pub code: u32,
    pub word: u32,
    pub position: u64,
    pub mark: u64,
}

// The length of a checkpoint of a cipher code at a position: what write takes there at least, and gives.
#[tactic(auto, using(crate::proofs::Calls::length_refused))]
pub fn checkpoint_length(code: u32, position: u64) -> Result<usize, Refusal>
    ensures { Outcomes.told result ≡ Calls.checkpoint_length_call code position }
{
    let cipher = conditions::head_check(code, position)?;
    Ok(checkpoint::length_of(cipher, position))
}

// The mark after a cipher call of n bytes: the larger of the mark and the end, and the mark itself where n is 0.
#[tactic(auto, using(crate::proofs::Calls::mark_left, crate::proofs::Calls::mark_raised))]
fn mark_after(mark: u64, end: u64, n: u64) -> u64
    ensures { result ≡ Heads.mark_after mark end n }
{
    if n == 0 { mark } else { mark.max(end) }
}

impl Head {
    // The stream limit in bytes.
    pub const LIMIT: u64 = conditions::LIMIT;

    // A head of a cipher code at a position, with a word and a mark.
    pub fn at(code: u32, position: u64, word: u32, mark: u64) -> Self
        ensures { result ≡ Heads.head_at code position word mark }
    {
        Head {
            code,
            word,
            position,
            mark,
        }
    }

    // A head before any set up or load.
    pub fn fresh() -> Self
        ensures { result ≡ Heads.fresh_head }
    {
        Head::at(0, 0, 0, 0)
    }

    // Sets up an area with a key and an IV; position and mark become 0.
    pub fn set_up(mut self, code: u32, key: &[u8], iv: &[u8], area: &mut [u32]) -> Next<()>
        ensures { Outcomes.done result.answer result.head area.new
            ≡ Calls.set_up_call self code key.now iv.now area.old }
    {
        let answer = self.set_up_here(code, key, iv, area);
        Next { head: self, answer }
    }

    // Replaces each lent byte by its exclusive or with the keystream byte, and advances by their number. A call of one byte or more makes the mark
    // the larger of the mark and its end.
    pub fn cipher(mut self, area: &mut [u32], bytes: &mut [u8]) -> Next<()>
        ensures { Outcomes.ciphered result.answer result.head area.new bytes.new
            ≡ Calls.cipher_call self area.old bytes.old }
    {
        let answer = self.cipher_here(area, bytes);
        Next { head: self, answer }
    }

    // Enciphers a written volume in its buffer: the bytes are read as a volume, and then it is the cipher call of these bytes.
    pub fn encipher_volume(mut self, area: &mut [u32], bytes: &mut [u8]) -> Next<()>
        ensures { Outcomes.ciphered result.answer result.head area.new bytes.new
            ≡ Calls.encipher_volume_call self area.old bytes.old }
    {
        let answer = self.encipher_here(area, bytes);
        Next { head: self, answer }
    }

    // Moves the tables by a signed distance in bytes, and leaves the mark.
    pub fn move_by(mut self, area: &mut [u32], distance: i64) -> Next<()>
        ensures { Outcomes.done result.answer result.head area.new
            ≡ Calls.move_call self area.old distance }
    {
        let answer = self.move_here(area, distance);
        Next { head: self, answer }
    }

    // Puts the checkpoint at the start of the lent bytes and gives its length; later bytes stay.
    pub fn write(self, area: &[u32], lent: &mut [u8]) -> Next<usize>
        ensures { Outcomes.written result.answer result.head area.now lent.new
            ≡ Calls.write_call self area.now lent.old }
    {
        Next {
            head: self,
            answer: self.put_checkpoint(area, lent),
        }
    }

    // Fills area and head from a checkpoint, and gives its key and IV; the mark becomes the loaded position.
    pub fn load(mut self, area: &mut [u32], string: &[u8]) -> Next<Keys>
        ensures { Outcomes.loaded result.answer result.head area.new
            ≡ Calls.load_call self string.now area.old }
    {
        let answer = self.load_here(area, string);
        Next { head: self, answer }
    }

    // Fills the two buffers with the key and the IV of the tables; the tables stay.
    pub fn recover(self, area: &[u32], key: &mut [u8], iv: &mut [u8]) -> Next<()>
        ensures { Outcomes.recovered result.answer result.head area.now key.new iv.new
            ≡ Calls.recover_call self area.now key.old iv.old }
    {
        Next {
            head: self,
            answer: self.put_key_and_iv(area, key, iv),
        }
    }

    // The farthest byte that a cipher call reached since the last set up or load, which is the mark.
    #[tactic(auto, using(crate::proofs::Calls::spent_refused, crate::proofs::Calls::spent_done))]
    pub fn spent(self) -> Next<u64>
        ensures { Outcomes.counted result.answer result.head ≡ Calls.spent_call self }
    {
        let answer = conditions::head_check(self.code, self.position).map(|_| self.mark);
        Next { head: self, answer }
    }

    // Set up of a head in its place. Where it or another call below is refused, the head stays.
    #[tactic(auto, using(crate::proofs::Calls::set_up_refused))]
    fn set_up_here(
        &mut self,
        code: u32,
        key: &[u8],
        iv: &[u8],
        area: &mut [u32],
    ) -> Result<(), Refusal>
        ensures { Outcomes.done result self.new area.new
            ≡ Calls.set_up_call self.old code key.now iv.now area.old }
    {
        let cipher = conditions::set_up_check(code, key.len(), iv.len(), area.len())?;
        setup::set_up(cipher, key, iv, area);
        *self = Head::at(code, 0, 0, 0);
        Ok(())
    }

    // Cipher on a head in its place.
    #[tactic(auto, using(crate::proofs::Calls::cipher_refused, crate::proofs::Calls::cipher_past))]
    fn cipher_here(&mut self, area: &mut [u32], bytes: &mut [u8]) -> Result<(), Refusal>
        ensures { Outcomes.ciphered result self.new area.new bytes.new
            ≡ Calls.cipher_call self.old area.old bytes.old }
    {
        let cipher = conditions::ready_with_word(self.code, self.position, self.word, area)?;
        let n = bytes.len() as u64;
        if Self::LIMIT - self.position < n {
            return Err(Refusal::PastLimit);
        }
        let at = self.position as usize;
        let last = keystream::xor_keystream(cipher, area, at, self.word, bytes);
        let end = self.position + n;
        *self = Head::at(self.code, end, last, mark_after(self.mark, end, n));
        Ok(())
    }

    // Encipher volume on a head in its place.
    #[tactic(auto, using(crate::proofs::Calls::encipher_refused, crate::proofs::Calls::encipher_checked))]
    fn encipher_here(&mut self, area: &mut [u32], bytes: &mut [u8]) -> Result<(), Refusal>
        ensures { Outcomes.ciphered result self.new area.new bytes.new
            ≡ Calls.encipher_volume_call self.old area.old bytes.old }
    {
        volume::check_volume(bytes)?;
        self.cipher_here(area, bytes)
    }

    // Move of a head in its place.
    #[tactic(auto, using(crate::proofs::Calls::move_refused, crate::proofs::Calls::move_unreached))]
    fn move_here(&mut self, area: &mut [u32], distance: i64) -> Result<(), Refusal>
        ensures { Outcomes.done result self.new area.new
            ≡ Calls.move_call self.old area.old distance }
    {
        let cipher = conditions::ready_with_word(self.code, self.position, self.word, area)?;
        let to = conditions::end_of(self.position, distance)?;
        steps::move_tables(cipher, area, self.position as usize, to as usize);
        let moved = steps::word_at(cipher, area, to as usize);
        *self = Head::at(self.code, to, moved, self.mark);
        Ok(())
    }

    // What write answers; no head changes.
    #[tactic(auto, using(crate::proofs::Calls::write_refused, crate::proofs::Calls::write_small))]
    fn put_checkpoint(self, area: &[u32], lent: &mut [u8]) -> Result<usize, Refusal>
        ensures { Outcomes.written result self area.now lent.new
            ≡ Calls.write_call self area.now lent.old }
    {
        let cipher = conditions::ready_with_word(self.code, self.position, self.word, area)?;
        let length = checkpoint::length_of(cipher, self.position);
        if lent.len() < length {
            return Err(Refusal::LittleRoom);
        }
        checkpoint::write_checkpoint(cipher, self.position, area, lent);
        Ok(length)
    }

    // Load into a head in its place.
    #[tactic(auto, using(crate::proofs::Calls::load_refused, crate::proofs::Calls::load_none))]
    fn load_here(&mut self, area: &mut [u32], string: &[u8]) -> Result<Keys, Refusal>
        ensures { Outcomes.loaded result self.new area.new
            ≡ Calls.load_call self.old string.now area.old }
    {
        let Beginning {
            cipher,
            position,
            next,
        } = conditions::load_check(string, area.len())?;
        let found = recovery::of_string(cipher, position as usize, string, next);
        let Ok(words) = found else {
            return Err(Refusal::NoKey);
        };
        checkpoint::read_words(string, next, area);
        let word = steps::word_at(cipher, area, position as usize);
        *self = Head::at(cipher.code(), position, word, position);
        Ok(Keys {
            key: recovery::eight_words(words, 0, cipher.key_bytes() / 4),
            iv: recovery::eight_words(words, 8, cipher.iv_bytes() / 4),
        })
    }

    // What recover answers; no head changes.
    #[tactic(auto, using(crate::proofs::Calls::recover_refused, crate::proofs::Calls::recover_key, crate::proofs::Calls::recover_iv, crate::proofs::Calls::recover_none))]
    fn put_key_and_iv(self, area: &[u32], key: &mut [u8], iv: &mut [u8]) -> Result<(), Refusal>
        ensures { Outcomes.recovered result self area.now key.new iv.new
            ≡ Calls.recover_call self area.now key.old iv.old }
    {
        let cipher = conditions::ready_with_word(self.code, self.position, self.word, area)?;
        if key.len() != cipher.key_bytes() {
            return Err(Refusal::KeyLength);
        }
        if iv.len() != cipher.iv_bytes() {
            return Err(Refusal::IvLength);
        }
        let found = recovery::of_area(cipher, self.position as usize, area);
        let Ok(words) = found else {
            return Err(Refusal::NoKey);
        };
        keys::store_key_and_iv(cipher, words, key, iv);
        Ok(())
    }
}

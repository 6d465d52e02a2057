// The strings of the cases: checkpoints of a run at a position, others that are changed, and others that only begin as one.
ghost use Rattle.std.specs.Prelude.{◌≤◌};

use arrayvec::ArrayVec;
use buffers::filled;
use cipher::Cipher;
use engine::Head;
use std::{io, iter};

// A string: as many bytes as the longest checkpoint has, and one more, at most.
pub type Stored = ArrayVec<u8, 8198>;

// The bytes of a cipher's key, and of its IV. Its area has 64 words for each.
pub fn key_bytes(cipher: Cipher) -> usize
    ensures { (1 ≤ result) × (result ≤ 32) }
{
    match cipher {
        Cipher::Hc128 => 16,
        Cipher::Hc256 => 32,
    }
}

// A run: the first bytes of a key and an IV, as many as the cipher has.
#[derive(Clone, Copy)]
pub struct Run {
    pub cipher: Cipher,
    pub key: [u8; 32],
    pub iv: [u8; 32],
}

impl Run {
    // The checkpoint at a position.
    pub fn checkpoint(&self, position: u32) -> Stored {
        let n = key_bytes(self.cipher);
        let key = &self.key[..n];
        let iv = &self.iv[..n];
        let mut words = [0; 2048];
        let area = &mut words[..64 * n];
        let mut bytes: Stored = filled(0, length(self.cipher, 4));
        let start = Head::fresh().set_up(self.code_byte().into(), key, iv, area);
        let there = start.head.move_by(area, position.into());
        let written = there.head.write(area, &mut bytes);
        bytes.truncate(written.answer.unwrap_or(0));
        bytes
    }

    // The code of the cipher as a checkpoint has it.
    pub fn code_byte(&self) -> u8 {
        match self.cipher {
            Cipher::Hc128 => 1,
            Cipher::Hc256 => 2,
        }
    }

    // The run of the same key and IV by the other cipher.
    pub fn by_other_cipher(self) -> Run {
        let cipher = match self.cipher {
            Cipher::Hc128 => Cipher::Hc256,
            Cipher::Hc256 => Cipher::Hc128,
        };
        Run { cipher, ..self }
    }
}

// The length of a cipher's checkpoint whose position has so many groups, 4 at most.
pub fn length(cipher: Cipher, groups: usize) -> usize {
    256 * key_bytes(cipher) + 1 + groups.min(4)
}

// Changes one bit of the byte at a place.
pub fn change(bytes: &mut [u8], at: usize) {
    if let Some(byte) = bytes.get_mut(at) {
        *byte ^= 1;
    }
}

// A code and the groups of a position, and 0 after them, in a string of this length.
pub fn beginning(code: u8, position: [u8; 4], length: usize) -> io::Result<Stored> {
    let mut bytes = Stored::new();
    bytes.push(code);
    bytes.extend(position)?;
    bytes.extend(iter::repeat_n(0, length.saturating_sub(5)))?;
    bytes.truncate(length);
    Ok(bytes)
}

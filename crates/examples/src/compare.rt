// Words, bytes and heads, filled and compared.
use arrayvec::ArrayVec;
use cipher::Cipher;
use engine::Head;
use engine::answers::Next;
use std::{io, mem};

// A word for heads where none is true, or where it is not looked at.
pub const ANY: u32 = 0x0badcafe;

// A mark that no call gives, over the limit and over 32 bits, for heads that are made up.
pub const MARK: u64 = 0x0123456789abcdef;

// The difference of neighbours where words are told apart.
pub const STRIDE: u32 = 0x9e3779b9;

// Words and bytes, whose sums wrap around.
pub trait Wraps: Copy + PartialEq + Drop {
    fn plus(self, other: Self) -> Self;
}

impl Wraps for u32 {
    fn plus(self, other: u32) -> u32 {
        self.wrapping_add(other)
    }
}

impl Wraps for u8 {
    fn plus(self, other: u8) -> u8 {
        self.wrapping_add(other)
    }
}

// Fills words or bytes: each is the last one plus the stride.
pub fn fill<T: Wraps>(items: &mut [T], first: T, stride: T) {
    let mut next = first;
    for item in items {
        *item = next;
        next = next.plus(stride);
    }
}

// Whether words or bytes are as `fill` leaves them.
pub fn is_filled<T: Wraps>(items: &[T], first: T, stride: T) -> bool {
    let mut next = first;
    for item in items {
        if *item != next {
            return false;
        }
        next = next.plus(stride);
    }
    true
}

// So many words or bytes, as `fill` leaves them; an error where they are more than N.
pub fn items<T: Wraps + Default, const N: usize>(
    n: usize,
    first: T,
    stride: T,
) -> io::Result<ArrayVec<T, N>> {
    if N < n {
        return Err(io::ErrorKind::InvalidInput.into());
    }
    let mut items = buffers::filled(first, n);
    fill(&mut items, first, stride);
    Ok(items)
}

// Changes a byte and gives what it was; where there is none, the new one.
pub fn change(bytes: &mut [u8], at: usize, byte: u8) -> u8 {
    match bytes.get_mut(at) {
        Some(place) => mem::replace(place, byte),
        None => byte,
    }
}

// Puts a cipher code and the bytes of a position at the start of a string, as far as it goes.
pub fn put_opening(string: &mut [u8], code: u8, position: &[u8]) {
    let Some((first, rest)) = string.split_first_mut() else {
        return;
    };
    *first = code;
    for (to, from) in rest.iter_mut().zip(position) {
        *to = *from;
    }
}

// Whether bytes hold words and nothing else, least significant byte first.
pub fn are_words(bytes: &[u8], words: &[u32]) -> bool {
    bytes.len() % 4 == 0
        && bytes.len() / 4 == words.len()
        && bytes
            .chunks_exact(4)
            .zip(words)
            .all(|(four, word)| four == word.to_le_bytes().as_slice())
}

// The word that an area has at a position; any word where there is none: no such cipher, another length, or a position over the limit.
fn word_on(code: u32, position: u64, area: &[u32]) -> u32 {
    let Ok(cipher) = Cipher::try_from(code) else {
        return ANY;
    };
    if area.len() != cipher.area_words() || Head::LIMIT < position {
        return ANY;
    }
    steps::word_at(cipher, area, position as usize)
}

// The head of a code, a position and a mark, with the word that an area has there.
pub fn head_on(code: u32, position: u64, mark: u64, area: &[u32]) -> Head {
    Head::at(code, position, word_on(code, position, area), mark)
}

// A head with these bits of its word changed, none where they are 0, and with a made-up mark.
pub fn flipped(head: Head, bits: u32) -> Head {
    Head::at(head.code, head.position, head.word ^ bits, MARK)
}

// Whether a call was accepted and gave this head, by which spent is the mark.
pub fn accepted(next: Next<()>, head: Head) -> bool {
    let spent = Next {
        head,
        answer: Ok(head.mark),
    };
    next.answer.is_ok() && next.head == head && head.spent() == spent
}

// What a box does with one cipher: set up, cipher, write and load checkpoints, recover, move, up to the stream limit and back.
use crate::compare::{
    ANY, MARK, STRIDE, accepted, are_words, change, fill, head_on, is_filled, items,
};
use crate::line::report;
use crate::refusals::{refuses_load, refuses_recover, refuses_write};
use crate::sizes::Sizes;
use arrayvec::ArrayVec;
use engine::Head;
use engine::answers::{Keys, Next};
use refusal::Refusal;
use std::io;

// Whether set up by a head is accepted with the story's key and IV, in which no two bytes are alike, over other words.
pub fn sets_up(head: Head, sizes: Sizes, area: &mut [u32], first: u32) -> io::Result<bool> {
    let key: ArrayVec<u8, 32> = items(sizes.key, 1, 1)?;
    let iv: ArrayVec<u8, 32> = items(sizes.iv, 33, 1)?;
    fill(area, first, STRIDE);
    let code = sizes.code;
    Ok(accepted(head.set_up(code, &key, &iv, area), Head::at(code, 0, 0, 0)))
}

// Whether bytes are ciphered from one position to another, and the mark goes with them.
fn ciphers(code: u32, from: u64, to: u64, area: &mut [u32], bytes: &mut [u8]) -> bool {
    let next = head_on(code, from, from, area).cipher(area, bytes);
    accepted(next, head_on(code, to, to, area))
}

// Whether an area is moved from one position to another, and the mark stays.
fn moves(code: u32, from: u64, distance: i64, to: u64, area: &mut [u32]) -> bool {
    let next = head_on(code, from, MARK, area).move_by(area, distance);
    accepted(next, head_on(code, to, MARK, area))
}

// Ciphers bytes in parts of 1 to 13 bytes, and gives the next head. No iterator of chunks has parts of different lengths.
fn cipher_in_parts(mut head: Head, area: &mut [u32], bytes: &mut [u8]) -> Head {
    let total = bytes.len();
    let mut rest = &mut *bytes;
    while !rest.is_empty() {
        let at = total.saturating_sub(rest.len());
        let n = rest.len().min(1 + at % 13);
        let (part, later) = rest.split_at_mut(n);
        head = head.cipher(area, part).head;
        rest = later;
    }
    head
}

// Whether a string is the checkpoint of a code, the bytes of a position and the words of the tables.
fn is_checkpoint(string: &[u8], code: u32, position: &[u8], area: &[u32]) -> bool {
    let Some((first, rest)) = string.split_first() else {
        return false;
    };
    match rest.strip_prefix(position) {
        Some(tables) => u32::from(*first) == code && are_words(tables, area),
        None => false,
    }
}

// Whether eight words are the words of a key or an IV of so many bytes that begins with this word, and then 0.
fn eight_are(words: &[u32; 8], bytes: usize, first: u32) -> bool {
    match words.split_at_checked(bytes / 4) {
        Some((given, rest)) => is_filled(given, first, 0x04040404) && is_filled(rest, 0, 0),
        None => false,
    }
}

// Whether load gave the story's key and IV.
fn are_found(sizes: Sizes, keys: &Keys) -> bool {
    eight_are(&keys.key, sizes.key, 0x04030201) && eight_are(&keys.iv, sizes.iv, 0x24232221)
}

// A place where a checkpoint is written: the position from which the box moves there, the distance, the position, and its bytes in the checkpoint.
#[derive(Clone, Copy)]
struct Stop<'a> {
    from: u64,
    distance: i64,
    to: u64,
    position: &'a [u8],
}

// Past each position where the groups of a position grow in number.
const GROUPS: [Stop<'static>; 6] = [
    Stop {
        from: 0,
        distance: 127,
        to: 127,
        position: b"\x7f",
    },
    Stop {
        from: 127,
        distance: 1,
        to: 128,
        position: b"\x80\x01",
    },
    Stop {
        from: 128,
        distance: 16_255,
        to: 16_383,
        position: b"\xff\x7f",
    },
    Stop {
        from: 16_383,
        distance: 1,
        to: 16_384,
        position: b"\x80\x80\x01",
    },
    Stop {
        from: 16_384,
        distance: 2_080_767,
        to: 2_097_151,
        position: b"\xff\xff\x7f",
    },
    Stop {
        from: 2_097_151,
        distance: 1,
        to: 2_097_152,
        position: b"\x80\x80\x80\x01",
    },
];

// The numbers of a cipher, its code, the box's area, and another of the same length.
#[derive(Drop)]
struct Story {
    sizes: Sizes,
    code: u32,
    area: ArrayVec<u32, 2048>,
    other: ArrayVec<u32, 2048>,
}

impl Story {
    // The head at a position, with the area's word there and a mark that is made up.
    fn head(&self, position: u64) -> Head {
        head_on(self.code, position, MARK, &self.area)
    }

    // Whether both areas are the same.
    fn is_even(&self) -> bool {
        self.area == self.other
    }

    fn report(&self, rt: &impl Print, position: u64, case: &str, ok: bool) -> io::Result<()> {
        report(rt, self.code, position, case, ok)
    }

    // Two areas that hold different words are set up, one by a fresh head.
    fn begins(&mut self, rt: &impl Print) -> io::Result<()> {
        let used = Head::at(3, 67_108_865, ANY, MARK);
        let a = sets_up(Head::fresh(), self.sizes, &mut self.area, 7)?;
        let b = sets_up(used, self.sizes, &mut self.other, 9)?;
        let ok = a && b && !is_filled(&self.area, 7, STRIDE) && self.is_even();
        self.report(rt, 0, "set up", ok)
    }

    // Moves back to 0, to the tables that set up gives.
    fn goes_back(&mut self, rt: &impl Print, from: u64, distance: i64) -> io::Result<()> {
        let used = Head::at(self.code, from, ANY, MARK);
        let a = moves(self.code, from, distance, 0, &mut self.area);
        let b = sets_up(used, self.sizes, &mut self.other, 9)?;
        self.report(rt, from, "move back to 0", a && b && self.is_even())
    }

    // Enciphers bytes from 0 on; the other area is moved by as many.
    fn comes_to(
        &mut self,
        rt: &impl Print,
        to: u64,
        distance: i64,
        bytes: &mut [u8],
    ) -> io::Result<()> {
        fill(bytes, 5, 3);
        let a = ciphers(self.code, 0, to, &mut self.area, bytes);
        let b = moves(self.code, 0, distance, to, &mut self.other);
        let ok = a && b && !is_filled(bytes, 5, 3) && self.is_even();
        self.report(rt, to, "encipher and move", ok)
    }

    // Deciphers in parts what was enciphered at once; the other area is moved by as many.
    fn comes_again(
        &mut self,
        rt: &impl Print,
        to: u64,
        distance: i64,
        bytes: &mut [u8],
    ) -> io::Result<()> {
        let last = cipher_in_parts(Head::at(self.code, 0, 0, 0), &mut self.area, bytes);
        let a = last == head_on(self.code, to, to, &self.area) && is_filled(bytes, 5, 3);
        let b = moves(self.code, 0, distance, to, &mut self.other);
        self.report(rt, to, "decipher in parts", a && b && self.is_even())
    }

    // Writes a checkpoint where so many bytes are lent, and gives it; later bytes stay.
    fn writes(
        &self,
        rt: &impl Print,
        at: u64,
        position: &[u8],
        room: usize,
    ) -> io::Result<ArrayVec<u8, 8200>> {
        let mut lent: ArrayVec<u8, 8200> = items(room, 165, 0)?;
        let head = self.head(at);
        let done = head.write(&self.area, &mut lent);
        let n = done.answer.unwrap_or(0);
        let ok = match lent.split_at_checked(n) {
            Some((string, later)) => {
                is_checkpoint(string, self.code, position, &self.area) && is_filled(later, 165, 0)
            }
            None => false,
        };
        let given = done.answer.is_ok() && done.head == head;
        self.report(rt, at, "write", given && ok)?;
        lent.truncate(n);
        Ok(lent)
    }

    // Whether load gives a head whose mark is its position, and the tables, the key and the IV that the area came from.
    fn loads(&mut self, at: u64, string: &[u8]) -> bool {
        fill(&mut self.other, 9, STRIDE);
        let next = Head::at(3, 67_108_865, ANY, MARK).load(&mut self.other, string);
        let found = match next.answer {
            Ok(keys) => are_found(self.sizes, &keys),
            Err(_) => false,
        };
        found && self.is_even() && next.head == head_on(self.code, at, at, &self.area)
    }

    // Writes a checkpoint where so many bytes are lent, loads it into the other area, and gives it.
    fn writes_and_loads(
        &mut self,
        rt: &impl Print,
        at: u64,
        position: &[u8],
        room: usize,
    ) -> io::Result<ArrayVec<u8, 8200>> {
        let string = self.writes(rt, at, position, room)?;
        let ok = self.loads(at, &string);
        self.report(rt, at, "load", ok)?;
        Ok(string)
    }

    // A checkpoint written where just as many bytes are lent as it has, and not where one fewer is, and loaded.
    fn checkpoint(&mut self, rt: &impl Print, at: u64, position: &[u8]) -> io::Result<()> {
        let room = self.sizes.tables + 1 + position.len().min(4);
        let head = self.head(at);
        let ok = refuses_write(head, &self.area, room - 1, Refusal::LittleRoom)?;
        self.report(rt, at, "write 8 one byte too few", ok)?;
        self.writes_and_loads(rt, at, position, room)?;
        Ok(())
    }

    // Moves to another position, and writes and loads the checkpoint there.
    fn checkpoint_on(&mut self, rt: &impl Print, stop: Stop<'_>) -> io::Result<()> {
        let ok = moves(self.code, stop.from, stop.distance, stop.to, &mut self.area);
        self.report(rt, stop.to, "move", ok)?;
        self.checkpoint(rt, stop.to, stop.position)
    }

    // Load of the checkpoint at 8195 is refused where this byte is changed; the byte is then put back.
    fn load_changed(
        &mut self,
        rt: &impl Print,
        case: &str,
        at: usize,
        byte: u8,
        string: &mut [u8],
    ) -> io::Result<()> {
        let was = change(string, at, byte);
        let ok = refuses_load(string, &mut self.other, Refusal::NoKey);
        change(string, at, was);
        self.report(rt, 8195, case, ok && was != byte)
    }

    // The checkpoint at 8195, which lies inside a word, past a turn of both tables of either cipher: loaded with a byte of its tables changed, with its
    // position changed into that of another word, and into another position of the same word, of which the lowest group is given.
    fn checkpoint_in_word(&mut self, rt: &impl Print) -> io::Result<()> {
        let mut string = self.writes_and_loads(rt, 8195, b"\x83\x40", 8200)?;
        let last = string.len().saturating_sub(1);
        for (case, at, byte) in [
            ("load 12 first word changed", 3, 0),
            ("load 12 last word changed", last, 0),
            ("load 12 as at 8192", 1, 0x80),
            ("load 12 as at 8197", 1, 0x85),
        ] {
            self.load_changed(rt, case, at, byte, &mut string)?;
        }
        for (at, group) in [(8193, 0x81), (8196, 0x84)] {
            let was = change(&mut string, 1, group);
            let ok = self.loads(at, &string);
            self.report(rt, at, "load in the same word", ok && was != group)?;
        }
        Ok(())
    }

    // From 8195 on to 8972: enciphered with the tables, and deciphered with the tables that were loaded.
    fn goes_on(&mut self, rt: &impl Print) -> io::Result<()> {
        let mut text = [0u8; 777];
        fill(&mut text, 11, 7);
        let a = ciphers(self.code, 8195, 8972, &mut self.area, &mut text);
        let changed = !is_filled(&text, 11, 7);
        let b = ciphers(self.code, 8195, 8972, &mut self.other, &mut text);
        let ok = a && changed && b && is_filled(&text, 11, 7) && self.is_even();
        self.report(rt, 8972, "encipher, and decipher after a load", ok)
    }

    // Recovers nothing at a position of another word, though the head's word is the one that the area has there; and then the key and the IV.
    fn recovers(&self, rt: &impl Print, at: u64, later: u64) -> io::Result<()> {
        let (m, n) = (self.sizes.key, self.sizes.iv);
        let none = refuses_recover(self.head(later), &self.area, m, n, Refusal::NoKey)?;
        self.report(rt, later, "recover 12 in another word", none)?;
        let mut key: ArrayVec<u8, 32> = items(m, 0, 0)?;
        let mut iv: ArrayVec<u8, 32> = items(n, 0, 0)?;
        let head = self.head(at);
        let next = head.recover(&self.area, &mut key, &mut iv);
        let found = is_filled(&key, 1, 1) && is_filled(&iv, 33, 1);
        self.report(rt, at, "recover", accepted(next, head) && found)
    }

    // The last four bytes: at once in one area, and in the other a move by three and one byte, which is as the last of the four.
    fn last_bytes(&mut self, rt: &impl Print) -> io::Result<()> {
        let mut four = [0u8; 4];
        let mut one = [0u8; 1];
        let a = ciphers(self.code, 67_108_860, 67_108_864, &mut self.area, &mut four);
        let b = moves(self.code, 67_108_860, 3, 67_108_863, &mut self.other);
        let c = ciphers(self.code, 67_108_863, 67_108_864, &mut self.other, &mut one);
        let ok = a && b && c && one[0] == four[3] && self.is_even();
        self.report(rt, 67_108_863, "cipher one byte, as the last of four", ok)
    }

    // To 3, then past each position where the groups grow in number, and each time back to 0.
    fn early(&mut self, rt: &impl Print) -> io::Result<()> {
        let mut three = [0u8; 3];
        self.begins(rt)?;
        self.comes_to(rt, 3, 3, &mut three)?;
        self.goes_back(rt, 3, -3)?;
        for stop in GROUPS {
            self.checkpoint_on(rt, stop)?;
        }
        self.goes_back(rt, 2_097_152, -2_097_152)
    }

    // To 8195, from a checkpoint on to 8972, and back to 0.
    fn there_and_back(&mut self, rt: &impl Print, text: &mut [u8]) -> io::Result<()> {
        self.comes_to(rt, 8195, 8195, text)?;
        self.checkpoint_in_word(rt)?;
        self.goes_on(rt)?;
        self.recovers(rt, 8972, 8976)?;
        self.goes_back(rt, 8972, -8972)?;
        self.recovers(rt, 0, 1)?;
        self.checkpoint(rt, 0, b"\x00")
    }

    // From 8195 to the stream limit, and all the way back.
    fn limit(&mut self, rt: &impl Print) -> io::Result<()> {
        let stop = Stop {
            from: 8195,
            distance: 67_100_665,
            to: 67_108_860,
            position: b"\xfc\xff\xff\x1f",
        };
        self.checkpoint_on(rt, stop)?;
        self.last_bytes(rt)?;
        self.checkpoint(rt, 67_108_864, b"\x80\x80\x80\x20")?;
        self.goes_back(rt, 67_108_864, -67_108_864)
    }
}

// The story of a cipher.
pub fn of_cipher(rt: &impl Print, sizes: Sizes) -> io::Result<()> {
    let mut story = Story {
        sizes,
        code: sizes.code,
        area: items(sizes.area, 0, 0)?,
        other: items(sizes.area, 0, 0)?,
    };
    let mut text = [0u8; 8195];
    story.early(rt)?;
    story.there_and_back(rt, &mut text)?;
    story.comes_again(rt, 8195, 8195, &mut text)?;
    story.limit(rt)
}

// Enciphering a volume in its buffer, beside a cipher call on a copy.
use crate::lent::read_is;
use crate::table::{each, line, no_numbers, no_room};
use arrayvec::ArrayVec;
use cipher::Cipher;
use engine::Head;
use engine::answers::Next;
use std::io;

// With which head and area a volume is enciphered: whether the head has the cipher's code, or else 0; its position and mark; what its word is changed
// by; and how many words the area is short of. Then the refusal number, which is 0 where the call is accepted.
#[derive(Clone, Copy)]
struct Row {
    cipher: Cipher,
    known: bool,
    position: u32,
    mark: u32,
    change: u32,
    short: usize,
    refusal: u64,
}

// A head and what it is called with.
#[derive(PartialEq, Eq, Drop)]
struct Bench {
    head: Head,
    area: ArrayVec<u32, 2048>,
    bytes: ArrayVec<u8, 32>,
}

impl Row {
    // The word that an area has at the position of the row; 0 where it has none.
    fn word_on(self, area: &[u32]) -> u32 {
        let position = u64::from(self.position);
        if area.len() != self.cipher.area_words() || Head::LIMIT < position {
            return 0;
        }
        steps::word_at(self.cipher, area, position as usize)
    }

    // The head of the row, with the word that the area has at its position, but for the change.
    fn head_on(self, area: &[u32]) -> Head {
        let code = if self.known { self.cipher.code() } else { 0 };
        let word = self.word_on(area) ^ self.change;
        Head::at(code, self.position.into(), word, self.mark.into())
    }

    // Sets up an area, with the same bytes for key and IV, and moves it to the position of the row, modulo 1,000. An area that is short stays as it
    // is, for set up and move refuse it.
    fn prepare(self, volume: &[u8]) -> io::Result<Bench> {
        let words = self.cipher.area_words().saturating_sub(self.short);
        let mut area = buffers::filled(0, words);
        let key = [5; 32];
        let key = &key[..self.cipher.key_bytes()];
        let start = Head::fresh().set_up(self.cipher.code(), key, key, &mut area);
        start.head.move_by(&mut area, (self.position % 1000).into());
        let head = self.head_on(&area);
        let bytes = ArrayVec::try_from(volume).map_err(no_room)?;
        Ok(Bench { head, area, bytes })
    }

    // Whether the volume is enciphered, and leaves head, area and bytes as cipher leaves them; and a move back and cipher then bring it back. Where the
    // row is refused, whether everything stays. The first two of the ends are the position and the mark after the call, the others the entries.
    fn is_right(self, volume: &[u8], ends: &[u32]) -> io::Result<bool> {
        let mut bench = self.prepare(volume)?;
        let mut own = self.prepare(volume)?;
        let next = bench
            .head
            .encipher_volume(&mut bench.area, &mut bench.bytes);
        bench.head = next.head;
        let answers = refusal::number_of(next.answer) == self.refusal;
        if self.refusal != 0 {
            return Ok(answers && bench == own);
        }
        own.head = own.head.cipher(&mut own.area, &mut own.bytes).head;
        let enciphered = answers && bench == own && own.bytes.as_slice() != volume;
        let [position, mark, entries @ ..] = ends else {
            return Ok(false);
        };
        let Bench {
            head,
            mut area,
            mut bytes,
        } = bench;
        let back = head.move_by(&mut area, -(volume.len() as i64)).head;
        let again = back.cipher(&mut area, &mut bytes);
        let expected = Next {
            head,
            answer: Ok(()),
        };
        Ok(
            enciphered
                && again == expected
                && head.position == u64::from(*position)
                && head.mark == u64::from(*mark)
                && bytes.as_slice() == volume
                && read_is(&bytes, 9, 0, entries),
        )
    }
}

// Enciphers each volume of a table for a cipher. Its numbers are those of a row, where 1 says that the head has the cipher's code, and where the refusal
// number is 0 the position and the mark after the call, and the numbers of the volume's entries.
pub fn encipher_each(rt: &impl Print, cipher: Cipher, table: &str) -> io::Result<()> {
    each(table, |case, volume, numbers| {
        let [known, position, mark, change, short, refusal, ends @ ..] = numbers else {
            return no_numbers(rt, case);
        };
        let row = Row {
            cipher,
            known: *known != 0,
            position: *position,
            mark: *mark,
            change: *change,
            short: *short as usize,
            refusal: u64::from(*refusal),
        };
        let is_right = row.is_right(volume, ends)?;
        let call = format_args!("{cipher} encipher");
        line(rt, call, case, row.refusal, is_right)
    })
}

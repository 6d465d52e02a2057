// The calls. Each is by a bench, and writes a line: where the head was, what was called, the refusal number that it is to get, 0 where it is accepted,
// and where the head is to be then.
use arrayvec::ArrayVec;
use cipher::Cipher;
use engine::Head;
use engine::answers::Next;
use refusal::Refusal;
use std::{fmt, io};

// A cipher, its code, the bytes of its key and of its IV, the words of its area, and the bytes of its checkpoint where the position is one group.
#[derive(Clone, Copy)]
pub struct Sizes {
    pub cipher: Cipher,
    pub code: u32,
    pub key: usize,
    pub iv: usize,
    pub area: usize,
    pub checkpoint: usize,
}

pub const SIZES: [Sizes; 2] = [
    Sizes {
        cipher: Cipher::Hc128,
        code: 1,
        key: 16,
        iv: 16,
        area: 1_024,
        checkpoint: 4_098,
    },
    Sizes {
        cipher: Cipher::Hc256,
        code: 2,
        key: 32,
        iv: 32,
        area: 2_048,
        checkpoint: 8_194,
    },
];

// Where a head is: its position and its mark.
#[derive(Clone, Copy, Debug, PartialEq, Eq)]
pub struct Place {
    pub position: u64,
    pub mark: u64,
}

impl Place {
    pub fn of(head: Head) -> Place {
        Place {
            position: head.position,
            mark: head.mark,
        }
    }
}

impl fmt::Display for Place {
    fn fmt<W: fmt::Write>(&self, f: &mut fmt::Formatter<W>) -> fmt::Result {
        write!(f, "at {} mark {}", self.position, self.mark)
    }
}

// A call, with how many bytes it has, which way it goes, or what it reads.
#[derive(Clone, Copy)]
pub enum Call<'a> {
    // with a key of so many bytes
    SetUp(usize),
    Cipher(usize),
    Move(i64),
    Recover,
    Load(&'a [u8]),
}

impl fmt::Display for Call<'_> {
    fn fmt<W: fmt::Write>(&self, f: &mut fmt::Formatter<W>) -> fmt::Result {
        f.write_str(match self {
            Call::SetUp(_) => "set up",
            Call::Cipher(_) => "cipher",
            Call::Move(_) => "move",
            Call::Recover => "recover",
            Call::Load(_) => "load",
        })
    }
}

// Whether a head of a code is at a place, and spent by it is its mark.
fn is_at(head: Head, code: u32, place: Place) -> bool {
    let spent = Next {
        head,
        answer: Ok(place.mark),
    };
    head.code == code && Place::of(head) == place && head.spent() == spent
}

// The line of a call by a head: the cipher, where the head was, what the call is to get, and where the head is to be then.
pub fn line(
    rt: &impl Print,
    before: Head,
    call: impl fmt::Display + Drop,
    answer: Result<(), Refusal>,
    cipher: Cipher,
    place: Place,
    ok: bool,
) -> io::Result<()> {
    let before = Place::of(before);
    let number = refusal::number_of(answer);
    let word = if ok { "ok" } else { "wrong" };
    println!(rt; "{cipher} {before} {call} gets {number} {place} {word}")
}

// A checkpoint, of at most 8,194 bytes where the position is one group.
pub type Checkpoint = ArrayVec<u8, 8194>;

// A cipher, a head, and words of which the first are its area.
#[derive(Clone, Copy)]
pub struct Bench {
    pub sizes: Sizes,
    pub head: Head,
    pub words: [u32; 2048],
}

impl Bench {
    // A fresh head, and words that no set up made.
    pub fn fresh(sizes: Sizes) -> Bench {
        Bench {
            sizes,
            head: Head::fresh(),
            words: [7; 2048],
        }
    }

    // Makes a call and gives its answer, or none where it has more bytes or words than are kept for it.
    fn call(&mut self, call: Call<'_>) -> Option<Result<(), Refusal>> {
        let Sizes {
            code,
            key: key_bytes,
            iv: iv_bytes,
            ..
        } = self.sizes;
        let area = self.words.get_mut(..self.sizes.area)?;
        let next = match call {
            Call::SetUp(bytes) => {
                let key = [5u8; 32];
                let iv = [6u8; 32];
                self.head
                    .set_up(code, key.get(..bytes)?, iv.get(..iv_bytes)?, area)
            }
            Call::Cipher(bytes) => {
                let mut lent = [0u8; 10];
                self.head.cipher(area, lent.get_mut(..bytes)?)
            }
            Call::Move(distance) => self.head.move_by(area, distance),
            Call::Recover => {
                let mut key = [0u8; 32];
                let mut iv = [0u8; 32];
                self.head
                    .recover(area, key.get_mut(..key_bytes)?, iv.get_mut(..iv_bytes)?)
            }
            Call::Load(string) => {
                let loaded = self.head.load(area, string);
                Next {
                    head: loaded.head,
                    answer: loaded.answer.and(Ok(())),
                }
            }
        };
        self.head = next.head;
        Some(next.answer)
    }

    // Makes a call, which is to get this answer and to leave the head at this place.
    pub fn makes(
        &mut self,
        rt: &impl Print,
        call: Call<'_>,
        answer: Result<(), Refusal>,
        position: u64,
        mark: u64,
    ) -> io::Result<()> {
        let Sizes { cipher, code, .. } = self.sizes;
        let place = Place { position, mark };
        let before = self.head;
        let ok = self.call(call) == Some(answer) && is_at(self.head, code, place);
        line(rt, before, call, answer, cipher, place, ok)
    }

    // Writes the checkpoint, with the head at this place, and gives it.
    pub fn writes(&self, rt: &impl Print, position: u64, mark: u64) -> io::Result<Checkpoint> {
        let Sizes {
            cipher,
            code,
            area,
            checkpoint,
            ..
        } = self.sizes;
        let place = Place { position, mark };
        let mut string: Checkpoint = buffers::filled(0, checkpoint);
        let done = self
            .head
            .write(self.words.get(..area).unwrap_or(&[]), &mut string);
        let ok = done.answer == Ok(checkpoint) && is_at(done.head, code, place);
        line(rt, self.head, "write", Ok(()), cipher, place, ok)?;
        Ok(string)
    }
}

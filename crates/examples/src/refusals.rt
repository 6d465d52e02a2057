// Calls that leave everything as it is: every refusal of every call, and calls with nothing to do, which get 0.
use crate::compare::{ANY, MARK, STRIDE, fill, flipped, head_on, is_filled, items, put_opening};
use crate::line::{Hex, gets};
use crate::sizes::Sizes;
use arrayvec::ArrayVec;
use engine::Head;
use engine::answers::Next;
use refusal::Refusal;
use std::{fmt, io};

// ---- whether a call gets an answer and leaves what was lent

// Cipher, of so many bytes.
pub fn refuses_cipher(
    head: Head,
    area: &mut [u32],
    n: usize,
    answer: Result<(), Refusal>,
) -> io::Result<bool> {
    let mut lent: ArrayVec<u8, 5> = items(n, 5, 3)?;
    let next = head.cipher(area, &mut lent);
    Ok(next == Next { head, answer } && is_filled(&lent, 5, 3))
}

// Move, by a distance.
pub fn refuses_move(
    head: Head,
    area: &mut [u32],
    distance: i64,
    answer: Result<(), Refusal>,
) -> bool {
    head.move_by(area, distance) == Next { head, answer }
}

// Write, where so many bytes are lent.
pub fn refuses_write(head: Head, area: &[u32], n: usize, refusal: Refusal) -> io::Result<bool> {
    let mut lent: ArrayVec<u8, 8197> = items(n, 5, 3)?;
    let next = head.write(area, &mut lent);
    let answer = Err(refusal);
    Ok(next == Next { head, answer } && is_filled(&lent, 5, 3))
}

// Recover, with buffers of these lengths.
pub fn refuses_recover(
    head: Head,
    area: &[u32],
    key: usize,
    iv: usize,
    refusal: Refusal,
) -> io::Result<bool> {
    let mut key: ArrayVec<u8, 33> = items(key, 5, 3)?;
    let mut iv: ArrayVec<u8, 33> = items(iv, 6, 5)?;
    let next = head.recover(area, &mut key, &mut iv);
    let answer = Err(refusal);
    Ok(next == Next { head, answer } && is_filled(&key, 5, 3) && is_filled(&iv, 6, 5))
}

// Load of a string, into an area that is filled before.
pub fn refuses_load(string: &[u8], area: &mut [u32], refusal: Refusal) -> bool {
    fill(area, 7, STRIDE);
    let head = Head::at(2, 77, ANY, MARK);
    let next = head.load(area, string);
    let answer = Err(refusal);
    next == Next { head, answer } && is_filled(area, 7, STRIDE)
}

// Set up, with a key and an IV of these lengths.
fn refuses_set_up(
    code: u32,
    area: &mut [u32],
    key: usize,
    iv: usize,
    answer: Result<(), Refusal>,
) -> io::Result<bool> {
    let key: ArrayVec<u8, 33> = items(key, 0, 0)?;
    let iv: ArrayVec<u8, 33> = items(iv, 0, 0)?;
    let head = Head::at(2, 77, ANY, MARK);
    Ok(head.set_up(code, &key, &iv, area) == Next { head, answer })
}

// ---- the cases

// A call by a head at a position, with lengths.
#[derive(Clone, Copy)]
pub enum Call<'a> {
    // with a key and an IV of these lengths
    SetUp(usize, usize),
    // at a position, of so many bytes
    Cipher(u64, usize),
    // at a position, by a distance
    Move(u64, i64),
    // at a position, where so many bytes are lent
    Write(u64, usize),
    // at a position, with buffers of these lengths
    Recover(u64, usize, usize),
    // of a string that begins with the bytes of a position after the code, and has so many bytes
    Load(&'a [u8], usize),
    // at a position
    Spent(u64),
}

// A call with a cipher code and an area of so many words, by a head with these bits of its true word changed.
#[derive(Clone, Copy)]
pub struct Case<'a> {
    pub code: u32,
    pub call: Call<'a>,
    pub bits: u32,
    pub area: usize,
}

// The bits of a word that are changed; nothing where none is.
#[derive(Clone, Copy)]
struct Changed(u32);

impl fmt::Display for Changed {
    fn fmt<W: fmt::Write>(&self, f: &mut fmt::Formatter<W>) -> fmt::Result {
        match self.0 {
            0 => Ok(()),
            bits => write!(f, " word changed by {bits:08x}"),
        }
    }
}

impl fmt::Display for Case<'_> {
    fn fmt<W: fmt::Write>(&self, f: &mut fmt::Formatter<W>) -> fmt::Result {
        let code = self.code;
        let area = self.area;
        let changed = Changed(self.bits);
        match self.call {
            Call::SetUp(key, iv) => write!(f, "set up code {code} key {key} IV {iv} area {area}"),
            Call::Cipher(at, n) => {
                write!(
                    f,
                    "cipher code {code} at {at}{changed} area {area} bytes {n}"
                )
            }
            Call::Move(at, distance) => {
                write!(
                    f,
                    "move code {code} at {at}{changed} area {area} by {distance}"
                )
            }
            Call::Write(at, n) => {
                write!(
                    f,
                    "write code {code} at {at}{changed} area {area} bytes {n}"
                )
            }
            Call::Recover(at, key, iv) => {
                write!(
                    f,
                    "recover code {code} at {at}{changed} area {area} key {key} IV {iv}"
                )
            }
            Call::Load(position, n) => {
                let position = Hex(position);
                write!(
                    f,
                    "load code {code} position{position} bytes {n} area {area}"
                )
            }
            Call::Spent(at) => write!(f, "spent code {code} at {at}"),
        }
    }
}

impl Case<'_> {
    // The head of the call.
    fn head(self, position: u64, area: &[u32]) -> Head {
        flipped(head_on(self.code, position, MARK, area), self.bits)
    }

    // Whether load of a string with the code and the bytes of a position, and of this length, is refused.
    fn load_is_refused(self, position: &[u8], n: usize, refusal: Refusal) -> io::Result<bool> {
        let mut string: ArrayVec<u8, 8200> = items(n, 5, 3)?;
        let mut area: ArrayVec<u32, 2049> = items(self.area, 0, 0)?;
        put_opening(&mut string, (self.code % 256) as u8, position);
        Ok(refuses_load(&string, &mut area, refusal))
    }

    // Whether the call is refused, and everything stays.
    fn is_refused(self, refusal: Refusal) -> io::Result<bool> {
        let same: ArrayVec<u32, 2049> = items(self.area, 7, 0)?;
        match self.call {
            Call::Write(at, n) => refuses_write(self.head(at, &same), &same, n, refusal),
            Call::Recover(at, key, iv) => {
                refuses_recover(self.head(at, &same), &same, key, iv, refusal)
            }
            Call::Load(position, n) => self.load_is_refused(position, n, refusal),
            Call::Spent(at) => {
                let head = Head::at(self.code, at, ANY, MARK);
                let answer = Err(refusal);
                Ok(head.spent() == Next { head, answer })
            }
            _ => self.leaves_all(Err(refusal)),
        }
    }

    // Whether a call that may change the area gets an answer, and everything stays.
    fn leaves_all(self, answer: Result<(), Refusal>) -> io::Result<bool> {
        let mut area: ArrayVec<u32, 2049> = items(self.area, 7, STRIDE)?;
        let ok = match self.call {
            Call::SetUp(key, iv) => refuses_set_up(self.code, &mut area, key, iv, answer)?,
            Call::Cipher(at, n) => refuses_cipher(self.head(at, &area), &mut area, n, answer)?,
            Call::Move(at, distance) => {
                refuses_move(self.head(at, &area), &mut area, distance, answer)
            }
            _ => false,
        };
        Ok(ok && is_filled(&area, 7, STRIDE))
    }

    // The line of the case where it is refused.
    pub fn is_to_get(self, rt: &impl Print, refusal: Refusal) -> io::Result<()> {
        let ok = self.is_refused(refusal)?;
        gets(rt, self, Err(refusal), ok)
    }

    // The line of the case where there is nothing to do.
    fn is_to_do_nothing(self, rt: &impl Print) -> io::Result<()> {
        let ok = self.leaves_all(Ok(()))?;
        gets(rt, self, Ok(()), ok)
    }
}

// Calls with a code and areas of these lengths, each with its refusal.
fn refuses(rt: &impl Print, code: u32, cases: &[(Call<'_>, usize, Refusal)]) -> io::Result<()> {
    for &(call, area, refusal) in cases {
        let case = Case {
            code,
            call,
            bits: 0,
            area,
        };
        case.is_to_get(rt, refusal)?;
    }
    Ok(())
}

// A position over the limit.
const OVER: u64 = 67_108_865;

// A code that is neither cipher's is refused by each call that takes a code or a head, with these lengths, and whatever else is wrong.
fn unknown_code(rt: &impl Print, code: u32, key: usize, area: usize) -> io::Result<()> {
    let (short, few) = (key.saturating_sub(1), area.saturating_sub(1));
    for (call, area) in [
        (Call::SetUp(key, key), area),
        (Call::SetUp(short, 33), 2049),
        (Call::Cipher(0, 5), area),
        (Call::Cipher(OVER, 5), few),
        (Call::Move(0, 1), area),
        (Call::Move(OVER, -1), few),
        (Call::Write(0, 8197), area),
        (Call::Write(OVER, 10), few),
        (Call::Recover(0, key, key), area),
        (Call::Recover(OVER, short, short), few),
        (Call::Spent(0), area),
        (Call::Spent(OVER), area),
    ] {
        refuses(rt, code, &[(call, area, Refusal::BadCode)])?;
    }
    Ok(())
}

// The smallest code and the one after HC-256's; codes whose low bits are a cipher's; the largest byte and the largest code. Then checkpoints whose
// first byte is neither cipher's code.
pub fn unknown_codes(rt: &impl Print) -> io::Result<()> {
    for (code, key, area) in [
        (0, 16, 1024),
        (3, 16, 1024),
        (255, 16, 1024),
        (257, 16, 1024),
        (65_537, 16, 1024),
        (16_777_218, 32, 2048),
        (u32::MAX, 32, 2048),
    ] {
        unknown_code(rt, code, key, area)?;
    }
    for code in [0, 3, 255] {
        for (call, area) in [
            (Call::Load(b"\x00", 4098), 1024),
            (Call::Load(b"", 1), 1023),
        ] {
            refuses(rt, code, &[(call, area, Refusal::BadCode)])?;
        }
    }
    Ok(())
}

// Lengths of the other cipher, and an area of none.
pub fn other_lengths(rt: &impl Print) -> io::Result<()> {
    for (code, call, area, refusal) in [
        (2, Call::SetUp(16, 16), 1024, Refusal::KeyLength),
        (1, Call::SetUp(16, 32), 1024, Refusal::IvLength),
        (1, Call::Recover(77, 32, 32), 1024, Refusal::KeyLength),
        (1, Call::SetUp(16, 16), 2048, Refusal::AreaLength),
        (2, Call::SetUp(32, 32), 1024, Refusal::AreaLength),
        (1, Call::Cipher(0, 0), 2048, Refusal::AreaLength),
        (2, Call::Cipher(0, 0), 1024, Refusal::AreaLength),
        (1, Call::Move(0, 0), 2048, Refusal::AreaLength),
        (2, Call::Move(0, 0), 1024, Refusal::AreaLength),
        (1, Call::Write(0, 8197), 2048, Refusal::AreaLength),
        (2, Call::Write(0, 8197), 1024, Refusal::AreaLength),
        (1, Call::Recover(0, 16, 16), 2048, Refusal::AreaLength),
        (2, Call::Recover(0, 32, 32), 1024, Refusal::AreaLength),
        (1, Call::Load(b"\x00", 8194), 2048, Refusal::AreaLength),
        (2, Call::Load(b"\x00", 4098), 1024, Refusal::AreaLength),
        (1, Call::Cipher(0, 0), 0, Refusal::AreaLength),
    ] {
        refuses(rt, code, &[(call, area, refusal)])?;
    }
    Ok(())
}

// A call of a cipher with nothing to do.
fn nothing_to_do(rt: &impl Print, sizes: Sizes, call: Call<'_>) -> io::Result<()> {
    let case = Case {
        code: sizes.code,
        call,
        bits: 0,
        area: sizes.area,
    };
    case.is_to_do_nothing(rt)
}

fn set_up_cases(rt: &impl Print, sizes: Sizes) -> io::Result<()> {
    let (m, n) = (sizes.key, sizes.area);
    let (short, long) = (m.saturating_sub(1), m + 1);
    let (few, many) = (n.saturating_sub(1), n + 1);
    refuses(
        rt,
        sizes.code,
        &[
            (Call::SetUp(0, 0), 0, Refusal::KeyLength),
            (Call::SetUp(short, short), n, Refusal::KeyLength),
            (Call::SetUp(long, m), few, Refusal::KeyLength),
            (Call::SetUp(m, short), few, Refusal::IvLength),
            (Call::SetUp(m, long), n, Refusal::IvLength),
            (Call::SetUp(m, m), few, Refusal::AreaLength),
            (Call::SetUp(m, m), many, Refusal::AreaLength),
        ],
    )
}

fn cipher_cases(rt: &impl Print, sizes: Sizes) -> io::Result<()> {
    let n = sizes.area;
    let (few, many) = (n.saturating_sub(1), n + 1);
    refuses(
        rt,
        sizes.code,
        &[
            (Call::Cipher(OVER, 5), few, Refusal::AreaLength),
            (Call::Cipher(OVER, 0), many, Refusal::AreaLength),
            (Call::Cipher(OVER, 0), n, Refusal::BadPosition),
            (Call::Cipher(u64::MAX, 5), n, Refusal::BadPosition),
            (Call::Cipher(67_108_860, 5), n, Refusal::PastLimit),
            (Call::Cipher(67_108_863, 2), n, Refusal::PastLimit),
            (Call::Cipher(67_108_864, 1), n, Refusal::PastLimit),
        ],
    )?;
    nothing_to_do(rt, sizes, Call::Cipher(67_108_864, 0))
}

fn move_cases(rt: &impl Print, sizes: Sizes) -> io::Result<()> {
    let n = sizes.area;
    let (few, many) = (n.saturating_sub(1), n + 1);
    refuses(
        rt,
        sizes.code,
        &[
            (Call::Move(OVER, 1), few, Refusal::AreaLength),
            (Call::Move(OVER, i64::MIN), many, Refusal::AreaLength),
            (Call::Move(OVER, i64::MIN), n, Refusal::BadPosition),
            (Call::Move(u64::MAX, i64::MAX), n, Refusal::BadPosition),
            (Call::Move(0, -1), n, Refusal::BeforeStart),
            (Call::Move(3, -4), n, Refusal::BeforeStart),
            (Call::Move(67_108_864, -67_108_865), n, Refusal::BeforeStart),
            (Call::Move(67_108_864, i64::MIN), n, Refusal::BeforeStart),
            (Call::Move(0, 67_108_865), n, Refusal::PastLimit),
            (Call::Move(67_108_863, 2), n, Refusal::PastLimit),
            (Call::Move(67_108_864, i64::MAX), n, Refusal::PastLimit),
            (Call::Move(67_108_864, 1), n, Refusal::PastLimit),
        ],
    )?;
    nothing_to_do(rt, sizes, Call::Move(67_108_864, 0))
}

// A checkpoint of the cipher has t bytes for its words.
fn write_cases(rt: &impl Print, sizes: Sizes) -> io::Result<()> {
    let n = sizes.area;
    let (few, many) = (n.saturating_sub(1), n + 1);
    let t = sizes.tables;
    refuses(
        rt,
        sizes.code,
        &[
            (Call::Write(OVER, 10), few, Refusal::AreaLength),
            (Call::Write(OVER, t + 5), many, Refusal::AreaLength),
            (Call::Write(OVER, 10), n, Refusal::BadPosition),
            (Call::Write(u64::MAX, t + 5), n, Refusal::BadPosition),
            (Call::Write(0, 0), n, Refusal::LittleRoom),
            (Call::Write(0, t + 1), n, Refusal::LittleRoom),
            (Call::Write(67_108_864, t + 4), n, Refusal::LittleRoom),
        ],
    )
}

fn recover_cases(rt: &impl Print, sizes: Sizes) -> io::Result<()> {
    let (m, n) = (sizes.key, sizes.area);
    let (short, long) = (m.saturating_sub(1), m + 1);
    let (few, many) = (n.saturating_sub(1), n + 1);
    refuses(
        rt,
        sizes.code,
        &[
            (Call::Recover(OVER, short, short), few, Refusal::AreaLength),
            (Call::Recover(OVER, m, m), many, Refusal::AreaLength),
            (Call::Recover(OVER, short, short), n, Refusal::BadPosition),
            (Call::Recover(u64::MAX, m, m), n, Refusal::BadPosition),
            (Call::Recover(77, short, 0), n, Refusal::KeyLength),
            (Call::Recover(77, long, m), n, Refusal::KeyLength),
            (Call::Recover(77, m, 0), n, Refusal::IvLength),
            (Call::Recover(77, m, long), n, Refusal::IvLength),
            (Call::Recover(77, m, m), n, Refusal::NoKey),
            (Call::Recover(0, m, m), n, Refusal::NoKey),
        ],
    )
}

// A checkpoint of the cipher has t bytes for its words.
fn load_cases(rt: &impl Print, sizes: Sizes) -> io::Result<()> {
    let n = sizes.area;
    let (few, many) = (n.saturating_sub(1), n + 1);
    let t = sizes.tables;
    refuses(
        rt,
        sizes.code,
        &[
            (Call::Load(b"\x00", 0), few, Refusal::EndsEarly),
            (Call::Load(b"", 1), few, Refusal::AreaLength),
            (
                Call::Load(b"\x80\x80\x80\x80", 5),
                many,
                Refusal::AreaLength,
            ),
            (Call::Load(b"\x00", 2), n, Refusal::StringLength),
            (Call::Load(b"\x00", t + 1), n, Refusal::StringLength),
            (Call::Load(b"\x83\x40", t + 4), n, Refusal::StringLength),
            (
                Call::Load(b"\x80\x80\x80\x20", t + 4),
                n,
                Refusal::StringLength,
            ),
            (Call::Load(b"\x00", t + 2), n, Refusal::NoKey),
            (Call::Load(b"\xac\x02", t + 3), n, Refusal::NoKey),
        ],
    )
}

// A checkpoint of the cipher has t bytes for its words.
fn load_position_cases(rt: &impl Print, sizes: Sizes) -> io::Result<()> {
    let n = sizes.area;
    let t = sizes.tables;
    refuses(
        rt,
        sizes.code,
        &[
            (
                Call::Load(b"\x81\x80\x80\x80\x00", t + 6),
                n,
                Refusal::BadNumber,
            ),
            (Call::Load(b"\xff\xff\xff\xff", 5), n, Refusal::BadNumber),
            (Call::Load(b"", 1), n, Refusal::EndsEarly),
            (Call::Load(b"\x80", 2), n, Refusal::EndsEarly),
            (Call::Load(b"\x80\x80\x80", 4), n, Refusal::EndsEarly),
            (Call::Load(b"\x80\x00", t + 3), n, Refusal::BadNumber),
            (Call::Load(b"\xff\xff\xff\x00", 10), n, Refusal::BadNumber),
            (Call::Load(b"\x81\x80\x80\x20", 5), n, Refusal::BadPosition),
            (
                Call::Load(b"\xff\xff\xff\x7f", t + 5),
                n,
                Refusal::BadPosition,
            ),
        ],
    )
}

// The cipher's own refusals.
pub fn of_cipher(rt: &impl Print, sizes: Sizes) -> io::Result<()> {
    set_up_cases(rt, sizes)?;
    cipher_cases(rt, sizes)?;
    move_cases(rt, sizes)?;
    write_cases(rt, sizes)?;
    recover_cases(rt, sizes)?;
    load_cases(rt, sizes)?;
    load_position_cases(rt, sizes)?;
    let n = sizes.area;
    refuses(
        rt,
        sizes.code,
        &[
            (Call::Spent(OVER), n, Refusal::BadPosition),
            (Call::Spent(u64::MAX), n, Refusal::BadPosition),
        ],
    )
}

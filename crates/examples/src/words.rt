// The word of the head: what it is after each call, when a false one gets 13, and what 13 does not notice.
use crate::compare::{ANY, MARK, STRIDE, fill, flipped, is_filled, items};
use crate::line::{report, report_in};
use crate::refusals::{Call, Case, refuses_cipher, refuses_move, refuses_recover, refuses_write};
use crate::sizes::Sizes;
use crate::story::sets_up;
use arrayvec::ArrayVec;
use engine::Head;
use engine::answers::{Keys, Next};
use refusal::Refusal;
use std::io;

// The lowest bit of a word.
const LOW: u32 = 1;

// The highest bit of a word.
const HIGH: u32 = 0x80000000;

// ---- where 13 stands among the refusals

// A code that is neither cipher's is refused by the four calls that take a head and an area, whatever the word, also where the low bits of the code are
// a cipher's.
pub fn unknown_codes(rt: &impl Print) -> io::Result<()> {
    for (code, m, n) in [(0, 16, 1024), (257, 16, 1024), (16_777_218, 32, 2048)] {
        for call in [
            Call::Cipher(77, 5),
            Call::Move(77, 1),
            Call::Write(77, 8197),
            Call::Recover(77, m, m),
        ] {
            let case = Case {
                code,
                call,
                bits: LOW,
                area: n,
            };
            case.is_to_get(rt, Refusal::BadCode)?;
        }
    }
    Ok(())
}

// The place of 13 in the calls of a cipher, whose area has n words, and a checkpoint t bytes for them: a false word comes after 4 and 5, and in cipher
// before 6, in move before 7 and 6, in write before 8, and in recover before 2, 3 and 12; also at 0, at the limit, and where there is nothing to do.
pub fn places(rt: &impl Print, sizes: Sizes) -> io::Result<()> {
    let (m, n) = (sizes.key, sizes.area);
    let (short, long) = (m.saturating_sub(1), m + 1);
    let (few, many) = (n.saturating_sub(1), n + 1);
    let t = sizes.tables;
    for (call, bits, area, refusal) in [
        (Call::Cipher(77, 5), LOW, few, Refusal::AreaLength),
        (Call::Cipher(67_108_865, 5), LOW, n, Refusal::BadPosition),
        (Call::Cipher(0, 5), LOW, n, Refusal::FalseWord),
        (Call::Cipher(0, 0), HIGH, n, Refusal::FalseWord),
        (Call::Cipher(77, 5), LOW, n, Refusal::FalseWord),
        (Call::Cipher(77, 0), HIGH, n, Refusal::FalseWord),
        (Call::Cipher(67_108_860, 5), LOW, n, Refusal::FalseWord),
        (Call::Cipher(67_108_864, 0), HIGH, n, Refusal::FalseWord),
        (Call::Move(77, 1), LOW, many, Refusal::AreaLength),
        (Call::Move(67_108_865, 1), LOW, n, Refusal::BadPosition),
        (Call::Move(0, -1), LOW, n, Refusal::FalseWord),
        (Call::Move(0, 0), HIGH, n, Refusal::FalseWord),
        (Call::Move(77, -78), LOW, n, Refusal::FalseWord),
        (Call::Move(77, 0), HIGH, n, Refusal::FalseWord),
        (Call::Move(67_108_863, 2), LOW, n, Refusal::FalseWord),
        (
            Call::Move(67_108_864, i64::MAX),
            HIGH,
            n,
            Refusal::FalseWord,
        ),
        (Call::Write(77, t + 2), LOW, few, Refusal::AreaLength),
        (Call::Write(67_108_865, t + 5), LOW, n, Refusal::BadPosition),
        (Call::Write(0, t + 2), LOW, n, Refusal::FalseWord),
        (Call::Write(0, 0), HIGH, n, Refusal::FalseWord),
        (Call::Write(77, t + 1), LOW, n, Refusal::FalseWord),
        (Call::Write(77, t + 2), HIGH, n, Refusal::FalseWord),
        (Call::Write(67_108_864, t + 5), LOW, n, Refusal::FalseWord),
        (Call::Recover(77, m, m), LOW, many, Refusal::AreaLength),
        (
            Call::Recover(67_108_865, m, m),
            LOW,
            n,
            Refusal::BadPosition,
        ),
        (Call::Recover(0, m, m), LOW, n, Refusal::FalseWord),
        (Call::Recover(77, short, m), LOW, n, Refusal::FalseWord),
        (Call::Recover(77, m, long), LOW, n, Refusal::FalseWord),
        (Call::Recover(77, m, m), HIGH, n, Refusal::FalseWord),
        (Call::Recover(67_108_864, m, m), LOW, n, Refusal::FalseWord),
    ] {
        let case = Case {
            code: sizes.code,
            call,
            bits,
            area,
        };
        case.is_to_get(rt, refusal)?;
    }
    Ok(())
}

// ---- what the word is

// The head after a cipher call.
fn ciphered(head: Head, area: &mut [u32], bytes: &mut [u8]) -> Head {
    head.cipher(area, bytes).head
}

// The head after a move.
fn moved(head: Head, area: &mut [u32], distance: i64) -> Head {
    head.move_by(area, distance).head
}

// The head after two calls, of two and of three bytes.
fn five_more(head: Head, area: &mut [u32]) -> Head {
    let mut two = [0u8; 2];
    let mut three = [0u8; 3];
    let next = ciphered(head, area, &mut two);
    ciphered(next, area, &mut three)
}

// Moves, and enciphers four zero bytes, which are then keystream: the word is these four bytes, and the mark is their end. Gives the next head.
fn four_more(
    rt: &impl Print,
    head: Head,
    distance: i64,
    to: u64,
    area: &mut [u32],
) -> io::Result<Head> {
    let mut four = [0u8; 4];
    let start = moved(head, area, distance);
    let next = ciphered(start, area, &mut four);
    let ok = next == Head::at(head.code, to, u32::from_le_bytes(four), to);
    report(rt, head.code, to, "word of the last four bytes", ok)?;
    Ok(next)
}

// Enciphers one byte; the word is then the given one, and the mark is the byte's end. Gives the next head.
fn one_more(
    rt: &impl Print,
    head: Head,
    to: u64,
    word: u32,
    case: &str,
    area: &mut [u32],
) -> io::Result<Head> {
    let mut one = [0u8; 1];
    let next = ciphered(head, area, &mut one);
    let ok = next == Head::at(head.code, to, word, to);
    report(rt, head.code, to, case, ok)?;
    Ok(next)
}

// The first two words are worked out four bytes at a time with one area, and byte by byte with the other: positions 1 to 4 have one word, that of
// keystream bytes 0 to 3, and 5 to 8 that of bytes 4 to 7. Gives the head at 8.
fn first_words(
    rt: &impl Print,
    code: u32,
    area: &mut [u32],
    other: &mut [u32],
) -> io::Result<Head> {
    let mut head = Head::at(code, 0, 0, 0);
    let four = four_more(rt, head, 0, 4, other)?;
    for to in [1, 2, 3, 4] {
        head = one_more(rt, head, to, four.word, "word of bytes 0 to 3", area)?;
    }
    let eight = four_more(rt, four, 0, 8, other)?;
    report(
        rt,
        code,
        5,
        "another word than at 4",
        eight.word != four.word,
    )?;
    for to in [5, 6, 7, 8] {
        head = one_more(rt, head, to, eight.word, "word of bytes 4 to 7", area)?;
    }
    Ok(eight)
}

// From 8 to the limit: the last word of a turn and the first of the next, at two ends of turns of HC-128, one of HC-256, and one of either cipher, and
// the last word of the stream.
fn turn_words(rt: &impl Print, mut head: Head, area: &mut [u32]) -> io::Result<()> {
    for (distance, to) in [
        (2_036, 2_048),
        (0, 2_052),
        (2_040, 4_096),
        (0, 4_100),
        (4_088, 8_192),
        (0, 8_196),
        (67_100_664, 67_108_864),
    ] {
        head = four_more(rt, head, distance, to, area)?;
    }
    Ok(())
}

// ---- the word at 11

// What load by one head gives of the checkpoint that another head writes, which is empty where write is refused.
fn written_and_loaded(over: Head, head: Head, area: &[u32], other: &mut [u32]) -> Next<Keys> {
    let mut lent = [0u8; 8197];
    let n = head.write(area, &mut lent).answer.unwrap_or(0);
    over.load(other, lent.get(..n).unwrap_or(&[]))
}

// Whether load by one head of the checkpoint that another head writes gives that other head and its tables.
fn loads_written(over: Head, head: Head, area: &[u32], other: &mut [u32]) -> bool {
    fill(other, 9, STRIDE);
    let next = written_and_loaded(over, head, area, other);
    next.answer.is_ok() && next.head == head && *other == *area
}

// At 11 the word is the same by every way there: the head and its area came there by 11 bytes at once. Another area comes there by two or three bytes
// a time and a last one, and by a move, which leaves the mark at 0; it is moved by a turn of both tables of either cipher, and back; and calls with
// nothing to do leave the word as it is.
fn same_word(
    rt: &impl Print,
    sizes: Sizes,
    head: Head,
    area: &[u32],
    other: &mut [u32],
) -> io::Result<()> {
    let code = head.code;
    let start = Head::at(code, 0, 0, 0);
    let mut one = [0u8; 1];
    let a = sets_up(head, sizes, other, 9)?;
    let five = five_more(start, other);
    let ten = five_more(five, other);
    let ok = a && ciphered(ten, other, &mut one) == head;
    report(rt, code, 11, "word after two or three bytes a time", ok)?;

    let a = sets_up(head, sizes, other, 9)?;
    let ok = a && moved(start, other, 11) == Head::at(code, 11, head.word, 0);
    report(rt, code, 11, "word after a move", ok)?;

    let there = moved(head, other, 8_192);
    let ok = moved(there, other, -8_192) == head && there.word != head.word;
    report(rt, code, 11, "word after a move there and back", ok)?;

    let mut none = [0u8; 0];
    let ok = ciphered(head, other, &mut none) == head;
    report(rt, code, 11, "word after no bytes", ok)?;
    let ok = moved(head, other, 0) == head;
    report(rt, code, 11, "word after a move by 0", ok)?;

    let ok = loads_written(Head::fresh(), head, area, other);
    report(rt, code, 11, "word after a load", ok)
}

// ---- calls with a false word

// The four calls that take a head and an area get 13 and change nothing. A copy of the area was kept.
fn all_13(
    rt: &impl Print,
    sizes: Sizes,
    head: Head,
    scene: &str,
    area: &mut [u32],
    kept: &[u32],
) -> io::Result<()> {
    let refusal = Refusal::FalseWord;
    let (m, n) = (sizes.key, sizes.iv);
    let ok = refuses_cipher(head, area, 5, Err(refusal))? && *area == *kept;
    report_in(rt, head.code, head.position, scene, "cipher 13", ok)?;
    let ok = refuses_move(head, area, 1, Err(refusal)) && *area == *kept;
    report_in(rt, head.code, head.position, scene, "move 13", ok)?;
    let ok = refuses_write(head, area, 8197, refusal)?;
    report_in(rt, head.code, head.position, scene, "write 13", ok)?;
    let ok = refuses_recover(head, area, m, n, refusal)?;
    report_in(rt, head.code, head.position, scene, "recover 13", ok)
}

// Whether cipher accepts a head at 11, and a move back then gives the same head but for the mark, which stays at 16.
fn goes_and_comes(head: Head, area: &mut [u32]) -> bool {
    let mut bytes = [0u8; 5];
    let there = ciphered(head, area, &mut bytes);
    moved(there, area, -5) == Head::at(head.code, 11, head.word, 16)
}

// Whether write accepts a head.
fn accepts_write(head: Head, area: &[u32]) -> bool {
    let mut lent = [0u8; 8197];
    let done = head.write(area, &mut lent);
    done.answer.is_ok() && done.head == head
}

// Whether recover accepts a head, and gives the story's key and IV.
fn recovers(sizes: Sizes, head: Head, area: &[u32]) -> io::Result<bool> {
    let mut key: ArrayVec<u8, 32> = items(sizes.key, 0, 0)?;
    let mut iv: ArrayVec<u8, 32> = items(sizes.iv, 0, 0)?;
    let next = head.recover(area, &mut key, &mut iv);
    let accepted = next.answer.is_ok() && next.head == head;
    Ok(accepted && is_filled(&key, 1, 1) && is_filled(&iv, 33, 1))
}

// The four calls accept the true word, so that a false one is all that they refused. A copy of the area was kept.
fn all_accept(
    rt: &impl Print,
    sizes: Sizes,
    head: Head,
    area: &mut [u32],
    kept: &[u32],
) -> io::Result<()> {
    let a = goes_and_comes(head, area) && *area == *kept;
    let b = accepts_write(head, area) && recovers(sizes, head, area)?;
    report(
        rt,
        head.code,
        head.position,
        "true word accepted by the four calls",
        a && b,
    )
}

// Set up, load and spent do not look at the word: they accept a head at 11 whose word is false.
fn not_looked_at(
    rt: &impl Print,
    sizes: Sizes,
    true_head: Head,
    area: &[u32],
    other: &mut [u32],
) -> io::Result<()> {
    let code = true_head.code;
    let head = flipped(true_head, LOW);
    let ok = sets_up(head, sizes, other, 9)?;
    report_in(rt, code, 11, "false word", "set up", ok)?;
    let ok = loads_written(head, true_head, area, other);
    report_in(rt, code, 11, "false word", "load", ok)?;
    let answer = Ok(MARK);
    let ok = head.spent() == Next { head, answer };
    report_in(rt, code, 11, "false word", "spent", ok)
}

// ---- a head and an area that were copied at different moments

// Write accepts a head and an area that do not belong together, and load then refuses the checkpoint with 12.
fn unnoticed(
    rt: &impl Print,
    head: Head,
    scene: &str,
    area: &[u32],
    other: &mut [u32],
) -> io::Result<()> {
    let ok = accepts_write(head, area);
    report_in(rt, head.code, head.position, scene, "write", ok)?;
    let next = written_and_loaded(Head::fresh(), head, area, other);
    let ok = next.answer == Err(Refusal::NoKey);
    report_in(rt, head.code, head.position, scene, "load 12", ok)
}

// The area is copied at 11, the box goes on by two calls, and the head is copied: the four calls get 13. Gives the head at 16.
fn older_area(
    rt: &impl Print,
    sizes: Sizes,
    head: Head,
    area: &mut [u32],
    copy: &mut [u32],
    kept: &[u32],
) -> io::Result<Head> {
    let later = five_more(head, area);
    all_13(rt, sizes, later, "older area", copy, kept)?;
    Ok(later)
}

// The head is copied at 77, the box goes on by two calls, and the area is copied: in one turn, from its step 12 on, 13 does not notice that.
fn later_area(rt: &impl Print, head: Head, area: &mut [u32], other: &mut [u32]) -> io::Result<()> {
    let next = moved(head, area, 61);
    let later = five_more(next, area);
    let ok = next.position == 77 && later.word != next.word;
    report(rt, head.code, later.position, "another word than at 77", ok)?;
    unnoticed(rt, next, "later area", area, other)
}

// At 0 the word is 0 with every area, and 13 notices nothing.
fn any_area(rt: &impl Print, code: u32, area: &mut [u32], other: &mut [u32]) -> io::Result<()> {
    fill(area, 7, STRIDE);
    unnoticed(rt, Head::at(code, 0, 0, MARK), "any area", area, other)
}

// ---- the scenes of a cipher

// The word at 0, after two areas were set up by heads with other words and marks, and from there to the limit.
fn true_words(
    rt: &impl Print,
    sizes: Sizes,
    area: &mut [u32],
    other: &mut [u32],
) -> io::Result<()> {
    let code = sizes.code;
    let a = sets_up(Head::at(code, 77, ANY, MARK), sizes, area, 7)?;
    let b = sets_up(Head::at(3, 0, ANY, MARK), sizes, other, 9)?;
    report(rt, code, 0, "word 0 after set up", a && b)?;
    all_13(
        rt,
        sizes,
        Head::at(code, 0, LOW, MARK),
        "word 1",
        area,
        other,
    )?;
    let eight = first_words(rt, code, area, other)?;
    turn_words(rt, eight, other)
}

// An area is set up and comes to 11 by one call. Gives the head.
fn eleven(rt: &impl Print, sizes: Sizes, area: &mut [u32]) -> io::Result<Head> {
    let code = sizes.code;
    let mut bytes = [0u8; 11];
    let a = sets_up(Head::fresh(), sizes, area, 7)?;
    let head = ciphered(Head::at(code, 0, 0, 0), area, &mut bytes);
    let ok = a && head.position == 11 && head.word != 0 && head.mark == 11;
    report(rt, code, 11, "word after 11 bytes at once", ok)?;
    Ok(head)
}

// At 11 the word 0 is false, and so is the true word with one bit changed. A copy of the area was kept.
fn false_words(
    rt: &impl Print,
    sizes: Sizes,
    head: Head,
    area: &mut [u32],
    kept: &[u32],
) -> io::Result<()> {
    for (false_head, scene) in [
        (Head::at(head.code, 11, 0, MARK), "word 0"),
        (flipped(head, LOW), "lowest bit changed"),
        (flipped(head, HIGH), "highest bit changed"),
    ] {
        all_13(rt, sizes, false_head, scene, area, kept)?;
    }
    all_accept(rt, sizes, head, area, kept)
}

// The word of the head through the calls of a cipher, with the box's area, another, and copies of the first at 11.
pub fn of_cipher(rt: &impl Print, sizes: Sizes) -> io::Result<()> {
    let mut area: ArrayVec<u32, 2048> = items(sizes.area, 0, 0)?;
    let mut other: ArrayVec<u32, 2048> = items(sizes.area, 0, 0)?;
    true_words(rt, sizes, &mut area, &mut other)?;
    let head = eleven(rt, sizes, &mut area)?;
    same_word(rt, sizes, head, &area, &mut other)?;
    not_looked_at(rt, sizes, head, &area, &mut other)?;
    let kept = area.clone()?;
    false_words(rt, sizes, head, &mut area, &kept)?;
    let mut copy = kept.clone()?;
    let later = older_area(rt, sizes, head, &mut area, &mut copy, &kept)?;
    later_area(rt, later, &mut area, &mut copy)?;
    any_area(rt, sizes.code, &mut area, &mut copy)
}

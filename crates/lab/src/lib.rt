// What the program works out: words and numbers of its command line, and its tasks, which are calls of the engine one after the other. No input
// and no output.
#![tactic(auto)]

ghost use Rattle.std.specs.Prelude.{◌≡◌, IfOk, length};
ghost use Rattle.engine.specs.Calls as Calls;
ghost use Rattle.engine.specs.Outcomes as Outcomes;
ghost use Rattle.lab.specs.Words as Words;
ghost use Rattle.lab.specs.Decimal as Decimals;
ghost use Rattle.lab.specs.Tasks as Tasks;

use cipher::Cipher;
use engine::Head;
use engine::answers::Next;

// The commands of the program.
#[derive(Clone, Copy, Debug, PartialEq, Eq)]
pub enum Command {
    Cipher,
    Describe,
    Recover,
    Open,
    At,
    Write,
    SameRun,
    Help,
}

// The command that a word names. The words are compared one after another: a `match` on them goes byte by byte, and the proof of that did not close.
#[tactic(auto, using(crate::proofs::Words::same_is), unfolding(crate::specs::Words::command_of))]
pub fn command_of(word: &[u8]) -> Option<Command>
    ensures { result ≡ Words.command_of word.now }
{
    if word == b"cipher".as_slice() {
        Some(Command::Cipher)
    } else if word == b"describe".as_slice() {
        Some(Command::Describe)
    } else if word == b"recover".as_slice() {
        Some(Command::Recover)
    } else if word == b"open".as_slice() {
        Some(Command::Open)
    } else if word == b"at".as_slice() {
        Some(Command::At)
    } else if word == b"write".as_slice() {
        Some(Command::Write)
    } else if word == b"same-run".as_slice() {
        Some(Command::SameRun)
    } else if word == b"help".as_slice() {
        Some(Command::Help)
    } else {
        None
    }
}

// The code of the cipher that a word names, 0 where it names none, which set up refuses.
#[tactic(auto, using(crate::proofs::Words::same_is), unfolding(crate::specs::Words::cipher_code))]
pub fn cipher_code(word: &[u8]) -> u32
    ensures { result ≡ Words.cipher_code word.now }
{
    if word == b"hc128".as_slice() {
        Cipher::Hc128.code()
    } else if word == b"hc256".as_slice() {
        Cipher::Hc256.code()
    } else {
        0
    }
}

// The number that a text spells in decimal.
#[tactic(auto, using(crate::proofs::Digits::of_empty, crate::proofs::Digits::starts, crate::proofs::Digits::below_digits, crate::proofs::Digits::above_digits, crate::proofs::Digits::goes_on, crate::proofs::Digits::too_large, crate::proofs::Digits::ends))]
pub fn decimal(text: &[u8]) -> Option<u64>
    ensures { result ≡ Decimals.decimal text.now }
{
    if text.is_empty() {
        return None;
    }
    let mut n: u64 = 0;
    for &digit in text {
        if digit < b'0' || b'9' < digit {
            return None;
        }
        n = n.checked_mul(10)?.checked_add((digit - b'0') as u64)?;
    }
    Some(n)
}

// The cipher whose area a checkpoint is loaded into, by its first byte; HC-256 where that names none, and load then refuses.
#[tactic(auto, unfolding(crate::specs::Tasks::cipher_of), using(crate::proofs::First::none_first, crate::proofs::First::some_first, crate::proofs::First::other_first))]
pub fn cipher_of(string: &[u8]) -> Cipher
    ensures { result ≡ Tasks.cipher_of string.now }
{
    match string.first() {
        Some(&code) if u32::from(code) == Cipher::Hc128.code() => Cipher::Hc128,
        _ => Cipher::Hc256,
    }
}

// The position that a checkpoint states, whether or not it loads.
#[tactic(auto, using(crate::proofs::Positions::stated, crate::proofs::Positions::not_stated), unfolding(crate::specs::Tasks::position_in))]
pub fn position_in(string: &[u8]) -> Option<u64>
    ensures { result ≡ Tasks.position_in string.now }
{
    match reader::read_position(string) {
        Ok(found) => Some(found.value),
        Err(_) => None,
    }
}

// The bytes from one place of a file to another, 0 where the second is not after the first or a place is below 0. Places are signed, as the definition
// has them.
pub fn span(here: i64, end: i64) -> u64
    ensures { result ≡ Tasks.span here end }
{
    if here < 0 {
        return 0;
    }
    if end < here {
        return 0;
    }
    (end - here) as u64
}

// Whether so many bytes from a position on pass the limit.
pub fn passes_limit(from: u64, n: u64) -> bool
    ensures { result ≡ Tasks.passes_limit from n }
{
    Head::LIMIT < from.saturating_add(n)
}

// Enciphers or deciphers the next bytes of a log. Where it is accepted, the position grows by their number and stays within the limit.
pub fn cipher_next(head: Head, area: &mut [u32], bytes: &mut [u8]) -> Next<()>
    ensures { (Outcomes.ciphered result.answer result.head area.new bytes.new
        ≡ Calls.cipher_call head area.old bytes.old)
        × Tasks.Advance head.position (length bytes.old) result }
{
    head.cipher(area, bytes)
}

// Loads a checkpoint, from a fresh head.
fn load_fresh(string: &[u8], area: &mut [u32]) -> Next<()>
    ensures { Outcomes.done result.answer result.head area.new
        ≡ Tasks.load_fresh string.now area.old }
{
    let loaded = Head::fresh().load(area, string);
    Next {
        head: loaded.head,
        answer: loaded.answer.and(Ok(())),
    }
}

// Loads a checkpoint and moves to a position.
#[tactic(auto, using(crate::proofs::Tasks::moved_made))]
pub fn load_and_move(string: &[u8], area: &mut [u32], position: u64) -> Next<()>
    ensures { Outcomes.done result.answer result.head area.new
        ≡ Tasks.load_and_move string.now area.old position }
{
    let loaded = load_fresh(string, area);
    match loaded.answer {
        Ok(()) => move_to::move_to(loaded.head, area, position),
        Err(_) => loaded,
    }
}

// Loads a checkpoint and moves back to position 0.
pub fn open_checkpoint(string: &[u8], area: &mut [u32]) -> Next<()>
    ensures { Outcomes.done result.answer result.head area.new
        ≡ Tasks.open_checkpoint string.now area.old }
{
    load_and_move(string, area, 0)
}

// Sets up with a key and an IV and moves to a position.
#[tactic(auto, using(crate::proofs::Tasks::started_made))]
pub fn set_up_at(code: u32, key: &[u8], iv: &[u8], area: &mut [u32], position: u64) -> Next<()>
    ensures { Outcomes.done result.answer result.head area.new
        ≡ Tasks.set_up_at code key.now iv.now area.old position }
{
    let started = Head::fresh().set_up(code, key, iv, area);
    match started.answer {
        Ok(()) => move_to::move_to(started.head, area, position),
        Err(_) => started,
    }
}

// Puts the checkpoint at the start of the lent bytes, on what the calls before left, where they were accepted.
#[tactic(auto, using(crate::proofs::Tasks::written_refused))]
fn write_after(before: Next<()>, area: &[u32], lent: &mut [u8]) -> Next<usize>
    ensures { (Outcomes.written result.answer result.head area.now lent.new
        ≡ Tasks.then_write (Outcomes.done before.answer before.head area.now) lent.old)
        × IfOk result.answer (λ n. Tasks.Counts n lent.new) }
{
    match before.answer {
        Ok(()) => before.head.write(area, lent),
        Err(refusal) => Next {
            head: before.head,
            answer: Err(refusal),
        },
    }
}

// Sets up with a key and an IV, moves to a position and puts the checkpoint at the start of the lent bytes.
pub fn write_at(
    code: u32,
    key: &[u8],
    iv: &[u8],
    area: &mut [u32],
    position: u64,
    lent: &mut [u8],
) -> Next<usize>
    ensures { (Outcomes.written result.answer result.head area.new lent.new
        ≡ Tasks.write_at code key.now iv.now area.old position lent.old)
        × IfOk result.answer (λ n. Tasks.Counts n lent.new) }
{
    let moved = set_up_at(code, key, iv, area, position);
    write_after(moved, area, lent)
}

// Loads a checkpoint, moves to a position and puts the checkpoint there at the start of the lent bytes.
pub fn rewrite_at(string: &[u8], area: &mut [u32], position: u64, lent: &mut [u8]) -> Next<usize>
    ensures { (Outcomes.written result.answer result.head area.new lent.new
        ≡ Tasks.rewrite_at string.now area.old position lent.old)
        × IfOk result.answer (λ n. Tasks.Counts n lent.new) }
{
    let moved = load_and_move(string, area, position);
    write_after(moved, area, lent)
}

// Loads a checkpoint and fills the two buffers with its key and its IV.
#[tactic(auto, using(crate::proofs::Tasks::recovered_made))]
pub fn recover_from(string: &[u8], area: &mut [u32], key: &mut [u8], iv: &mut [u8]) -> Next<()>
    ensures { Outcomes.recovered result.answer result.head area.new key.new iv.new
        ≡ Tasks.recover_from string.now area.old key.old iv.old }
{
    let loaded = load_fresh(string, area);
    match loaded.answer {
        Ok(()) => loaded.head.recover(area, key, iv),
        Err(_) => loaded,
    }
}

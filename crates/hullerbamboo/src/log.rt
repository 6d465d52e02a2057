// A log through the cipher, from standard input to standard output, in a buffer of fixed size.
ghost use Rattle.hullerbamboo.specs.Turn.{Grows};

use crate::say::Stop;
use engine::Head;
use refusal::Refusal;
use std::io::{Read, Seek, SeekFrom};
use std::ops::ControlFlow;
use std::os::unix::fs::FileTypeExt;
use std::rt::{Files, Runtime};
use std::{fs, str};

// How often `--progress` says how much is done, in bytes.
const STRIDE: u64 = 4_194_304;

// Standard input, as the system names it to the process that has it open, and the text that says where in it reading stands.
const INPUT: &str = "/proc/self/fd/0";

const INPUT_STATE: &str = "/proc/self/fdinfo/0";

// The number of a line `pos:`, a tabulator and the number, with which a text begins.
fn position_in(text: &[u8]) -> Option<i64> {
    let (line, _) = str::from_utf8(text).ok()?.split_once('\n')?;
    let number = line.strip_prefix("pos:\t")?;
    i64::try_from(lab::decimal(number.as_bytes())?).ok()
}

// Where reading stands in standard input, where the system says it.
fn here(rt: &impl Files) -> Option<i64> {
    let mut text = [0u8; 64];
    let mut file = fs::open(rt, INPUT_STATE).ok()?;
    let n = file.read(&mut text).ok()?;
    position_in(&text[..n])
}

// The end of standard input where it can be measured, a file or a device of blocks, and not in a pipe.
fn end(rt: &impl Files) -> Option<i64> {
    let input = fs::metadata(rt, INPUT).ok()?;
    let end = if input.is_file() {
        input.len()
    } else if input.file_type().is_block_device() {
        fs::open(rt, INPUT).ok()?.seek(SeekFrom::End(0)).ok()?
    } else {
        return None;
    };
    i64::try_from(end).ok()
}

// The length of what is left of standard input where it can be measured.
fn measure_input(rt: &impl Files) -> Option<u64> {
    let end = end(rt)?;
    Some(lab::span(here(rt)?, end))
}

// One turn: reads what there is, up to the buffer's length, ciphers it and writes it. Leaves the head with which to go on, or with which the log ended,
// which has passed the bytes that could not be written too. Compiled apart from the function that has the buffer, the cipher's loop is quicker.
#[inline(never)]
fn take_turn(
    rt: &(impl Print + Eprint + Alloc),
    input: &mut impl Read,
    head: Head,
    area: &mut [u32],
    buffer: &mut [u8],
    from: u64,
) -> ControlFlow<Head, Head>
    ensures { Grows head result }
{
    let n = match input.read(buffer) {
        Ok(0) => return ControlFlow::Break(head),
        Ok(n) => n,
        Err(error) => {
            Stop::System {
                what: "standard input",
                error,
            }
            .say(rt);
            return ControlFlow::Break(head);
        }
    };
    let bytes = &mut buffer[..n];
    let next = lab::cipher_next(head, area, bytes);
    if let Err(refusal) = next.answer {
        let written = head.position.saturating_sub(from);
        Stop::After { written, refusal }.say(rt);
        return ControlFlow::Break(head);
    }
    if let Err(error) = rt.write_all(bytes) {
        Stop::from(error).say(rt);
        return ControlFlow::Break(next.head);
    }
    ControlFlow::Continue(next.head)
}

// Says how much was done, and how far the keystream is spent by a head, also by bytes that could not be written.
fn report_end(rt: &impl Eprint, done: u64, last: Head) {
    let spent = last.spent().answer.unwrap_or(0);
    let _ = eprintln!(rt; "hullerbamboo: {done} bytes in all");
    let _ = eprintln!(rt; "hullerbamboo: spent: {spent}");
}

// Turn after turn, to the end of the log. It ends because each turn but the last takes the position closer to the limit.
fn turns(
    rt: &(impl Print + Eprint + Alloc),
    input: &mut impl Read,
    mut head: Head,
    area: &mut [u32],
    progress: bool,
) {
    let from = head.position;
    let mut buffer = [0u8; 65536];
    let last = loop {
        let done = head.position.saturating_sub(from);
        match take_turn(rt, input, head, area, &mut buffer, from) {
            ControlFlow::Continue(next) => head = next,
            ControlFlow::Break(last) => break last,
        }
        let more = head.position.saturating_sub(from);
        if progress && done / STRIDE < more / STRIDE {
            let _ = eprintln!(rt; "hullerbamboo: {more} bytes done");
        }
    };
    if progress {
        report_end(rt, head.position.saturating_sub(from), last);
    }
}

// The whole log, from the head's position on. A log that can be measured and passes the limit is refused before a byte is written.
pub fn run<'a>(
    rt: &impl Runtime,
    head: Head,
    area: &mut [u32],
    progress: bool,
) -> Result<(), Stop<'a>> {
    let what = "standard input";
    let mut input = rt.reader();
    // standard input may be what cannot be read, as a folder
    let mut none = [0u8; 0];
    if let Err(error) = input.read(&mut none) {
        return Err(Stop::System { what, error });
    }
    if lab::passes_limit(head.position, measure_input(rt).unwrap_or(0)) {
        let refusal = Refusal::PastLimit;
        return Err(Stop::Refused { what, refusal });
    }
    turns(rt, &mut input, head, area, progress);
    Ok(())
}

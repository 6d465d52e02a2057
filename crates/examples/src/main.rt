// The examples of documents 01 and 02 that are run, their edges, and every refusal of every call: a line each, `ok` or `wrong`.
#![tactic(auto)]

use sizes::SIZES;
use std::io;

mod compare;
mod lengths;
mod line;
mod refusals;
mod sizes;
mod story;
mod words;

fn main(rt: HostRuntime) -> io::Result<()> {
    refusals::unknown_codes(&rt)?;
    refusals::other_lengths(&rt)?;
    for sizes in SIZES {
        refusals::of_cipher(&rt, sizes)?;
    }
    words::unknown_codes(&rt)?;
    for sizes in SIZES {
        words::places(&rt, sizes)?;
    }
    lengths::unknown_codes(&rt)?;
    for sizes in SIZES {
        lengths::of_cipher(&rt, sizes)?;
    }
    for sizes in SIZES {
        story::of_cipher(&rt, sizes)?;
    }
    for sizes in SIZES {
        words::of_cipher(&rt, sizes)?;
    }
    Ok(())
}

// What the program says on standard error: its usage, and a sentence for each reason why a command stops. A sentence that cannot be written has nowhere
// to go.
use refusal::Refusal;
use std::{fmt, io};

// How the program is used.
pub const USAGE: &str = "usage: hullerbamboo COMMAND ..
  cipher CIPHER KEYFILE IVFILE [FROM] [--progress] < log > plain
      enciphers or deciphers standard input, with the keystream from byte FROM on
  open CHECKPOINT [--progress] < log > plain
      deciphers a log from its byte 0 with nothing but a checkpoint of its stream
  describe CHECKPOINT [--secret]
      cipher, position, spent, whether it loads; key and IV only with --secret
  recover CHECKPOINT KEYFILE IVFILE
      writes the key and the IV of a checkpoint
  at CHECKPOINT POSITION NEWCHECKPOINT
      writes the checkpoint of the same stream at another position
  write CIPHER KEYFILE IVFILE POSITION NEWCHECKPOINT
      writes the checkpoint of a key and an IV at a position
  same-run CHECKPOINT CHECKPOINT
      says yes where the two have the same key and IV, at whatever positions, else no
  help
CIPHER is hc128 or hc256. Key and IV files hold 16 bytes each (hc128) or 32 (hc256).
Positions count bytes, 0 to 67108864. A file to read or to make may be -, which is
standard input or output. No file is written over.
Spent is how far keystream has been used in this run; --progress says it at the end.
It starts at 0 in cipher and at the checkpoint's position in open and describe.
";

// Why a command stops, with the word or the file that it is about.
#[derive(Drop)]
pub enum Stop<'a> {
    // the words are no command's
    Usage,
    // a word is wrong
    Word {
        word: &'a str,
        sentence: &'static str,
    },
    // a call of the system failed
    System {
        what: &'a str,
        error: io::Error,
    },
    // the engine refused what a file holds
    Refused {
        what: &'a str,
        refusal: Refusal,
    },
    // the engine refused a key or an IV, since one of this cipher has so many bytes
    Length {
        what: &'a str,
        refusal: Refusal,
        size: usize,
    },
    // the engine refused a position
    Position {
        position: u64,
        refusal: Refusal,
    },
    // a log passed the limit after so many bytes of it were written
    After {
        written: u64,
        refusal: Refusal,
    },
}

// Only standard output is written without a name.
impl<'a> From<io::Error> for Stop<'a> {
    fn from(error: io::Error) -> Stop<'a> {
        Stop::System {
            what: "standard output",
            error,
        }
    }
}

// A refusal with its number.
#[derive(Clone, Copy)]
pub struct Numbered(pub Refusal);

impl fmt::Display for Numbered {
    fn fmt<W: fmt::Write>(&self, f: &mut fmt::Formatter<W>) -> fmt::Result {
        let refusal = self.0;
        write!(f, "refusal {}: {refusal}", u64::from(refusal))
    }
}

// An error's text without the system's number for it.
fn without_code(text: &str) -> &str {
    match text.split_once(" (os error ") {
        Some((words, _)) => words,
        None => text,
    }
}

// Says why a call of the system failed.
fn say_failed(rt: &(impl Eprint + Alloc), what: &str, error: &io::Error) -> io::Result<()> {
    match format!(in rt.alloc(); "{error}") {
        Ok(text) => eprintln!(rt; "hullerbamboo: {what}: {}", without_code(text.as_str())),
        Err(_) => eprintln!(rt; "hullerbamboo: {what}: {error}"),
    }
}

impl Stop<'_> {
    // Says it.
    pub fn say(&self, rt: &(impl Eprint + Alloc)) {
        let _ = match self {
            Stop::Usage => eprint!(rt; "{USAGE}"),
            Stop::Word { word, sentence } => eprintln!(rt; "hullerbamboo: {word}: {sentence}"),
            Stop::System { what, error } => say_failed(rt, what, error),
            Stop::Refused { what, refusal } => {
                eprintln!(rt; "hullerbamboo: {what}: {}.", Numbered(*refusal))
            }
            Stop::Length {
                what,
                refusal,
                size,
            } => {
                let number = u64::from(*refusal);
                let whose = match refusal {
                    Refusal::KeyLength => "a key",
                    _ => "an IV",
                };
                eprintln!(rt;
                    "hullerbamboo: {what}: refusal {number}: {whose} of this cipher has {size} bytes."
                )
            }
            Stop::Position { position, refusal } => {
                eprintln!(rt; "hullerbamboo: {position}: {}.", Numbered(*refusal))
            }
            Stop::After { written, refusal } => {
                eprintln!(rt;
                    "hullerbamboo: standard input: {}, after {written} bytes were written.",
                    Numbered(*refusal)
                )
            }
        };
    }
}

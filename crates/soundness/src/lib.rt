// Where a volume became hopeless: whether a string is a volume, or the beginning of one, or else how many bytes its shortest beginning has that no
// bytes can complete. The entries are read as reading does; where one is refused, its numbers are read again, and the one that is refused group by
// group.
#![tactic(auto)]

ghost use Rattle.std.specs.Prelude.{◌≡◌, ◌≤◌, length, drop};
ghost use Rattle.soundness.specs.Soundness.{Fits, for_c};
ghost use Rattle.soundness.specs.Found as Found;

use volume::reading::{check_entry, read_value};
use volume::{COUNT, LITRES, MINUTES, PRODUCT, RATIO, Range};

// The answer: the string is a volume; or it is none, but some bytes after it make it one; or no bytes can complete its first `length` bytes, and some
// can complete each shorter beginning.
#[derive(Clone, Copy, Debug, PartialEq, Eq)]
pub enum Soundness {
    Sound,
    Cut,
    Hopeless { length: usize },
}

// The answer for C: 0 is sound, 1 is cut, 2 is hopeless; the length is 0 unless it is hopeless.
#[repr(C)]
#[derive(Clone, Copy)]
pub struct SoundnessAnswer {
    pub answer: u64,
    pub length: usize,
}

impl From<Soundness> for SoundnessAnswer {
    ghost from_gives = { λ soundness answer. answer ≡ for_c soundness };

    fn from(soundness: Soundness) -> SoundnessAnswer {
        let (answer, length) = match soundness {
            Soundness::Sound => (0, 0),
            Soundness::Cut => (1, 0),
            Soundness::Hopeless { length } => (2, length),
        };
        SoundnessAnswer {
            answer: answer,
            length: length,
        }
    }
}

// Where the number from place `at` on, which reading refuses, became hopeless: at its last group, or at one that leaves only numbers above its range;
// or that the string is cut, where it ends before such a group.
fn number_soundness(string: &[u8], at: usize, range: Range) -> Soundness
    requires { (at ≤ length string.now) × (1 ≤ range.most) }
    ensures { result ≡ Found.number_soundness string.now range (drop at string.now) }
{
    let mut value = 0;
    let mut weight = 1;
    for next in at..string.len() {
        let group = string[next] as u64;
        if group < 128 {
            return Soundness::Hopeless { length: next + 1 };
        }
        let least = value + weight * group; // the least number that has these groups, since the last group is not 0
        if (range.most as u64) < least {
            return Soundness::Hopeless { length: next + 1 };
        }
        value += weight * (group - 128);
        weight *= 128;
    }
    Soundness::Cut // the string ends here
}

// Where the entry from place `at` on, which reading refuses, became hopeless, in its first number that reading refuses; or that the string is cut.
fn entry_soundness(string: &[u8], at: usize) -> Soundness
    requires { at ≤ length string.now }
    ensures { result ≡ Found.entry_soundness string.now (drop at string.now) }
{
    let Ok(minutes) = read_value(string, at, MINUTES) else {
        return number_soundness(string, at, MINUTES);
    };
    let Ok(litres) = read_value(string, minutes.next, LITRES) else {
        return number_soundness(string, minutes.next, LITRES);
    };
    let Ok(ratio) = read_value(string, litres.next, RATIO) else {
        return number_soundness(string, litres.next, RATIO);
    };
    number_soundness(string, ratio.next, PRODUCT)
}

// Whether n entries stand from place `first` on and nothing after them; else where the string became hopeless, or that it is cut.
fn entries_soundness(string: &[u8], first: usize, n: u32) -> Soundness
    requires { first ≤ length string.now }
    ensures { result ≡ Found.entries_soundness string.now n (drop first string.now) }
{
    let mut at = first;
    for k in 0..n {
        let Ok(found) = check_entry(string, at) else {
            return entry_soundness(string, at);
        };
        at = found.next;
    }
    if at != string.len() {
        return Soundness::Hopeless { length: at + 1 };
    }
    Soundness::Sound
}

// Whether a string is a volume; else where it became hopeless, or that it is cut.
pub fn volume_soundness(string: &[u8]) -> Soundness
    ensures { Fits string.now result }
{
    match read_value(string, 0, COUNT) {
        Ok(count) => entries_soundness(string, count.next, count.value),
        Err(_) => number_soundness(string, 0, COUNT),
    }
}

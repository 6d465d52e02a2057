// Whether a string is sound, cut or hopeless, and the same of each of its beginnings.
use crate::table::{each, no_numbers};
use soundness::{Soundness, volume_soundness};
use std::io;

// The answer for a beginning of a string with this answer: from the hopeless length on it is hopeless at that length, and below it is cut, or sound
// where it is a volume.
fn answer_of(beginning: &[u8], whole: Soundness) -> Soundness {
    match whole {
        Soundness::Hopeless { length } if length <= beginning.len() => whole,
        _ if volume::check_volume(beginning).is_ok() => Soundness::Sound,
        _ => Soundness::Cut,
    }
}

// Whether a string has this answer, and each of its beginnings the one that follows from it.
fn is_right(string: &[u8], answer: Soundness) -> bool {
    for n in 0..string.len() {
        let beginning = &string[..n];
        if volume_soundness(beginning) != answer_of(beginning, answer) {
            return false;
        }
    }
    volume_soundness(string) == answer
}

// Takes the soundness of a string, which is to have this answer, and of its beginnings.
pub fn judges(rt: &impl Print, case: &str, string: &[u8], answer: Soundness) -> io::Result<()> {
    let word = if is_right(string, answer) {
        "ok"
    } else {
        "wrong"
    };
    match answer {
        Soundness::Sound => println!(rt; "soundness {case}: sound {word}"),
        Soundness::Cut => println!(rt; "soundness {case}: cut {word}"),
        Soundness::Hopeless { length } => {
            println!(rt; "soundness {case}: hopeless at {length} {word}")
        }
    }
}

// Judges each string of a table of volumes.
pub fn sound_each(rt: &impl Print, table: &str) -> io::Result<()> {
    each(
        table,
        |case, string, _| judges(rt, case, string, Soundness::Sound),
    )
}

// Judges each string of a table of strings that are cut.
pub fn cut_each(rt: &impl Print, table: &str) -> io::Result<()> {
    each(
        table,
        |case, string, _| judges(rt, case, string, Soundness::Cut),
    )
}

// Judges each string of a table of hopeless ones. Its number is the length at which it became so.
pub fn hopeless_each(rt: &impl Print, table: &str) -> io::Result<()> {
    each(table, |case, string, numbers| {
        let [length] = numbers else {
            return no_numbers(rt, case);
        };
        let length = *length as usize;
        judges(rt, case, string, Soundness::Hopeless { length })
    })
}

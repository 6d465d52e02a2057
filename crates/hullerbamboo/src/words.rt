// The words of the command line.
use crate::say::Stop;
use arrayvec::{ArrayString, ArrayVec};
use std::env::FillError;
use std::rt::Env;
use std::str;

// A word, of 4,096 bytes at most.
pub type Word = ArrayString<4096>;

// Reads the words after the program's name, of which the first seven are kept, one more than any command has. Each is text, as the names of files are
// here.
pub fn read(rt: &impl Env, words: &mut ArrayVec<Word, 7>) -> Result<(), Stop<'static>> {
    let mut buffer = [0u8; 4096];
    for i in 1..usize::MAX {
        match rt.arg(i, &mut buffer) {
            Ok(n) => {
                let Ok(word) = str::from_utf8(&buffer[..n]) else {
                    return Err(wrong("words are text in UTF-8."));
                };
                if let Ok(word) = Word::from(word) {
                    let _ = words.try_push(word);
                }
            }
            Err(FillError::NotPresent) => break,
            Err(FillError::TooLong) => return Err(wrong("File name too long")),
        }
    }
    Ok(())
}

// What is said of a word that the program cannot print.
fn wrong(sentence: &'static str) -> Stop<'static> {
    Stop::Word {
        word: "a word of the command line",
        sentence,
    }
}

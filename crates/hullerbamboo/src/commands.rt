// The commands, each with the words that follow its name.
use crate::say::{Numbered, Stop};
use crate::words::Word;
use crate::{files, log};
use arrayvec::ArrayVec;
use cipher::Cipher;
use engine::Head;
use refusal::Refusal;
use std::rt::Runtime;
use std::{fmt, io};

// A table area, which has 2,048 words at most.
type Area = ArrayVec<u32, 2048>;

// What is read of a checkpoint: one byte more than any has.
type Checkpoint = ArrayVec<u8, 8198>;

// What is read of a file with a key or an IV: one byte more than any has.
type Key = ArrayVec<u8, 33>;

// The words without an option that may be the last of them, and whether it is.
fn without_option<'a>(words: &'a [Word], option: &str) -> (&'a [Word], bool) {
    match words.split_last() {
        Some((last, rest)) if last.as_str() == option => (rest, true),
        _ => (words, false),
    }
}

// The position that a word is.
fn position_of(word: &str) -> Result<u64, Stop<'_>> {
    lab::decimal(word.as_bytes()).ok_or(Stop::Word {
        word,
        sentence: "a position is a number of bytes in decimal, from 0 to 67108864.",
    })
}

// The cipher that a word names.
fn cipher_of(word: &str) -> Result<Cipher, Stop<'_>> {
    Cipher::try_from(lab::cipher_code(word.as_bytes())).map_err(|_| Stop::Word {
        word,
        sentence: "a cipher is hc128 or hc256.",
    })
}

// ---- the commands that begin with a key and an IV

// The cipher, the key and the IV of a stream, a position in it, and the files that the key and the IV came from.
#[derive(Drop)]
struct Start<'a> {
    cipher: Cipher,
    position: u64,
    key_path: &'a str,
    key: Key,
    iv_path: &'a str,
    iv: Key,
}

impl<'a> Start<'a> {
    // Reads the key and the IV of a cipher.
    fn read(
        rt: &impl Runtime,
        position: u64,
        cipher: &'a str,
        key_path: &'a str,
        iv_path: &'a str,
    ) -> Result<Start<'a>, Stop<'a>> {
        let cipher = cipher_of(cipher)?;
        let size = cipher.key_bytes();
        let mut key = Key::from([0; 33]);
        files::read(rt, key_path, size, &mut key)?;
        let mut iv = Key::from([0; 33]);
        files::read(rt, iv_path, size, &mut iv)?;
        Ok(Start {
            cipher,
            position,
            key_path,
            key,
            iv_path,
            iv,
        })
    }

    // What is said where the engine refuses the key, the IV or the position.
    fn refused(&self, refusal: Refusal) -> Stop<'a> {
        let size = self.cipher.key_bytes();
        let position = self.position;
        match refusal {
            Refusal::KeyLength => Stop::Length {
                what: self.key_path,
                refusal,
                size,
            },
            Refusal::IvLength => Stop::Length {
                what: self.iv_path,
                refusal,
                size,
            },
            _ => Stop::Position { position, refusal },
        }
    }
}

// cipher CIPHER KEYFILE IVFILE [FROM] [--progress]
pub fn cipher<'a>(rt: &impl Runtime, words: &'a [Word]) -> Result<(), Stop<'a>> {
    let (words, progress) = without_option(words, "--progress");
    let start = match words {
        [cipher, key, iv] => Start::read(rt, 0, cipher, key, iv)?,
        [cipher, key, iv, from] => Start::read(rt, position_of(from)?, cipher, key, iv)?,
        _ => return Err(Stop::Usage),
    };
    let mut area: Area = buffers::filled(0, start.cipher.area_words());
    let code = start.cipher.code();
    let next = lab::set_up_at(code, &start.key, &start.iv, &mut area, start.position);
    match next.answer {
        Ok(()) => log::run(rt, next.head, &mut area, progress),
        Err(refusal) => Err(start.refused(refusal)),
    }
}

// As many bytes as a checkpoint at a position has, and none where there is no such checkpoint.
fn checkpoint_room(cipher: Cipher, position: u64) -> ArrayVec<u8, 8197> {
    let length = engine::checkpoint_length(cipher.code(), position).unwrap_or(0);
    buffers::filled(0, length)
}

// write CIPHER KEYFILE IVFILE POSITION NEWCHECKPOINT
pub fn write<'a>(rt: &impl Runtime, words: &'a [Word]) -> Result<(), Stop<'a>> {
    let [cipher, key, iv, position, path] = words else {
        return Err(Stop::Usage);
    };
    let start = Start::read(rt, position_of(position)?, cipher, key, iv)?;
    let mut area: Area = buffers::filled(0, start.cipher.area_words());
    let mut lent = checkpoint_room(start.cipher, start.position);
    let code = start.cipher.code();
    let next = lab::write_at(
        code,
        &start.key,
        &start.iv,
        &mut area,
        start.position,
        &mut lent,
    );
    match next.answer {
        Ok(length) => {
            lent.truncate(length);
            files::save(rt, path, &lent)
        }
        Err(refusal) => Err(start.refused(refusal)),
    }
}

// ---- the commands that begin with a checkpoint

// Reads a checkpoint.
fn read_checkpoint<'a>(
    rt: &impl Runtime,
    path: &'a str,
    string: &mut Checkpoint,
) -> Result<(), Stop<'a>> {
    files::read(rt, path, 8198, string)
}

// An area for the tables of a checkpoint.
fn area_for(string: &[u8]) -> Area {
    buffers::filled(0, lab::cipher_of(string).area_words())
}

// open CHECKPOINT [--progress]
pub fn open<'a>(rt: &impl Runtime, words: &'a [Word]) -> Result<(), Stop<'a>> {
    let (words, progress) = without_option(words, "--progress");
    let [path] = words else {
        return Err(Stop::Usage);
    };
    if files::is_standard(path) {
        return Err(Stop::Word {
            word: path,
            sentence: "open reads the log from standard input, so CHECKPOINT is a file.",
        });
    }
    let mut string = Checkpoint::from([0; 8198]);
    read_checkpoint(rt, path, &mut string)?;
    let mut area = area_for(&string);
    let next = lab::open_checkpoint(&string, &mut area);
    match next.answer {
        Ok(()) => log::run(rt, next.head, &mut area, progress),
        Err(refusal) => Err(Stop::Refused {
            what: path,
            refusal,
        }),
    }
}

// at CHECKPOINT POSITION NEWCHECKPOINT
pub fn at<'a>(rt: &impl Runtime, words: &'a [Word]) -> Result<(), Stop<'a>> {
    let [path, position, new_path] = words else {
        return Err(Stop::Usage);
    };
    let position = position_of(position)?;
    let mut string = Checkpoint::from([0; 8198]);
    read_checkpoint(rt, path, &mut string)?;
    let mut area = area_for(&string);
    let mut lent = checkpoint_room(lab::cipher_of(&string), position);
    let next = lab::rewrite_at(&string, &mut area, position, &mut lent);
    match next.answer {
        Ok(length) => {
            lent.truncate(length);
            files::save(rt, new_path, &lent)
        }
        Err(refusal @ Refusal::PastLimit) => Err(Stop::Position { position, refusal }),
        Err(refusal) => Err(Stop::Refused {
            what: path,
            refusal,
        }),
    }
}

// The key and the IV of a checkpoint, or why the engine refuses it.
#[derive(Drop)]
struct Secret {
    key: ArrayVec<u8, 32>,
    iv: ArrayVec<u8, 32>,
    answer: Result<(), Refusal>,
}

impl Secret {
    fn of(string: &[u8], area: &mut [u32]) -> Secret {
        let cipher = lab::cipher_of(string);
        let mut key = buffers::filled(0, cipher.key_bytes());
        let mut iv = buffers::filled(0, cipher.iv_bytes());
        let answer = lab::recover_from(string, area, &mut key, &mut iv).answer;
        Secret { key, iv, answer }
    }
}

// Makes both files before a byte is written; where the second cannot be made, the first is removed again. Where neither can be written, both are said.
fn save_both<'a>(
    rt: &impl Runtime,
    key_path: &'a str,
    key: &[u8],
    iv_path: &'a str,
    iv: &[u8],
) -> Result<(), Stop<'a>> {
    let key_file = files::make(rt, key_path)?;
    let iv_file = match files::make(rt, iv_path) {
        Ok(file) => file,
        Err(stop) => {
            files::remove(rt, key_path);
            return Err(stop);
        }
    };
    let key_stored = files::store(rt, key_file, key_path, key);
    if let Err(stop) = &key_stored {
        stop.say(rt);
    }
    let iv_stored = files::store(rt, iv_file, iv_path, iv);
    if key_stored.is_err() || iv_stored.is_err() {
        files::remove(rt, key_path);
        files::remove(rt, iv_path);
    }
    iv_stored
}

// recover CHECKPOINT KEYFILE IVFILE
pub fn recover<'a>(rt: &impl Runtime, words: &'a [Word]) -> Result<(), Stop<'a>> {
    let [path, key_path, iv_path] = words else {
        return Err(Stop::Usage);
    };
    let mut string = Checkpoint::from([0; 8198]);
    read_checkpoint(rt, path, &mut string)?;
    let mut area = area_for(&string);
    let secret = Secret::of(&string, &mut area);
    match secret.answer {
        Ok(()) => save_both(rt, key_path, &secret.key, iv_path, &secret.iv),
        Err(refusal) => Err(Stop::Refused {
            what: path,
            refusal,
        }),
    }
}

// Bytes in hexadecimal.
#[derive(Clone, Copy)]
struct Hex<'a>(&'a [u8]);

impl fmt::Display for Hex<'_> {
    fn fmt<W: fmt::Write>(&self, f: &mut fmt::Formatter<W>) -> fmt::Result {
        for byte in self.0 {
            write!(f, "{byte:02x}")?;
        }
        Ok(())
    }
}

// The name of the cipher that the first byte of a checkpoint names.
fn name_in(string: &[u8]) -> &'static str {
    let Some(&code) = string.first() else {
        return "none";
    };
    match Cipher::try_from(u32::from(code)) {
        Ok(Cipher::Hc128) => "hc128",
        Ok(Cipher::Hc256) => "hc256",
        Err(_) => "none",
    }
}

// Whether a checkpoint loads, and then how far the keystream is spent after the load.
fn put_load(rt: &impl Print, string: &[u8], area: &mut [u32]) -> io::Result<()> {
    let loaded = Head::fresh().load(area, string);
    if let Err(refusal) = loaded.answer {
        return println!(rt; "loads: {}", Numbered(refusal));
    }
    let spent = loaded.head.spent().answer.unwrap_or(0);
    println!(rt; "spent: {spent}, where a load starts it; the box may have spent more")?;
    println!(rt; "loads: accepted")
}

// describe CHECKPOINT [--secret]
pub fn describe<'a>(rt: &impl Runtime, words: &'a [Word]) -> Result<(), Stop<'a>> {
    let (words, secret) = without_option(words, "--secret");
    let [path] = words else {
        return Err(Stop::Usage);
    };
    let mut string = Checkpoint::from([0; 8198]);
    read_checkpoint(rt, path, &mut string)?;
    let mut area = area_for(&string);
    println!(rt; "cipher: {}", name_in(&string))?;
    match lab::position_in(&string) {
        Some(position) => println!(rt; "position: {position}")?,
        None => println!(rt; "position: none")?,
    }
    put_load(rt, &string, &mut area)?;
    if secret {
        let secret = Secret::of(&string, &mut area);
        if secret.answer.is_ok() {
            println!(rt; "key: {}", Hex(&secret.key))?;
            println!(rt; "iv: {}", Hex(&secret.iv))?;
        }
    }
    Ok(())
}

// ---- the command with two checkpoints

// same-run CHECKPOINT CHECKPOINT
pub fn same_run<'a>(rt: &impl Runtime, words: &'a [Word]) -> Result<(), Stop<'a>> {
    let [first_path, second_path] = words else {
        return Err(Stop::Usage);
    };
    if files::is_standard(first_path) && files::is_standard(second_path) {
        return Err(Stop::Word {
            word: first_path,
            sentence: "standard input can be one of the two checkpoints, and not both.",
        });
    }
    let mut first = Checkpoint::from([0; 8198]);
    read_checkpoint(rt, first_path, &mut first)?;
    let mut second = Checkpoint::from([0; 8198]);
    read_checkpoint(rt, second_path, &mut second)?;
    match same_run::same_run(&first, &second) {
        Ok(true) => println!(rt; "same run: yes")?,
        Ok(false) => println!(rt; "same run: no")?,
        Err(refusal) => {
            // the first is refused where it is refused beside itself; two ciphers are said of the second
            let what = match same_run::same_run(&first, &first) {
                Ok(_) => second_path,
                Err(_) => first_path,
            };
            return Err(Stop::Refused { what, refusal });
        }
    }
    Ok(())
}

// Files by name, where `-` is standard input or standard output.
ghost use Rattle.std.specs.Prelude.{◌≤◌, length, IfOk};

use crate::say::Stop;
use arrayvec::ArrayVec;
use std::fs::{OpenFile, OpenOptions, Permissions};
use std::io::{ErrorKind, Read, Write};
use std::os::unix::fs::{OpenOptionsExt, PermissionsExt};
use std::rt::{Files, Runtime};
use std::{fs, io};

// Where the bytes of a file go: to standard output, or into a new file.
#[derive(Drop)]
pub enum Target<F> {
    Standard,
    New(F),
}

// Whether a name is `-`.
pub fn is_standard(path: &str) -> bool {
    path == "-"
}

// Reads until the buffer is full or the input ends, and gives how many bytes are at its start then. An interrupted read goes on.
fn fill(input: &mut impl Read, buffer: &mut [u8]) -> io::Result<usize>
    ensures { IfOk result (λ n. n ≤ length buffer.new) }
{
    let mut n = 0;
    for _ in 0..u64::MAX {
        if n == buffer.len() {
            break;
        }
        match input.read(&mut buffer[n..]) {
            Ok(0) => break,
            Ok(more) => n += more,
            Err(error) => {
                if error.kind() != ErrorKind::Interrupted {
                    return Err(error);
                }
            }
        }
    }
    Ok(n)
}

// Reads a file, up to the buffer's length; from standard input `size` bytes and no more, since others may follow. Gives how many bytes were read.
fn read_bytes(rt: &impl Runtime, path: &str, size: usize, buffer: &mut [u8]) -> io::Result<usize>
    ensures { IfOk result (λ n. n ≤ length buffer.new) }
{
    if is_standard(path) {
        let size = size.min(buffer.len());
        fill(&mut rt.reader(), &mut buffer[..size])
    } else {
        fill(&mut fs::open(rt, path)?, buffer)
    }
}

// Reads a file into a full buffer, and leaves as many of its bytes as were read; from standard input `size` bytes and no more.
pub fn read<'a, const N: usize>(
    rt: &impl Runtime,
    path: &'a str,
    size: usize,
    bytes: &mut ArrayVec<u8, N>,
) -> Result<(), Stop<'a>> {
    let n = read_bytes(rt, path, size, bytes).map_err(|error| Stop::System { what: path, error })?;
    bytes.truncate(n);
    Ok(())
}

// Makes a file that only its owner may read, and answers where its bytes go. It fails where the name is taken.
fn make_file<R: Files>(rt: &R, path: &str) -> io::Result<Target<R::File>> {
    if is_standard(path) {
        return Ok(Target::Standard);
    }
    let mut options = OpenOptions::new();
    options.write(true).create_new(true).mode(0o600);
    let file = options.open(rt, path)?;
    let _ = file.set_permissions(Permissions::from_mode(0o600));
    Ok(Target::New(file))
}

// Makes a file that only its owner may read, and answers where its bytes go.
pub fn make<'a, R: Files>(rt: &R, path: &'a str) -> Result<Target<R::File>, Stop<'a>> {
    make_file(rt, path).map_err(|error| Stop::System { what: path, error })
}

// Removes a file that this program made.
pub fn remove(rt: &impl Files, path: &str) {
    if !is_standard(path) {
        let _ = fs::remove_file(rt, path);
    }
}

// Writes what a file is to hold, and closes it.
pub fn store<'a, R: Files + Print>(
    rt: &R,
    target: Target<R::File>,
    path: &'a str,
    bytes: &[u8],
) -> Result<(), Stop<'a>> {
    let written = match target {
        Target::Standard => rt.write_all(bytes),
        Target::New(mut file) => file.write_all(bytes),
    };
    written.map_err(|error| Stop::System { what: path, error })
}

// Makes a file with these bytes; where they cannot be written, it is removed again.
pub fn save<'a>(rt: &(impl Files + Print), path: &'a str, bytes: &[u8]) -> Result<(), Stop<'a>> {
    let target = make(rt, path)?;
    let stored = store(rt, target, path, bytes);
    if stored.is_err() {
        remove(rt, path);
    }
    stored
}

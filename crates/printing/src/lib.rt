// What the sample programs share: the blocks that they write, bookmarks, appends and readings on standard output, and files read
// whole. A write or a read that fails is handed on as an error.
#![tactic(auto)]

pub mod blocks;
pub mod bookmarks;

ghost use Rattle.std.specs.Prelude.{◌≡◌, length};
ghost use Rattle.std.specs.Io.{ReadsAtMost};

use std::io::{self, Read, Write};
use std::rt::Files;
use std::{fs, str};

// Internal: prints bytes as they are, which need not be UTF-8.
pub fn print_bytes(rt: &impl Print, bytes: &[u8]) -> io::Result<()> {
    io::writer(rt).write_all(bytes)
}

// Internal: reads until the buffer is full or the input ends, and answers how many bytes came.
pub fn read_full<R: Read>(reader: &mut R, buf: &mut [u8]) -> io::Result<usize>
    ensures within { ReadsAtMost result buf.new }
    ensures kept_length { length buf.new ≡ length buf.old }
{
    let mut done: usize = 0;
    for _ in 0..buf.len() {
        let n = reader.read(&mut buf[done..])?;
        if n == 0 {
            break;
        }
        done += n;
    }
    Ok(done)
}

// Internal: reads a file into the buffer, and answers how many bytes it has; a file that can't be opened has none, and one whose name
// is not UTF-8 can't be.
pub fn load<R: Files + Eprint>(rt: &R, name: &[u8], buf: &mut [u8]) -> io::Result<usize>
    ensures within { ReadsAtMost result buf.new }
    ensures kept_length { length buf.new ≡ length buf.old }
{
    let Ok(path) = str::from_utf8(name) else {
        eprintln!(rt; "a file whose name is not UTF-8 can't be opened")?;
        return Ok(0);
    };
    match fs::open(rt, path) {
        Ok(mut file) => read_full(&mut file, buf),
        Err(error) => {
            eprintln!(rt; "{path}: {error}")?;
            Ok(0)
        }
    }
}

#![tactic(auto)]

// Runs the readings of the files that its arguments name: each line's call is made, and its answer
// compared with the one that the line has.
ghost use Rattle.std.specs.Prelude.{◌≤◌, length};

use std::env::FillError;
use std::fs::File;
use std::io::Read;
use std::rt::{Env, Files};
use std::str;
use test_reading_lines::tally::Tally;

// A machine with its memory, and the calls on it.
mod bench;

// 8 bytes of a memory.
mod bytes;

// A file's readings and their lines.
mod text;

// What is printed of them.
mod print;

// Reads until the buffer is full, the file ends or a read fails, and gives how many bytes there are:
// no method of the library says that after an error.
fn read_full(file: &mut impl Read, buffer: &mut [u8]) -> usize
    ensures { result ≤ length buffer.new }
{
    let mut done: usize = 0;
    while done < buffer.len() {
        match file.read(&mut buffer[done..]) {
            Ok(0) => return done,
            Ok(n) => done += n,
            Err(_) => return done,
        }
    }
    done
}

// The bytes of the file at a path, and none where it can't be opened: that file, too, was not read whole.
fn read_file<'a>(rt: &impl Files, path: &[u8], buffer: &'a mut [u8]) -> &'a [u8]
    ensures { length result.now ≤ length buffer.old }
{
    let Ok(path) = str::from_utf8(path) else {
        return &[];
    };
    match File::open(rt, path) {
        Ok(mut file) => {
            let n = read_full(&mut file, buffer);
            &buffer[..n]
        }
        Err(_) => &[],
    }
}

// A file that fills the buffer may go on after it, and an empty one was not read.
fn run_file(rt: &(impl Files + Print), path: &[u8], tally: Tally) -> Tally {
    let mut buffer = [0u8; 65536];
    let text = read_file(rt, path, &mut buffer);
    let whole = !text.is_empty() & (text.len() < 65536);
    print::print_file(rt, path, whole);
    text::run_text(rt, text, tally.with_file(whole))
}

// With no heap each argument is read into a buffer.
fn main(rt: HostRuntime) {
    let mut tally = Tally::new();
    for i in 1..usize::MAX {
        let mut path = [0u8; 4096];
        match rt.arg(i, &mut path) {
            Ok(length) => tally = run_file(&rt, &path[..length], tally),
            Err(FillError::TooLong) => tally = run_file(&rt, b"", tally),
            Err(FillError::NotPresent) => break,
        }
    }
    let _ = println!(rt; "{tally}");
}

#![tactic(auto)]

// Checks the files of test vectors that its arguments name: each line's word is decoded and computed,
// and compared with the line's result.
use failures::Failure;
use std::env::FillError;
use std::fs::File;
use std::rt::{Env, Files};
use std::{io, str};
use tally::Tally;

// What a word computes for the values of x6 and x7.
mod execution;

// What is printed of a line that differs.
mod report;

// A line checked and counted.
mod tally;

// The lines of a file that is read in pieces.
mod file;

fn check_file(rt: &(impl Files + Print), path: &str, tally: &mut Tally) -> io::Result<()> {
    let mut file = File::open(rt, path)?;
    let _ = println!(rt; "{path}");
    file::check_lines(rt, &mut file, tally)
}

fn check_path(rt: &(impl Files + Print + Eprint), path: &str, tally: &mut Tally) {
    if let Err(error) = check_file(rt, path, tally) {
        let _ = eprintln!(rt; "{path}: {}", Failure(error));
        tally.add_damage();
    }
}

// An argument that names no file.
fn unnamed(rt: &impl Eprint, why: &str, tally: &mut Tally) {
    let _ = eprintln!(rt; "path: {why}");
    tally.add_damage();
}

fn check_argument(rt: &(impl Files + Print + Eprint), path: &[u8], tally: &mut Tally) {
    match str::from_utf8(path) {
        Ok(path) => check_path(rt, path, tally),
        Err(_) => unnamed(rt, "Not UTF-8", tally),
    }
}

// The first argument has to be there. With no heap each is read into a buffer.
fn main(rt: HostRuntime) {
    let mut tally = Tally::default();
    for i in 1..usize::MAX {
        let mut path = [0u8; 4096];
        match rt.arg(i, &mut path) {
            Ok(length) => check_argument(&rt, &path[..length], &mut tally),
            Err(FillError::TooLong) => unnamed(&rt, "File name too long", &mut tally),
            Err(FillError::NotPresent) => {
                if i == 1 {
                    unnamed(&rt, "Invalid argument", &mut tally);
                }
                break;
            }
        }
    }
    let _ = println!(rt; "{tally}");
}

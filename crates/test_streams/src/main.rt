#![tactic(auto)]

// Runs each record stream that its arguments name, in turn, and writes the name and what the stream prints.
use failures::Failure;
use std::env::FillError;
use std::fs::File;
use std::rt::{Env, Files};
use std::str;

fn run_file(rt: &(impl Files + Print + Eprint), path: &str) {
    match File::open(rt, path) {
        Ok(mut file) => {
            let _ = println!(rt; "{path}");
            let _ = stream_io::run_descriptor(rt, &mut file, "stream");
        }
        Err(error) => {
            let _ = eprintln!(rt; "{path}: {}", Failure(error));
        }
    }
}

fn run_argument(rt: &(impl Files + Print + Eprint), path: &[u8]) {
    match str::from_utf8(path) {
        Ok(path) => run_file(rt, path),
        Err(_) => {
            let _ = eprintln!(rt; "argument: Not UTF-8");
        }
    }
}

// With no heap each argument is read into a buffer.
// What is said of an argument that can't be read is each program's own.
fn main(rt: HostRuntime) {
    for i in 1..usize::MAX {
        let mut path = [0u8; 4096];
        match rt.arg(i, &mut path) {
            Ok(length) => run_argument(&rt, &path[..length]),
            Err(FillError::TooLong) => {
                let _ = eprintln!(rt; "argument: File name too long");
            }
            Err(FillError::NotPresent) => break,
        }
    }
}

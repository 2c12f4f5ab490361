#![tactic(auto)]

// Errors of input and output, as the programs say them.
ghost use Rattle.std.specs.Prelude.{◌≤◌, length};

use std::fmt::{Display, Formatter};
use std::io::{Cursor, Write};
use std::{fmt, io, str};

// What stands between the words of an error and its number.
const NUMBER: &[u8] = b" (os error ";

// Where the words of an error end.
fn words_end(text: &[u8]) -> usize
    ensures { result ≤ length text.now }
{
    let number = text
        .windows(NUMBER.len())
        .position(|window| window == NUMBER);
    number.unwrap_or(text.len())
}

// An error of input or output, displayed by its words alone.
#[derive(Drop)]
pub struct Failure(pub io::Error);

impl Display for Failure {
    fn fmt<W: fmt::Write>(&self, f: &mut Formatter<W>) -> fmt::Result {
        let mut text = Cursor::new([0u8; 256]);
        let _ = write!(text, "{}", self.0);
        let length = (text.position() as usize).min(256);
        let text = text.into_inner();
        let words = str::from_utf8(&text[..words_end(&text[..length])]).unwrap_or("");
        f.write_str(words)
    }
}

#[test]
fn numbers_are_left_out(rt: HostRuntime) {
    assert_eq!(rt; words_end(b"Is a directory (os error 21)"), 14);
    assert_eq!(rt; words_end(b"too many (of them)"), 18);
}

ghost use Rattle.std.specs.Prelude.{◌≡◌, ℕ, List, drop};
ghost use Rattle.test_reading_lines.specs.Words.{word_start, word_end, words_of, word_at};
ghost use Rattle.test_reading_lines.specs.Number.{up_to};
ghost use Rattle.test_reading_lines.specs.Calls.{argument_of, after_argument};

use crate::number::up_to;
use std::marker::Model;

// Where the spaces before the next word end.
fn word_start(line: &[u8]) -> Option<usize>
    ensures { result ≡ word_start line.now }
{
    line.iter().position(|&byte| byte != b' ')
}

fn word_end(text: &[u8]) -> Option<usize>
    ensures { result ≡ word_end text.now }
{
    text.iter().position(|&byte| byte == b' ')
}

// What is left of a line, word by word.
#[derive(Drop)]
pub(crate) struct Words<'a> {
    rest: &'a [u8],
}

impl<'a> Model for Words<'a> {
    ghost Value = { List (List ℕ) };

    ghost view = { λ w. words_of w.rest.now };
}

pub(crate) fn words_of(line: &[u8]) -> Words<'_>
    ensures { result ≡ words_of line.now }
{
    Words { rest: line }
}

impl<'a> Words<'a> {
    // The next word, which is empty at the end of the line, as `word_at` of the definitions is.
    pub(crate) fn next(&mut self) -> &'a [u8]
        ensures word { result.now ≡ word_at 0 self.old }
        ensures rest { self.new ≡ drop 1 self.old }
    {
        let line = self.rest;
        let start = word_start(line).unwrap_or(line.len());
        let text = &line[start..];
        let end = word_end(text).unwrap_or(text.len());
        let (word, rest) = text.split_at(end);
        self.rest = rest;
        word
    }

    // The next word as a number that is not above a limit.
    pub(crate) fn up_to(&mut self, most: u64) -> Option<u64>
        ensures value { result ≡ up_to most (word_at 0 self.old) }
        ensures rest { self.new ≡ drop 1 self.old }
    {
        up_to(self.next(), most)
    }

    // An argument of a call, and 0 with no word where it takes none.
    pub(crate) fn argument_of(&mut self, most: Option<u64>) -> Option<u64>
        ensures value { result ≡ argument_of most self.old }
        ensures rest { self.new ≡ after_argument most self.old }
    {
        match most {
            Some(most) => self.up_to(most),
            None => Some(0),
        }
    }
}

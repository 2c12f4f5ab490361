ghost use Rattle.std.specs.Prelude.{◌≡◌, Some};
ghost use Rattle.test_reading_lines.specs.Words.{words_of};
ghost use Rattle.test_reading_lines.specs.Line.{expected_of, call_line, line_of};
ghost use Rattle.test_reading_lines.specs.Shown.{answered_text};

use crate::call::{Call, Limits};
use crate::words::{Words, words_of};
use std::fmt;

// The last number in the table of answers.
const LARGEST_ANSWER: u64 = 9;

// What a call answers, by its number, and the value returned with it.
#[derive(Clone, Copy, PartialEq, Eq)]
pub struct Answered {
    pub answer: u64,
    pub value: u64,
}

impl fmt::Display for Answered {
    ghost output = { λ a. Some (answered_text a) };

    fn fmt<W: fmt::Write>(&self, f: &mut fmt::Formatter<W>) -> fmt::Result {
        let Answered { answer, value } = *self;
        write!(f, "{answer} 0x{value:x}")
    }
}

// A call, its arguments, and what it must answer.
#[derive(Clone, Copy)]
pub struct CallLine {
    pub call: Call,
    // 0 where a call takes none: the same code reads all calls' by their limits. In `Call`'s cases each needs its own.
    pub first: u64,
    pub second: u64,
    pub expected: Answered,
}

#[derive(Clone, Copy)]
pub enum Line {
    // The name of a reading.
    Name,
    Call(CallLine),
    // A note, or nothing.
    Note,
    Damaged,
}

// `= answer value`, or nothing, which is `= 0 0`; and then the line's end.
#[tactic(auto, unfolding(crate::specs::Line::expected_of))]
fn expected_of(words: &mut Words) -> Option<Answered>
    ensures { result ≡ expected_of words.old }
{
    match words.next() {
        [] => Some(Answered {
            answer: 0,
            value: 0,
        }),
        b"=" => {
            let answer = words.up_to(LARGEST_ANSWER)?;
            let value = words.up_to(u64::MAX)?;
            let ended = words.next().is_empty();
            ended.then_some(Answered { answer, value })
        }
        _ => None,
    }
}

// The line of a call, where its parts can be read.
#[tactic(auto, unfolding(crate::specs::Line::call_line, crate::specs::Line::call_with))]
fn call_line(line: &[u8]) -> Option<CallLine>
    ensures { result ≡ call_line (words_of line.now) }
{
    let mut words = words_of(line);
    let call = Call::of(words.next())?;
    let Limits(first, second) = call.limits();
    let first = words.argument_of(first)?;
    let second = words.argument_of(second)?;
    let expected = expected_of(&mut words)?;
    Some(CallLine {
        call,
        first,
        second,
        expected,
    })
}

// `#` begins the name of a reading, and `-` a note.
#[tactic(auto, unfolding(crate::specs::Line::line_of))]
pub fn line_of(line: &[u8]) -> Line
    ensures { result ≡ line_of line.now }
{
    match line {
        [] => Line::Note,
        [b'#', ..] => Line::Name,
        [b'-', ..] => Line::Note,
        _ => call_line(line).map_or(Line::Damaged, Line::Call),
    }
}

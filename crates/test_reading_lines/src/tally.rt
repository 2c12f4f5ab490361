ghost use Rattle.std.specs.Prelude.{◌≡◌, Some};
ghost use Rattle.test_reading_lines.specs.Shown.{tally_text};
ghost use Rattle.test_reading_lines.specs.Tally.{outcome_of, tally, with_outcome, with_file};

use crate::line::{Answered, Line};
use std::fmt;

// A count stays at the largest number, which no file reaches.
#[derive(Clone, Copy)]
pub struct Tally {
    pub readings: u64,
    pub agree: u64,
    pub differ: u64,
    pub damaged: u64,
    // The number of the last line, in its file.
    pub line: u64,
}

// What a line came to.
#[derive(Clone, Copy)]
pub enum Outcome {
    Name,
    Note,
    Agrees,
    Differs,
    Damaged,
}

// What a line comes to with what its call answered.
#[tactic(auto, unfolding(crate::specs::Tally::outcome_of))]
pub fn outcome_of(line: Line, came: Answered) -> Outcome
    ensures { result ≡ outcome_of line came }
{
    match line {
        Line::Name => Outcome::Name,
        Line::Note => Outcome::Note,
        Line::Damaged => Outcome::Damaged,
        Line::Call(call) if came == call.expected => Outcome::Agrees,
        Line::Call(_) => Outcome::Differs,
    }
}

impl Tally {
    // Not derived: the contract says each field.
    pub fn new() -> Tally
        ensures { result ≡ tally 0 0 0 0 0 }
    {
        Tally {
            readings: 0,
            agree: 0,
            differ: 0,
            damaged: 0,
            line: 0,
        }
    }

    #[tactic(auto, unfolding(crate::specs::Tally::with_outcome, crate::specs::Tally::one_more))]
    pub fn with_outcome(mut self, outcome: Outcome) -> Tally
        ensures { result ≡ with_outcome outcome self }
    {
        self.line = self.line.saturating_add(1);
        match outcome {
            Outcome::Name => self.readings = self.readings.saturating_add(1),
            Outcome::Note => {}
            Outcome::Agrees => self.agree = self.agree.saturating_add(1),
            Outcome::Differs => self.differ = self.differ.saturating_add(1),
            Outcome::Damaged => self.damaged = self.damaged.saturating_add(1),
        }
        self
    }

    // A file's lines come next. One that could not be read whole counts as a damaged line.
    #[tactic(auto, unfolding(crate::specs::Tally::with_file, crate::specs::Tally::one_more))]
    pub fn with_file(mut self, whole: bool) -> Tally
        ensures { result ≡ with_file whole self }
    {
        self.line = 0;
        if !whole {
            self.damaged = self.damaged.saturating_add(1);
        }
        self
    }
}

impl fmt::Display for Tally {
    ghost output = { λ t. Some (tally_text t) };

    fn fmt<W: fmt::Write>(&self, f: &mut fmt::Formatter<W>) -> fmt::Result {
        let Tally {
            readings,
            agree,
            differ,
            damaged,
            line: _,
        } = *self;
        write!(
            f,
            "{readings} readings, {agree} lines agree, {differ} differ, {damaged} damaged"
        )
    }
}

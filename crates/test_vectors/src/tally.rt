use crate::execution::execute;
use crate::report::Difference;
use std::fmt;
use test_vector_lines::line::line_of;

// How many lines of a file there were, and of all files of each kind. A count stays at the largest
// number, which no file reaches.
#[derive(Clone, Copy, Default)]
pub struct Tally {
    pub lines: u64,
    pub agree: u64,
    pub differ: u64,
    pub damaged: u64,
}

impl Tally {
    // A damaged line, or a file that can't be read to its end.
    pub(crate) fn add_damage(&mut self) {
        self.damaged = self.damaged.saturating_add(1);
    }

    // A line's word computed and compared with its result; said where they differ.
    pub(crate) fn add_line(&mut self, rt: &impl Print, line: &[u8]) {
        self.lines = self.lines.saturating_add(1);
        let Some(vector) = line_of(line) else {
            let _ = println!(rt; "line {}: damaged", self.lines);
            self.add_damage();
            return;
        };
        let expected = vector.result;
        let got = execute(vector.word, vector.rs1, vector.rs2);
        if got == Some(expected) {
            self.agree = self.agree.saturating_add(1);
        } else {
            let _ = println!(rt; "line {}: {}", self.lines, Difference { expected, got });
            self.differ = self.differ.saturating_add(1);
        }
    }
}

impl fmt::Display for Tally {
    fn fmt<W: fmt::Write>(&self, f: &mut fmt::Formatter<W>) -> fmt::Result {
        let Tally {
            lines: _,
            agree,
            differ,
            damaged,
        } = *self;
        write!(
            f,
            "vectors: {agree} agree, {differ} differ, {damaged} damaged"
        )
    }
}

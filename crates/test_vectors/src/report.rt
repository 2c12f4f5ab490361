use std::fmt;

// A line's result, and what its word computes instead, if anything.
#[derive(Drop)]
pub(crate) struct Difference {
    pub(crate) expected: u64,
    pub(crate) got: Option<u64>,
}

impl fmt::Display for Difference {
    fn fmt<W: fmt::Write>(&self, f: &mut fmt::Formatter<W>) -> fmt::Result {
        write!(f, "expected {:016x}, got ", self.expected)?;
        match self.got {
            Some(got) => write!(f, "{got:016x}"),
            None => f.write_str("no operation from x6 and x7 to x5"),
        }
    }
}

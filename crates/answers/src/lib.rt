#![tactic(auto)]

// What a call says.
ghost use Rattle.std.specs.Prelude.{◌≡◌};
ghost use Rattle.answers.specs.Answer.{number_of, value_of, accepts, pauses};
ghost use Rattle.answers.specs.Verdict.{valid, verdict};

// One enum and no Result of refusals: these are the answers that the requirements list in one table, by number, and a
// call's own answer, 0 or 7, is one of them too (`valid`, `verdict`).
#[derive(Clone, Copy)]
pub enum Answer {
    Done(u64),
    Paused,
    UnknownWord,
    PastRegisters,
    BadWidth,
    Outside(u64),
    OutOfShape,
    BadValue,
    NoSuchPlace,
    Misaligned(u64),
}

impl Answer {
    // By name, not by `From`: an answer has two numbers.
    pub fn number(self) -> u32
        ensures { result ≡ number_of self }
    {
        match self {
            Answer::Done(_) => 0,
            Answer::Paused => 1,
            Answer::UnknownWord => 2,
            Answer::PastRegisters => 3,
            Answer::BadWidth => 4,
            Answer::Outside(_) => 5,
            Answer::OutOfShape => 6,
            Answer::BadValue => 7,
            Answer::NoSuchPlace => 8,
            Answer::Misaligned(_) => 9,
        }
    }

    // The value of an accepted call, the address of a memory fault, and otherwise 0.
    pub fn value(self) -> u64
        ensures { result ≡ value_of self }
    {
        match self {
            Answer::Done(value) => value,
            Answer::Outside(address) | Answer::Misaligned(address) => address,
            _ => 0,
        }
    }

    #[tactic(auto, unfolding(crate::specs::Answer::accepts))]
    pub fn accepts(self) -> bool
        ensures { result ≡ accepts self }
    {
        matches!(self, Answer::Done(_))
    }

    #[tactic(auto, unfolding(crate::specs::Answer::pauses))]
    pub fn pauses(self) -> bool
        ensures { result ≡ pauses self }
    {
        matches!(self, Answer::Paused)
    }
}

// A call's own answer, by whether its value can be taken.
pub fn valid(taken: bool) -> Answer
    ensures { result ≡ valid taken }
{
    if !taken {
        return Answer::BadValue;
    }
    Answer::Done(0)
}

// What a setting or reading call says, by its two tests and its own answer.
#[tactic(auto, unfolding(crate::specs::Verdict::verdict))]
pub fn verdict(shaped: bool, exists: bool, own: Answer) -> Answer
    ensures { result ≡ verdict shaped exists own }
{
    if !shaped {
        return Answer::OutOfShape;
    }
    if !exists {
        return Answer::NoSuchPlace;
    }
    own
}

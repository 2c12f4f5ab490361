// Where an instruction stands, and how a walk leaves it.
ghost use Rattle.std.specs.Prelude.{◌≡◌};
ghost use Rattle.walk_operations.specs.Context.{at_offsets, fault_answer, paused, onward, ended, faulted};

use answers::Answer;

// The two offsets are handed on as two numbers: a struct of a pair would be taken apart at each use.
#[derive(Clone, Copy)]
pub struct Position {
    pub pc: u64,
    pub source: usize,
    pub destination: usize,
}

// An answer, and where the instruction stands after it.
#[derive(Clone, Copy)]
pub struct Ran {
    pub answer: Answer,
    pub position: Position,
}

// Why an access is refused.
#[derive(Clone, Copy)]
pub enum Fault {
    Misaligned,
    Outside,
}

impl Fault {
    // What a run says of it.
    pub fn answer(self, address: u64) -> Answer
        ensures { result ≡ fault_answer self address }
    {
        match self {
            Fault::Misaligned => Answer::Misaligned(address),
            Fault::Outside => Answer::Outside(address),
        }
    }
}

impl Position {
    // The offsets as given.
    fn at_offsets(self, source: usize, destination: usize) -> Position
        ensures { result ≡ at_offsets self source destination }
    {
        Position {
            source,
            destination,
            ..self
        }
    }

    // An instruction that hasn't moved.
    pub fn paused(self) -> Ran
        ensures { result ≡ paused self }
    {
        Ran {
            answer: Answer::Paused,
            position: self,
        }
    }

    // An instruction that goes on at a pair of positions.
    pub fn onward(self, source: usize, destination: usize) -> Ran
        ensures { result ≡ onward self source destination }
    {
        self.at_offsets(source, destination).paused()
    }

    // A memory fault at a pair of positions: the program counter stays where it is.
    pub fn faulted(self, fault: Fault, address: u64, source: usize, destination: usize) -> Ran
        ensures { result ≡ faulted fault address self source destination }
    {
        Ran {
            answer: fault.answer(address),
            position: self.at_offsets(source, destination),
        }
    }

    // The end of an instruction of some bytes.
    pub fn ended(self, bytes: u64) -> Ran
        ensures { result ≡ ended bytes self }
    {
        Ran {
            answer: Answer::Done(0),
            position: Position {
                pc: self.pc.wrapping_add(bytes),
                source: 0,
                destination: 0,
            },
        }
    }
}

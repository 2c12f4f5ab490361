#![tactic(auto)]

// The machine by value, and the calls that set and read it.
ghost use Rattle.std.specs.Prelude.{◌≡◌};
ghost use Rattle.machine.specs.Shape.{fresh_machine, in_shape, Sized};
ghost use Rattle.machine.specs.Calls.{refuse, done, guarded};

use answers::{Answer, verdict};
use registers::REGISTERS;
use state_word::State;
use tables::ENTRIES;
use tables::entry::all_bit0_clear;

pub mod reading;
pub mod running;
pub mod setting;

// The two tables stand last: all before them is what one room has of its own. C's layout is for the benchmark, which
// hands a machine over by value (crate test_bench); the C interface lends arrays, and does not use it.
#[repr(C)]
#[derive(Clone, Copy)]
pub struct Machine {
    pub registers: [u64; REGISTERS],
    pub pc: u64,
    pub state: State,
    pub register_table: [u16; ENTRIES],
    pub predicate_table: [u16; ENTRIES],
}

// An answer, and the machine after the call.
#[derive(Clone, Copy)]
pub struct Reply {
    pub answer: Answer,
    pub machine: Machine,
}

impl Machine {
    pub const REGISTERS: usize = REGISTERS;

    pub const ELEMENTS: u32 = 64;

    pub const ENTRIES: usize = ENTRIES;

    pub fn fresh() -> Machine
        ensures { result ≡ fresh_machine }
    {
        let state = State {
            mvl: 1,
            vl: 1,
            cfg: 24,
            source: 0,
            destination: 0,
        };
        Machine {
            registers: [0; Machine::REGISTERS],
            pc: 0,
            state,
            register_table: [0; Machine::ENTRIES],
            predicate_table: [0; Machine::ENTRIES],
        }
    }

    // The machine itself. Its arrays have their lengths, whatever it holds: a theorem that takes `Sized` as a premise
    // has it here.
    pub fn sized(self) -> Machine
        ensures { (result ≡ self) × Sized self }
    {
        self
    }

    // Whether none of the reasons of answer 6 applies.
    #[tactic(auto, unfolding(crate::specs::Shape::in_shape, crate::specs::Shape::room_in_shape, crate::specs::Shape::tables_in_shape))]
    pub fn in_shape(self) -> bool
        ensures { result ≡ in_shape self }
    {
        let state = self.state;
        state.in_shape() & (self.registers[0] == 0) & all_bit0_clear(&self.predicate_table)
    }

    // A setting or reading call, by whether its entry or register exists, its own answer, and what it replies where
    // nothing refuses it.
    fn guarded(self, exists: bool, own: Answer, reply: Reply) -> Reply
        ensures { result ≡ guarded self exists own reply }
    {
        let answer = verdict(self.in_shape(), exists, own);
        if answer.accepts() {
            return reply;
        }
        self.refuse(answer)
    }

    fn refuse(self, answer: Answer) -> Reply
        ensures { result ≡ refuse self answer }
    {
        Reply {
            answer,
            machine: self,
        }
    }

    fn done(self, value: u64) -> Reply
        ensures { result ≡ done self value }
    {
        Reply {
            answer: Answer::Done(value),
            machine: self,
        }
    }
}

// The run call, and one unit of it.
ghost use Rattle.std.specs.Prelude.{◌≡◌, true};
ghost use Rattle.walk_pausable.specs.Outcome.{outcome};
ghost use Rattle.machine.specs.Shape.{in_shape};
ghost use Rattle.machine.specs.Run.{system, run, step};

use crate::{Machine, Reply};
use answers::Answer;
use decode::decode;
use walk_operations::position::Position;

impl Machine {
    // The run of a machine in shape. Its registers are lent, and worked on in place.
    fn run_in_shape(mut self, word: u32, allowance: u16, memory: &mut [u8]) -> Reply
        requires { in_shape self ≡ true }
        ensures { outcome result.answer (system result.machine memory.new)
            ≡ run word allowance (system self memory.old) }
    {
        let position = Position {
            pc: self.pc,
            source: self.state.source as usize,
            destination: self.state.destination as usize,
        };
        let decoded = decode(
            word,
            self.state.cfg,
            &self.register_table,
            &self.predicate_table,
        );
        let ran = walk_handler::run(
            decoded,
            self.state.vl,
            position,
            allowance,
            &mut self.registers,
            memory,
        );
        let after = ran.position;
        self.pc = after.pc;
        self.state.source = after.source as u32;
        self.state.destination = after.destination as u32;
        let answer = ran.answer;
        Reply {
            answer,
            machine: self,
        }
    }

    // Runs a word for at most as many units as allowed.
    pub fn run(self, word: u32, allowance: u16, memory: &mut [u8]) -> Reply
        ensures { outcome result.answer (system result.machine memory.new)
            ≡ run word allowance (system self memory.old) }
    {
        if self.in_shape() {
            return self.run_in_shape(word, allowance, memory);
        }
        self.refuse(Answer::OutOfShape)
    }

    // One unit.
    pub fn step(self, word: u32, memory: &mut [u8]) -> Reply
        ensures { outcome result.answer (system result.machine memory.new)
            ≡ step word (system self memory.old) }
    {
        self.run(word, 1, memory)
    }
}

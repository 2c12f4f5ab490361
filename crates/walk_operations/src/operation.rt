// An operation: one position after another.
ghost use Rattle.std.specs.Prelude.{◌≡◌, ◌<◌};
ghost use Rattle.walk_pausable.specs.Walk.{walk};
ghost use Rattle.walk_operations.specs.Context.{WithAnyMemory, pausing};
ghost use Rattle.walk_operations.specs.Operation.{second_at, element_of, go_on, operation_unit};
ghost use Rattle.walk_operations.specs.OperationReady.{SecondFits, OperationReady};

use crate::generic::walk_over;
use crate::position::{Position, Ran};
use crate::walk::Plan;
use compute::compute;
use registers::{REGISTERS, write_within};
use scalar::operator::Operator;
use walk_operands::mask::Mask;
use walk_operands::place::Place;

#[derive(Clone, Copy)]
pub enum SecondPlace {
    Register(Place),
    Immediate(u64),
}

#[derive(Clone, Copy)]
pub struct OperationPlan {
    pub vl: usize,
    pub operator: Operator,
    pub destination: Place,
    pub mask: Mask,
    pub first: Place,
    pub second: SecondPlace,
}

// The second operand at a position.
fn second_at(second: SecondPlace, registers: &[u64; REGISTERS], vl: usize, i: usize) -> u64
    requires { SecondFits vl second × (i < vl) }
    ensures { result ≡ second_at second registers.now i }
{
    match second {
        SecondPlace::Register(place) => registers[place.at(i)],
        SecondPlace::Immediate(value) => value,
    }
}

// On from a position that is done.
#[tactic(auto, unfolding(crate::specs::Operation::go_on))]
fn go_on(vl: usize, position: Position, i: usize) -> Ran
    requires { i < 64 }
    ensures { result ≡ go_on vl position i }
{
    if i + 1 < vl {
        position.onward(i + 1, i + 1)
    } else {
        position.ended(4)
    }
}

impl OperationPlan {
    // What a position computes.
    #[tactic(auto, unfolding(crate::specs::Operation::element_of))]
    fn element(self, registers: &[u64; REGISTERS], i: usize) -> u64
        requires { OperationReady self × (i < self.vl) }
        ensures { result ≡ element_of self registers.now i }
    {
        let a = registers[self.first.at(i)];
        let second = self.second;
        let b = second_at(second, registers, self.vl, i);
        let operator = self.operator;
        compute(operator, a, b)
    }

    // One position.
    pub fn unit(self, position: Position, registers: &mut [u64; REGISTERS]) -> Ran
        requires { OperationReady self × (position.destination < self.vl) }
        ensures { WithAnyMemory (operation_unit self)
            registers.old position result registers.new }
    {
        let i = position.destination;
        if self.mask.is_on(i) {
            let value = self.element(registers, i);
            let to = self.destination.at(i);
            write_within(registers, to, value);
            if self.destination.vector {
                return go_on(self.vl, position, i);
            }
            return position.ended(4);
        }
        if self.mask.zeroing {
            let to = self.destination.at(i);
            write_within(registers, to, 0);
        }
        go_on(self.vl, position, i)
    }

    // At most as many positions as allowed.
    pub fn walk(self, position: Position, allowance: u16, registers: &mut [u64; REGISTERS]) -> Ran
        requires { OperationReady self × (position.destination < self.vl) }
        ensures { WithAnyMemory (walk pausing (operation_unit self) allowance)
            registers.old position result registers.new }
    {
        let mut memory = [0u8; 0];
        walk_over(self, position, allowance, registers, &mut memory)
    }
}

impl Plan for OperationPlan {
    ghost begins = { λ plan position. OperationReady plan × (position.destination < plan.vl) };

    ghost stands = { λ plan position. OperationReady plan × (position.destination < plan.vl) };

    ghost unit_of = { operation_unit };

    fn start(self, position: Position) -> Position {
        position
    }

    fn walk_unit(
        self,
        position: Position,
        registers: &mut [u64; REGISTERS],
        memory: &mut [u8],
    ) -> Ran {
        self.unit(position, registers)
    }
}

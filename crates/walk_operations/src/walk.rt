// The walk of any plan on registers and memory that are lent to be written.
ghost use Rattle.std.specs.Prelude.{◌≡◌, true};
ghost use Rattle.answers.specs.Answer.{pauses};
ghost use Rattle.walk_pausable.specs.Walk.{walk};
ghost use Rattle.walk_operations.specs.Context.{context, outcome_of, pausing};
ghost use Rattle.walk_operations.specs.Plan.{OfPosition, UnitOf, SameWalk};

use crate::generic::{PlanOver, walk_over};
use crate::position::{Position, Ran};
use registers::REGISTERS;

// An instruction whose operands are resolved and whose masks are read, on an array of registers.
pub trait Plan: Copy {
    // Where an instruction may stand, and where each of its units begins.
    ghost begins: { OfPosition Self };

    ghost stands: { OfPosition Self };

    // What a unit does.
    ghost unit_of: { UnitOf Self };

    // Where the first unit begins. No default: the trait has no sides by which three of the plans go.
    fn start(self, position: Position) -> Position
        requires { begins self position }
        ensures stands { stands self result }
        ensures same { SameWalk (unit_of self) position result };

    // One unit.
    fn walk_unit(
        self,
        position: Position,
        registers: &mut [u64; REGISTERS],
        memory: &mut [u8],
    ) -> Ran
        requires { stands self position }
        ensures ran { let start = context registers.old memory.old position in
            outcome_of result registers.new memory.new ≡ unit_of self start }
        ensures stands { pauses result.answer ≡ true → stands self result.position };
}

// So the loop stands once, whatever way registers are lent.
impl<P: Plan> PlanOver<[u64; REGISTERS]> for P {
    ghost registers_in = { λ registers. registers };

    ghost begins = { P.begins };

    ghost stands = { P.stands };

    ghost unit_of = { P.unit_of };

    fn start(self, position: Position) -> Position {
        Plan::start(self, position)
    }

    fn walk_unit(
        self,
        position: Position,
        registers: &mut [u64; REGISTERS],
        memory: &mut [u8],
    ) -> Ran {
        Plan::walk_unit(self, position, registers, memory)
    }
}

// At most as many units as allowed.
pub fn walk<P: Plan>(
    plan: P,
    position: Position,
    allowance: u16,
    registers: &mut [u64; REGISTERS],
    memory: &mut [u8],
) -> Ran
    requires { P.begins plan position }
    ensures { let start = context registers.old memory.old position in
        outcome_of result registers.new memory.new ≡ walk pausing (P.unit_of plan) allowance start }
{
    walk_over(plan, position, allowance, registers, memory)
}

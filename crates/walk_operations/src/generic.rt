// The walk of any plan, however registers are lent to it: one unit after another, in place.
ghost use Rattle.std.specs.Prelude.{◌≡◌, true, ℕ, List};
ghost use Rattle.answers.specs.Answer.{pauses};
ghost use Rattle.walk_pausable.specs.Walk.{walk};
ghost use Rattle.walk_operations.specs.Context.{context, outcome_of, pausing};
ghost use Rattle.walk_operations.specs.Plan.{OfPosition, UnitOf, SameWalk};

use crate::position::{Position, Ran};

// An instruction whose operands are resolved and whose masks are read. R is how registers are lent to it: an array that
// it may write, or a shared reference to one.
pub trait PlanOver<R>: Copy {
    // The registers that are lent.
    ghost registers_in: { R → List ℕ };

    // Where an instruction may stand, and where each of its units begins.
    ghost begins: { OfPosition Self };

    ghost stands: { OfPosition Self };

    // What a unit does.
    ghost unit_of: { UnitOf Self };

    // Where the first unit begins. No default: the trait has no sides by which three of the plans go.
    fn start(self, position: Position) -> Position
        requires { begins self position }
        ensures stands { stands self result }
        ensures same { SameWalk (unit_of self) position result };

    // One unit.
    fn walk_unit(self, position: Position, registers: &mut R, memory: &mut [u8]) -> Ran
        requires { stands self position }
        ensures ran { let start = context (registers_in registers.old) memory.old position in
            outcome_of result (registers_in registers.new) memory.new ≡ unit_of self start }
        ensures stands { pauses result.answer ≡ true → stands self result.position };
}

// At most as many units as allowed. Registers and memory are lent apart: a struct of both would have to promise at each
// method that it holds the same references.
pub fn walk_over<R, P: PlanOver<R>>(
    plan: P,
    position: Position,
    allowance: u16,
    registers: &mut R,
    memory: &mut [u8],
) -> Ran
    requires { P.begins plan position }
    ensures { let start = context (P.registers_in registers.old) memory.old position in
        outcome_of result (P.registers_in registers.new) memory.new
        ≡ walk pausing (P.unit_of plan) allowance start }
{
    if allowance == 0 {
        return position.paused();
    }
    let mut current = plan.start(position);
    for _done in 0..usize::from(allowance) {
        let ran = plan.walk_unit(current, registers, memory);
        let answer = ran.answer;
        if !answer.pauses() {
            return ran;
        }
        current = ran.position;
    }
    current.paused()
}

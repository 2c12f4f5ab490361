#![tactic(auto)]

// The run of the trap handler, on lent registers and memory.
ghost use Rattle.std.specs.Prelude.{◌≡◌, true, ◌≤◌};
ghost use Rattle.answers.specs.Answer.{accepts};
ghost use Rattle.walk_plans.specs.Operands.{checked};
ghost use Rattle.walk_operations.specs.Context.{context, outcome_of};
ghost use Rattle.walk_transfers.specs.SidesReady.{Within};
ghost use Rattle.walk_handler.specs.Unit.{handled};

use answers::Answer;
use decode::decoded::Decoded;
use registers::REGISTERS;
use walk_operations::position::{Position, Ran};
use walk_plans::checks::checked;
use walk_plans::planning::{load_plan, move_plan, operation_plan, store_plan};

// The plan of a word whose operands are served, walked up to the allowance.
#[tactic(auto, unfolding(walk_pausable::specs::Call::begun, crate::specs::Prepare::prepared, crate::specs::Unit::handled))]
fn walk_word(
    word: Decoded,
    vl: u32,
    position: Position,
    allowance: u16,
    registers: &mut [u64; REGISTERS],
    memory: &mut [u8],
) -> Ran
    requires { (vl ≤ 64) × Within vl position × (accepts (checked vl word) ≡ true) }
    ensures { let start = context registers.old memory.old position in
        outcome_of result registers.new memory.new ≡ handled vl word allowance start }
{
    match word {
        Decoded::Operation(w) => {
            let plan = operation_plan(w, vl, registers);
            plan.walk(position, allowance, registers)
        }
        Decoded::Move(w) => {
            let plan = move_plan(w, vl, registers);
            plan.move_walk(position, allowance, registers)
        }
        Decoded::Load(w) => {
            let plan = load_plan(w, vl, registers);
            plan.walk(position, allowance, registers, memory)
        }
        Decoded::Store(w) => {
            let plan = store_plan(w, vl, registers);
            plan.walk(position, allowance, registers, memory)
        }
        Decoded::Unknown => Ran {
            answer: Answer::UnknownWord,
            position,
        },
    }
}

// Runs a decoded word: refusals 2, 4 and 3, else its walk. An unknown word has no operands, so that neither 4 nor 3
// comes before its 2.
pub fn run(
    word: Decoded,
    vl: u32,
    position: Position,
    allowance: u16,
    registers: &mut [u64; REGISTERS],
    memory: &mut [u8],
) -> Ran
    requires { (vl ≤ 64) × Within vl position }
    ensures { let start = context registers.old memory.old position in
        outcome_of result registers.new memory.new ≡ handled vl word allowance start }
{
    let answer = checked(word, vl);
    if !answer.accepts() {
        return Ran { answer, position };
    }
    walk_word(word, vl, position, allowance, registers, memory)
}

// The plan of a word that is served: operands resolved, and masks read, once.
ghost use Rattle.std.specs.Prelude.{◌≡◌, ◌||◌};
ghost use Rattle.walk_plans.specs.Plan.{is_vector, second_plan, side_of};
ghost use Rattle.walk_plans.specs.Plan.{operation_plan, move_plan, load_plan, store_plan};

use decode::decoded as word;
use decode::decoded::{LoadWord, MoveWord, OperationWord, ResolvedOperand, StoreWord};
use registers::REGISTERS;
use walk_accesses::loading::LoadPlan;
use walk_accesses::storing::StorePlan;
use walk_operands::mask::mask_by;
use walk_operands::place::place_of;
use walk_operations::operation::{OperationPlan, SecondPlace};
use walk_pairs::Side;
use walk_transfers::sides::Sides;

// An operand without an entry has predicate word 0, the empty entry of the requirements, and `mask_by` takes it so.
fn second_plan(second: word::SecondOperand) -> SecondPlace
    ensures { result ≡ second_plan second }
{
    match second {
        word::SecondOperand::Register(n) => SecondPlace::Register(place_of(n)),
        word::SecondOperand::Immediate(value) => SecondPlace::Immediate(value),
    }
}

#[tactic(auto, unfolding(crate::specs::Plan::operation_plan))]
pub fn operation_plan(word: OperationWord, vl: u32, registers: &[u64; REGISTERS]) -> OperationPlan
    ensures { result ≡ operation_plan vl registers.now word }
{
    let operator = word.operator;
    let destination = word.destination;
    let first = word.first;
    let second = word.second;
    OperationPlan {
        vl: vl as usize,
        operator,
        destination: place_of(destination),
        mask: mask_by(destination.predicate, registers),
        first: place_of(first),
        second: second_plan(second),
    }
}

// A side that walks always, as an address does, or only where its operand is a vector.
fn side_of(n: ResolvedOperand, always: bool, registers: &[u64; REGISTERS]) -> Side
    ensures { result ≡ side_of registers.now (always || is_vector n) n }
{
    let place = place_of(n);
    Side {
        place,
        walks: always | place.vector,
        mask: mask_by(n.predicate, registers),
    }
}

#[tactic(auto, unfolding(crate::specs::Plan::move_plan))]
pub fn move_plan(word: MoveWord, vl: u32, registers: &[u64; REGISTERS]) -> Sides
    ensures { result ≡ move_plan vl registers.now word }
{
    let source = word.source;
    let destination = word.destination;
    let to = side_of(destination, false, registers);
    Sides {
        vl: vl as usize,
        source: side_of(source, false, registers),
        destination: to,
        single: !to.place.vector,
    }
}

#[tactic(auto, unfolding(crate::specs::Plan::load_plan))]
pub fn load_plan(word: LoadWord, vl: u32, registers: &[u64; REGISTERS]) -> LoadPlan
    ensures { result ≡ load_plan vl registers.now word }
{
    let address = word.address;
    let destination = word.destination;
    let width = word.width;
    let to = side_of(destination, false, registers);
    LoadPlan {
        sides: Sides {
            vl: vl as usize,
            source: side_of(address, true, registers),
            destination: to,
            single: !to.place.vector,
        },
        offset: word.offset,
        width,
        signed: word.signed,
    }
}

#[tactic(auto, unfolding(crate::specs::Plan::store_plan))]
pub fn store_plan(word: StoreWord, vl: u32, registers: &[u64; REGISTERS]) -> StorePlan
    ensures { result ≡ store_plan vl registers.now word }
{
    let data = word.data;
    let address = word.address;
    let width = word.width;
    let from = side_of(data, false, registers);
    let to = side_of(address, true, registers);
    StorePlan {
        sides: Sides {
            vl: vl as usize,
            source: from,
            destination: to,
            single: !from.place.vector & !to.place.vector,
        },
        offset: word.offset,
        width,
    }
}

// Each kind of plan, walked as any plan is: on an array of registers and a memory that are lent to be written.
ghost use Rattle.std.specs.Prelude.{◌≡◌, true};

use crate::loading::LoadPlan;
use crate::storing::StorePlan;
use answers::Answer;
use registers::REGISTERS;
use scalar::operator::Operator;
use scalar::width::Width;
use walk_operands::mask::Mask;
use walk_operands::place::Place;
use walk_operations::operation::{OperationPlan, SecondPlace};
use walk_operations::position::Position;
use walk_operations::walk::{Plan, walk};
use walk_pairs::Side;
use walk_transfers::sides::Sides;

const START: Position = Position {
    pc: 96,
    source: 0,
    destination: 0,
};

const ALL_ON: Mask = Mask {
    on: 0xffff_ffff_ffff_ffff,
    zeroing: false,
};

const SCALAR: Place = Place {
    register: 5,
    vector: false,
};

const VECTOR: Place = Place {
    register: 20,
    vector: true,
};

const OTHER_VECTOR: Place = Place {
    register: 30,
    vector: true,
};

// A side of two elements.
fn side(place: Place) -> Side
    ensures { (result.place ≡ place) × (result.walks ≡ true) }
{
    Side {
        place,
        walks: true,
        mask: ALL_ON,
    }
}

#[test]
#[tactic(auto, unfolding(walk_operands::specs::Place::fits, walk_operands::specs::Place::register_at))]
fn a_load_is_walked(rt: HostRuntime) {
    let mut registers = [0u64; REGISTERS];
    let mut memory = [0u8; 24];
    registers[5] = 8;
    memory[8] = 7;
    memory[16] = 9;
    let sides = Sides {
        vl: 2,
        source: side(SCALAR),
        destination: side(VECTOR),
        single: false,
    };
    let plan = LoadPlan {
        sides,
        offset: 0,
        width: Width::Double,
        signed: false,
    };
    let one = plan.walk_unit(plan.start(START), &mut registers, &mut memory);
    assert!(rt; one.answer.pauses());
    assert_eq!(rt; one.position.destination, 1);
    assert_eq!(rt; (registers[20], registers[21]), (7, 0));
    let ran = walk(plan, START, 2, &mut registers, &mut memory);
    assert!(rt; matches!(ran.answer, Answer::Done(0)));
    assert_eq!(rt; ran.position.pc, 100);
    assert_eq!(rt; (registers[20], registers[21]), (7, 9));
}

#[test]
#[tactic(auto, unfolding(walk_operands::specs::Place::fits, walk_operands::specs::Place::register_at))]
fn a_store_is_walked(rt: HostRuntime) {
    let mut registers = [0u64; REGISTERS];
    let mut memory = [0u8; 24];
    registers[5] = 8;
    registers[20] = 7;
    registers[21] = 9;
    let sides = Sides {
        vl: 2,
        source: side(VECTOR),
        destination: side(SCALAR),
        single: false,
    };
    let plan = StorePlan {
        sides,
        offset: 0,
        width: Width::Double,
    };
    let one = plan.walk_unit(plan.start(START), &mut registers, &mut memory);
    assert!(rt; one.answer.pauses());
    assert_eq!(rt; one.position.source, 1);
    assert_eq!(rt; (memory[8], memory[16]), (7, 0));
    let ran = walk(plan, START, 2, &mut registers, &mut memory);
    assert!(rt; matches!(ran.answer, Answer::Done(0)));
    assert_eq!(rt; ran.position.pc, 100);
    assert_eq!(rt; (memory[8], memory[16]), (7, 9));
}

#[test]
#[tactic(auto, unfolding(walk_operands::specs::Place::fits, walk_operands::specs::Place::register_at))]
fn a_move_is_walked(rt: HostRuntime) {
    let mut registers = [0u64; REGISTERS];
    let mut memory = [1u8; 1];
    registers[20] = 7;
    registers[21] = 9;
    let plan = Sides {
        vl: 2,
        source: side(VECTOR),
        destination: side(OTHER_VECTOR),
        single: false,
    };
    let one = plan.walk_unit(plan.start(START), &mut registers, &mut memory);
    assert!(rt; one.answer.pauses());
    assert_eq!(rt; one.position.source, 1);
    assert_eq!(rt; (registers[30], registers[31]), (7, 0));
    let ran = walk(plan, START, 2, &mut registers, &mut memory);
    assert!(rt; matches!(ran.answer, Answer::Done(0)));
    assert_eq!(rt; ran.position.pc, 98);
    assert_eq!(rt; (registers[30], registers[31], memory[0]), (7, 9, 1));
}

#[test]
#[tactic(auto, unfolding(walk_operands::specs::Place::fits, walk_operands::specs::Place::register_at))]
fn an_operation_is_walked(rt: HostRuntime) {
    let mut registers = [0u64; REGISTERS];
    let mut memory = [1u8; 1];
    registers[20] = 7;
    registers[21] = 9;
    let plan = OperationPlan {
        vl: 2,
        operator: Operator::Add,
        destination: OTHER_VECTOR,
        mask: ALL_ON,
        first: VECTOR,
        second: SecondPlace::Immediate(3),
    };
    let one = plan.walk_unit(plan.start(START), &mut registers, &mut memory);
    assert!(rt; one.answer.pauses());
    assert_eq!(rt; one.position.destination, 1);
    assert_eq!(rt; (registers[30], registers[31]), (10, 0));
    let ran = walk(plan, START, 2, &mut registers, &mut memory);
    assert!(rt; matches!(ran.answer, Answer::Done(0)));
    assert_eq!(rt; ran.position.pc, 100);
    assert_eq!(rt; (registers[30], registers[31], memory[0]), (10, 12, 1));
}

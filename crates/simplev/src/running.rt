// The fresh machine, the run call, and one unit of it.
ghost use Rattle.std.specs.Prelude.{◌≡◌};
ghost use Rattle.machine.specs.Shape.{fresh_machine};
ghost use Rattle.machine.specs.Run.{system, run, step};
ghost use Rattle.simplev_arrays.specs.Layout.{machine_of};
ghost use Rattle.simplev_arrays.specs.Leaves.{Leaves};

use answers::Answer;
use decode::decode;
use registers::REGISTERS;
use simplev_arrays::{CFG, CONTROL_WORDS, Lent, MVL, PC, VL, state_of, write_answer};
use tables::ENTRIES;
use walk_operations::position::Position;

// MVL 1, VL 1, CFG 24 and all else zero.
#[unsafe(no_mangle)]
pub extern "C" fn simplev_fresh(
    registers: &mut [u64; REGISTERS],
    control: &mut [u64; CONTROL_WORDS],
    register_table: &mut [u16; ENTRIES],
    predicate_table: &mut [u16; ENTRIES],
)
    ensures { machine_of registers.new control.new register_table.new predicate_table.new ≡ fresh_machine }
{
    *registers = [0; REGISTERS];
    *control = [0, 1, 1, 24, 0, 0];
    *register_table = [0; ENTRIES];
    *predicate_table = [0; ENTRIES];
}

// Runs a word for at most as many units as allowed. The registers and the memory are worked on in place.
#[unsafe(no_mangle)]
pub extern "C" fn simplev_run<'a>(
    registers: &mut [u64; REGISTERS],
    control: &mut [u64; CONTROL_WORDS],
    register_table: &'a [u16; ENTRIES],
    predicate_table: &'a [u16; ENTRIES],
    word: u32,
    allowance: u16,
    memory: &mut [u8],
    address: &mut u64,
) -> u32
    ensures { let m = machine_of registers.old control.old register_table.now predicate_table.now in
        let after = machine_of registers.new control.new register_table.now predicate_table.now in
        Leaves (run word allowance (system m memory.old)) result address.new
        (system after memory.new) }
{
    let lent = Lent {
        registers,
        control,
        register_table,
        predicate_table,
    };
    if !lent.in_shape() {
        return write_answer(Answer::OutOfShape, address);
    }
    let state = state_of(control);
    let position = Position {
        pc: control[PC],
        source: state.source as usize,
        destination: state.destination as usize,
    };
    let decoded = decode(word, state.cfg, register_table, predicate_table);
    let ran = walk_handler::run(decoded, state.vl, position, allowance, registers, memory);
    let after = ran.position;
    *control = [
        after.pc,
        control[MVL],
        control[VL],
        control[CFG],
        after.source as u64,
        after.destination as u64,
    ];
    let answer = ran.answer;
    write_answer(answer, address)
}

// One unit.
#[unsafe(no_mangle)]
pub extern "C" fn simplev_step<'a>(
    registers: &mut [u64; REGISTERS],
    control: &mut [u64; CONTROL_WORDS],
    register_table: &'a [u16; ENTRIES],
    predicate_table: &'a [u16; ENTRIES],
    word: u32,
    memory: &mut [u8],
    address: &mut u64,
) -> u32
    ensures { let m = machine_of registers.old control.old register_table.now predicate_table.now in
        let after = machine_of registers.new control.new register_table.now predicate_table.now in
        Leaves (step word (system m memory.old)) result address.new
        (system after memory.new) }
{
    simplev_run(
        registers,
        control,
        register_table,
        predicate_table,
        word,
        1,
        memory,
        address,
    )
}

// The calls that read one thing out. They change nothing, and refuse 6 and 8 only.
ghost use Rattle.machine.specs.Reading.{read_vl, read_mvl, read_cfg, read_pc, read_state_word};
ghost use Rattle.machine.specs.Reading.{read_register, read_register_entry, read_predicate_entry};
ghost use Rattle.simplev_arrays.specs.Layout.{machine_in};
ghost use Rattle.simplev_arrays.specs.Leaves.{Replies};

use answers::Answer;
use registers::REGISTERS;
use simplev_arrays::{CFG, CONTROL_WORDS, Lent, MVL, PC, VL, element_at, state_of, write_answer};
use tables::ENTRIES;

#[unsafe(no_mangle)]
pub extern "C" fn simplev_read_vl<'a>(
    registers: &'a [u64; REGISTERS],
    control: &'a [u64; CONTROL_WORDS],
    register_table: &'a [u16; ENTRIES],
    predicate_table: &'a [u16; ENTRIES],
    value: &mut u64,
) -> u32
    ensures { let m = machine_in registers.entry control.entry register_table.entry predicate_table.entry in
        Replies (read_vl m) result value.new m }
{
    let lent = Lent {
        registers,
        control,
        register_table,
        predicate_table,
    };
    write_answer(lent.answer(true, Answer::Done(0), control[VL]), value)
}

#[unsafe(no_mangle)]
pub extern "C" fn simplev_read_mvl<'a>(
    registers: &'a [u64; REGISTERS],
    control: &'a [u64; CONTROL_WORDS],
    register_table: &'a [u16; ENTRIES],
    predicate_table: &'a [u16; ENTRIES],
    value: &mut u64,
) -> u32
    ensures { let m = machine_in registers.entry control.entry register_table.entry predicate_table.entry in
        Replies (read_mvl m) result value.new m }
{
    let lent = Lent {
        registers,
        control,
        register_table,
        predicate_table,
    };
    write_answer(lent.answer(true, Answer::Done(0), control[MVL]), value)
}

#[unsafe(no_mangle)]
pub extern "C" fn simplev_read_cfg<'a>(
    registers: &'a [u64; REGISTERS],
    control: &'a [u64; CONTROL_WORDS],
    register_table: &'a [u16; ENTRIES],
    predicate_table: &'a [u16; ENTRIES],
    value: &mut u64,
) -> u32
    ensures { let m = machine_in registers.entry control.entry register_table.entry predicate_table.entry in
        Replies (read_cfg m) result value.new m }
{
    let lent = Lent {
        registers,
        control,
        register_table,
        predicate_table,
    };
    write_answer(lent.answer(true, Answer::Done(0), control[CFG]), value)
}

#[unsafe(no_mangle)]
pub extern "C" fn simplev_read_pc<'a>(
    registers: &'a [u64; REGISTERS],
    control: &'a [u64; CONTROL_WORDS],
    register_table: &'a [u16; ENTRIES],
    predicate_table: &'a [u16; ENTRIES],
    value: &mut u64,
) -> u32
    ensures { let m = machine_in registers.entry control.entry register_table.entry predicate_table.entry in
        Replies (read_pc m) result value.new m }
{
    let lent = Lent {
        registers,
        control,
        register_table,
        predicate_table,
    };
    write_answer(lent.answer(true, Answer::Done(0), control[PC]), value)
}

#[unsafe(no_mangle)]
pub extern "C" fn simplev_read_state_word<'a>(
    registers: &'a [u64; REGISTERS],
    control: &'a [u64; CONTROL_WORDS],
    register_table: &'a [u16; ENTRIES],
    predicate_table: &'a [u16; ENTRIES],
    value: &mut u64,
) -> u32
    ensures { let m = machine_in registers.entry control.entry register_table.entry predicate_table.entry in
        Replies (read_state_word m) result value.new m }
{
    let word = u32::from(state_of(control));
    let lent = Lent {
        registers,
        control,
        register_table,
        predicate_table,
    };
    write_answer(lent.answer(true, Answer::Done(0), u64::from(word)), value)
}

#[unsafe(no_mangle)]
#[tactic(auto, unfolding(machine::specs::Reading::read_register, simplev_arrays::specs::Layout::element_at))]
pub extern "C" fn simplev_read_register<'a>(
    registers: &'a [u64; REGISTERS],
    control: &'a [u64; CONTROL_WORDS],
    register_table: &'a [u16; ENTRIES],
    predicate_table: &'a [u16; ENTRIES],
    index: u32,
    value: &mut u64,
) -> u32
    ensures { let m = machine_in registers.entry control.entry register_table.entry predicate_table.entry in
        Replies (read_register m index) result value.new m }
{
    let exists = (index as usize) < REGISTERS;
    let register = element_at(registers, index, 0);
    let lent = Lent {
        registers,
        control,
        register_table,
        predicate_table,
    };
    write_answer(lent.answer(exists, Answer::Done(0), register), value)
}

#[unsafe(no_mangle)]
#[tactic(auto, unfolding(machine::specs::Reading::read_register_entry, simplev_arrays::specs::Layout::element_at))]
pub extern "C" fn simplev_read_register_entry<'a>(
    registers: &'a [u64; REGISTERS],
    control: &'a [u64; CONTROL_WORDS],
    register_table: &'a [u16; ENTRIES],
    predicate_table: &'a [u16; ENTRIES],
    index: u32,
    value: &mut u64,
) -> u32
    ensures { let m = machine_in registers.entry control.entry register_table.entry predicate_table.entry in
        Replies (read_register_entry m index) result value.new m }
{
    let exists = (index as usize) < ENTRIES;
    let entry = element_at(register_table, index, 0);
    let lent = Lent {
        registers,
        control,
        register_table,
        predicate_table,
    };
    write_answer(
        lent.answer(exists, Answer::Done(0), u64::from(entry)),
        value,
    )
}

#[unsafe(no_mangle)]
#[tactic(auto, unfolding(machine::specs::Reading::read_predicate_entry, simplev_arrays::specs::Layout::element_at))]
pub extern "C" fn simplev_read_predicate_entry<'a>(
    registers: &'a [u64; REGISTERS],
    control: &'a [u64; CONTROL_WORDS],
    register_table: &'a [u16; ENTRIES],
    predicate_table: &'a [u16; ENTRIES],
    index: u32,
    value: &mut u64,
) -> u32
    ensures { let m = machine_in registers.entry control.entry register_table.entry predicate_table.entry in
        Replies (read_predicate_entry m index) result value.new m }
{
    let exists = (index as usize) < ENTRIES;
    let entry = element_at(predicate_table, index, 0);
    let lent = Lent {
        registers,
        control,
        register_table,
        predicate_table,
    };
    write_answer(
        lent.answer(exists, Answer::Done(0), u64::from(entry)),
        value,
    )
}

// The calls that set one thing, in place. Refusals come in the order 6, 8, then the call's own.
ghost use Rattle.std.specs.Prelude.{◌<◌, ◌≡◌, set};
ghost use Rattle.machine.specs.Setting.{set_vl, set_vl_immediate, set_mvl, set_cfg, set_state_word, set_pc};
ghost use Rattle.machine.specs.Setting.{set_register, set_register_entry, set_predicate_entry};
ghost use Rattle.simplev_arrays.specs.Layout.{machine_of};
ghost use Rattle.simplev_arrays.specs.Leaves.{Replies};

use answers::{Answer, valid};
use machine::Machine;
use registers::REGISTERS;
use simplev_arrays::setting::{set_control, set_vl};
use simplev_arrays::{CONTROL_WORDS, Lent, PC, state_of, write_answer};
use state_word::{State, good_word};
use tables::ENTRIES;

// Replaces an entry that exists.
fn put_entry(entries: &mut [u16; ENTRIES], index: u32, entry: u16)
    requires { index < 16 }
    ensures { entries.new ≡ set entries.old index entry }
{
    entries[index as usize] = entry;
}

// Plain form: n from 1.
#[unsafe(no_mangle)]
#[tactic(auto, unfolding(machine::specs::Setting::set_vl))]
pub extern "C" fn simplev_set_vl<'a>(
    registers: &'a [u64; REGISTERS],
    control: &mut [u64; CONTROL_WORDS],
    register_table: &'a [u16; ENTRIES],
    predicate_table: &'a [u16; ENTRIES],
    n: u64,
    value: &mut u64,
) -> u32
    ensures { let m = machine_of registers.now control.old register_table.now predicate_table.now in
        let after = machine_of registers.now control.new register_table.now predicate_table.now in
        Replies (set_vl m n) result value.new after }
{
    set_vl(
        registers,
        control,
        register_table,
        predicate_table,
        valid(1 <= n),
        n,
        value,
    )
}

// Immediate form: n from 0 to 31 stands for n + 1.
#[unsafe(no_mangle)]
#[tactic(auto, unfolding(machine::specs::Setting::set_vl_immediate))]
pub extern "C" fn simplev_set_vl_immediate<'a>(
    registers: &'a [u64; REGISTERS],
    control: &mut [u64; CONTROL_WORDS],
    register_table: &'a [u16; ENTRIES],
    predicate_table: &'a [u16; ENTRIES],
    n: u32,
    value: &mut u64,
) -> u32
    ensures { let m = machine_of registers.now control.old register_table.now predicate_table.now in
        let after = machine_of registers.now control.new register_table.now predicate_table.now in
        Replies (set_vl_immediate m n) result value.new after }
{
    set_vl(
        registers,
        control,
        register_table,
        predicate_table,
        valid(n <= 31),
        n as u64 + 1,
        value,
    )
}

// VL is cut to the new MVL, and both offsets become 0.
#[unsafe(no_mangle)]
#[tactic(auto, unfolding(machine::specs::Setting::set_mvl))]
pub extern "C" fn simplev_set_mvl<'a>(
    registers: &'a [u64; REGISTERS],
    control: &mut [u64; CONTROL_WORDS],
    register_table: &'a [u16; ENTRIES],
    predicate_table: &'a [u16; ENTRIES],
    n: u32,
    value: &mut u64,
) -> u32
    ensures { let m = machine_of registers.now control.old register_table.now predicate_table.now in
        let after = machine_of registers.now control.new register_table.now predicate_table.now in
        Replies (set_mvl m n) result value.new after }
{
    let pc = control[PC];
    let old = state_of(control);
    let state = old.with_mvl(n);
    set_control(
        registers,
        control,
        register_table,
        predicate_table,
        valid((1 <= n) & (n <= Machine::ELEMENTS)),
        pc,
        state,
        0,
        value,
    )
}

// 0 to 31.
#[unsafe(no_mangle)]
#[tactic(auto, unfolding(machine::specs::Setting::set_cfg))]
pub extern "C" fn simplev_set_cfg<'a>(
    registers: &'a [u64; REGISTERS],
    control: &mut [u64; CONTROL_WORDS],
    register_table: &'a [u16; ENTRIES],
    predicate_table: &'a [u16; ENTRIES],
    n: u32,
    value: &mut u64,
) -> u32
    ensures { let m = machine_of registers.now control.old register_table.now predicate_table.now in
        let after = machine_of registers.now control.new register_table.now predicate_table.now in
        Replies (set_cfg m n) result value.new after }
{
    let pc = control[PC];
    let mut state = state_of(control);
    state.cfg = n;
    set_control(
        registers,
        control,
        register_table,
        predicate_table,
        valid(n <= 31),
        pc,
        state,
        0,
        value,
    )
}

// MVL, VL cut to it, offsets and CFG in one word.
#[unsafe(no_mangle)]
#[tactic(auto, unfolding(machine::specs::Setting::set_state_word))]
pub extern "C" fn simplev_set_state_word<'a>(
    registers: &'a [u64; REGISTERS],
    control: &mut [u64; CONTROL_WORDS],
    register_table: &'a [u16; ENTRIES],
    predicate_table: &'a [u16; ENTRIES],
    word: u32,
    value: &mut u64,
) -> u32
    ensures { let m = machine_of registers.now control.old register_table.now predicate_table.now in
        let after = machine_of registers.now control.new register_table.now predicate_table.now in
        Replies (set_state_word m word) result value.new after }
{
    let pc = control[PC];
    let state = State::from(word).cut();
    set_control(
        registers,
        control,
        register_table,
        predicate_table,
        valid(good_word(word)),
        pc,
        state,
        0,
        value,
    )
}

// Every program counter is good.
#[unsafe(no_mangle)]
#[tactic(auto, unfolding(machine::specs::Setting::set_pc))]
pub extern "C" fn simplev_set_pc<'a>(
    registers: &'a [u64; REGISTERS],
    control: &mut [u64; CONTROL_WORDS],
    register_table: &'a [u16; ENTRIES],
    predicate_table: &'a [u16; ENTRIES],
    pc: u64,
    value: &mut u64,
) -> u32
    ensures { let m = machine_of registers.now control.old register_table.now predicate_table.now in
        let after = machine_of registers.now control.new register_table.now predicate_table.now in
        Replies (set_pc m pc) result value.new after }
{
    let state = state_of(control);
    set_control(
        registers,
        control,
        register_table,
        predicate_table,
        Answer::Done(0),
        pc,
        state,
        0,
        value,
    )
}

// A write to register 0 is accepted, and vanishes.
#[unsafe(no_mangle)]
#[tactic(auto, unfolding(machine::specs::Setting::set_register))]
pub extern "C" fn simplev_set_register<'a>(
    registers: &mut [u64; REGISTERS],
    control: &'a [u64; CONTROL_WORDS],
    register_table: &'a [u16; ENTRIES],
    predicate_table: &'a [u16; ENTRIES],
    index: u32,
    value_in: u64,
    value: &mut u64,
) -> u32
    ensures { let m = machine_of registers.old control.now register_table.now predicate_table.now in
        let after = machine_of registers.new control.now register_table.now predicate_table.now in
        Replies (set_register m index value_in) result value.new after }
{
    let lent = Lent {
        registers,
        control,
        register_table,
        predicate_table,
    };
    let answer = lent.answer((index as usize) < REGISTERS, Answer::Done(0), 0);
    if answer.accepts() {
        registers::write(registers, index as usize, value_in);
    }
    write_answer(answer, value)
}

// Every entry is good.
#[unsafe(no_mangle)]
#[tactic(auto, unfolding(machine::specs::Setting::set_register_entry))]
pub extern "C" fn simplev_set_register_entry<'a>(
    registers: &'a [u64; REGISTERS],
    control: &'a [u64; CONTROL_WORDS],
    register_table: &mut [u16; ENTRIES],
    predicate_table: &'a [u16; ENTRIES],
    index: u32,
    entry: u16,
    value: &mut u64,
) -> u32
    ensures { let m = machine_of registers.now control.now register_table.old predicate_table.now in
        let after = machine_of registers.now control.now register_table.new predicate_table.now in
        Replies (set_register_entry m index entry) result value.new after }
{
    let lent = Lent {
        registers,
        control,
        register_table,
        predicate_table,
    };
    let answer = lent.answer((index as usize) < ENTRIES, Answer::Done(0), 0);
    if answer.accepts() {
        put_entry(register_table, index, entry);
    }
    write_answer(answer, value)
}

// An entry with bit 0 set is a bad value.
#[unsafe(no_mangle)]
#[tactic(auto, unfolding(machine::specs::Setting::set_predicate_entry))]
pub extern "C" fn simplev_set_predicate_entry<'a>(
    registers: &'a [u64; REGISTERS],
    control: &'a [u64; CONTROL_WORDS],
    register_table: &'a [u16; ENTRIES],
    predicate_table: &mut [u16; ENTRIES],
    index: u32,
    entry: u16,
    value: &mut u64,
) -> u32
    ensures { let m = machine_of registers.now control.now register_table.now predicate_table.old in
        let after = machine_of registers.now control.now register_table.now predicate_table.new in
        Replies (set_predicate_entry m index entry) result value.new after }
{
    let lent = Lent {
        registers,
        control,
        register_table,
        predicate_table,
    };
    let answer = lent.answer((index as usize) < ENTRIES, valid(!(entry % 2 == 1)), 0);
    if answer.accepts() {
        put_entry(predicate_table, index, entry);
    }
    write_answer(answer, value)
}

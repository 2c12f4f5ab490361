// The calls that set control words, by what they put there.
ghost use Rattle.std.specs.Prelude.{true};
ghost use Rattle.machine.specs.Calls.{done, guarded};
ghost use Rattle.machine.specs.Setting.{vl_set};
ghost use Rattle.machine.specs.Update.{with_pc, with_state};
ghost use Rattle.simplev_arrays.specs.Layout.{machine_of};
ghost use Rattle.simplev_arrays.specs.Leaves.{Replies};

use crate::{CONTROL_WORDS, Lent, PC, state_of, write_answer};
use answers::Answer;
use registers::REGISTERS;
use state_word::State;
use tables::ENTRIES;

// A call that sets control words, by its own answer, what they become, and what it returns. The four arrays are no
// `Lent` here, since one is lent to be written.
pub fn set_control<'a>(
    registers: &'a [u64; REGISTERS],
    control: &mut [u64; CONTROL_WORDS],
    register_table: &'a [u16; ENTRIES],
    predicate_table: &'a [u16; ENTRIES],
    own: Answer,
    pc: u64,
    state: State,
    res: u64,
    value: &mut u64,
) -> u32
    ensures { let m = machine_of registers.now control.old register_table.now predicate_table.now in
        let after = machine_of registers.now control.new register_table.now predicate_table.now in
        Replies (guarded m true own (done (with_state (with_pc m pc) state) res)) result value.new after }
{
    let lent = Lent {
        registers,
        control,
        register_table,
        predicate_table,
    };
    let answer = lent.answer(true, own, res);
    if answer.accepts() {
        *control = [
            pc,
            u64::from(state.mvl),
            u64::from(state.vl),
            u64::from(state.cfg),
            u64::from(state.source),
            u64::from(state.destination),
        ];
    }
    write_answer(answer, value)
}

// A call that sets VL to min(n, MVL), and returns the new VL.
pub fn set_vl<'a>(
    registers: &'a [u64; REGISTERS],
    control: &mut [u64; CONTROL_WORDS],
    register_table: &'a [u16; ENTRIES],
    predicate_table: &'a [u16; ENTRIES],
    own: Answer,
    n: u64,
    value: &mut u64,
) -> u32
    ensures { let m = machine_of registers.now control.old register_table.now predicate_table.now in
        let after = machine_of registers.now control.new register_table.now predicate_table.now in
        Replies (guarded m true own (vl_set m n)) result value.new after }
{
    let pc = control[PC];
    let old = state_of(control);
    let state = old.with_vl(n);
    set_control(
        registers,
        control,
        register_table,
        predicate_table,
        own,
        pc,
        state,
        u64::from(state.vl),
        value,
    )
}

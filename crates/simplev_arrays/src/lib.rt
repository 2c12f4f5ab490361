#![tactic(auto)]

// A machine in four arrays that the caller lends: what the calls on them share.
ghost use Rattle.std.specs.Prelude.{◌≡◌, true, length};
ghost use Rattle.machine.specs.Shape.{in_shape, Sized};
ghost use Rattle.machine.specs.Calls.{done, guarded};
ghost use Rattle.simplev_arrays.specs.Layout.{state_of, low_bits, element_at, machine_in, machine_lent};
ghost use Rattle.simplev_arrays.specs.Leaves.{Says};

use answers::{Answer, verdict};
use machine::Machine;
use registers::REGISTERS;
use state_word::State;
use tables::ENTRIES;
use tables::entry::all_bit0_clear;

pub mod setting;

// Where each control word stands.
pub const PC: usize = 0;

pub const MVL: usize = 1;

pub const VL: usize = 2;

pub const CFG: usize = 3;

pub const SOURCE: usize = 4;

pub const DESTINATION: usize = 5;

pub const CONTROL_WORDS: usize = 6;

// The arrays of a machine, to be read.
#[derive(Clone, Copy)]
pub struct Lent<'a> {
    pub registers: &'a [u64; REGISTERS],
    pub control: &'a [u64; CONTROL_WORDS],
    pub register_table: &'a [u16; ENTRIES],
    pub predicate_table: &'a [u16; ENTRIES],
}

impl<'a> Lent<'a> {
    // Whether none of the reasons of answer 6 applies. An offset below VL says that VL isn't 0.
    #[tactic(auto, unfolding(state_word::specs::State::state_in_shape, machine::specs::Shape::in_shape, machine::specs::Shape::room_in_shape, machine::specs::Shape::tables_in_shape))]
    pub fn in_shape(self) -> bool
        ensures { result ≡ in_shape (machine_lent self.entry) }
    {
        let control = self.control;
        (1 <= control[MVL])
            & (control[MVL] <= 64)
            & (control[VL] <= control[MVL])
            & (control[CFG] <= 31)
            & (control[SOURCE] < control[VL])
            & (control[DESTINATION] < control[VL])
            & (self.registers[0] == 0)
            & all_bit0_clear(self.predicate_table)
    }

    // What a reading call answers, by whether its entry or register exists, its own answer, and what it reads. A
    // setting call answers the same, and sets where that accepts it.
    pub fn answer(self, exists: bool, own: Answer, value: u64) -> Answer
        ensures { let m = machine_lent self.entry in
            result ≡ (guarded m exists own (done m value)).answer }
    {
        let answer = verdict(self.in_shape(), exists, own);
        if answer.accepts() {
            return Answer::Done(value);
        }
        answer
    }
}

// An answer in C's form: its number is returned, its value put where the caller wants it.
pub fn write_answer(answer: Answer, value: &mut u64) -> u32
    ensures { Says answer result value.new }
{
    *value = answer.value();
    answer.number()
}

// An element of an array, and another value where there is none. It is read in place: a copy of a table would cost more
// than the call.
#[tactic(auto, unfolding(crate::specs::Layout::element_at))]
pub fn element_at<T: Copy>(elements: &[T], index: u32, missing: T) -> T
    ensures { result ≡ element_at (length elements.now) elements.now index missing }
{
    elements.get(index as usize).copied().unwrap_or(missing)
}

// MVL, VL, CFG and the offsets: of each the low 32 bits, which are all of a word in range.
#[tactic(auto, unfolding(crate::specs::Layout::low_bits))]
pub fn state_of(control: &[u64; CONTROL_WORDS]) -> State
    ensures { result ≡ low_bits (state_of control.now) }
{
    State {
        mvl: (control[MVL] % 4294967296) as u32,
        vl: (control[VL] % 4294967296) as u32,
        cfg: (control[CFG] % 4294967296) as u32,
        source: (control[SOURCE] % 4294967296) as u32,
        destination: (control[DESTINATION] % 4294967296) as u32,
    }
}

// Six words, by value: there are six.
fn six(words: [u64; CONTROL_WORDS]) -> [u64; CONTROL_WORDS]
    ensures { (result ≡ words) × (length words ≡ 6) }
{
    words
}

// By the four arrays as they are lent. Whether they have their lengths, as they always do: a theorem that takes these
// as a premise has them here.
pub fn sized<'a>(
    registers: &'a [u64; REGISTERS],
    control: &'a [u64; CONTROL_WORDS],
    register_table: &'a [u16; ENTRIES],
    predicate_table: &'a [u16; ENTRIES],
) -> bool
    ensures { let m = machine_in registers.entry control.entry register_table.entry predicate_table.entry in
        (result ≡ true) × Sized m × (length control.now ≡ 6) }
{
    let words = *control;
    six(words);
    let registers = *registers;
    let register_table = *register_table;
    let predicate_table = *predicate_table;
    let fresh = Machine::fresh();
    let state = fresh.state;
    let machine = Machine {
        registers,
        pc: 0,
        state,
        register_table,
        predicate_table,
    };
    machine.sized();
    true
}

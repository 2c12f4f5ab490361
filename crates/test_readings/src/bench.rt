// A machine, the memory that is lent to it, and the calls made on them.
use crate::bytes::{bytes, put};
use answers::Answer;
use machine::{Machine, Reply};
use tables::entry::with_entry;
use test_reading_lines::call::{Call, Field, Query, Setting};
use test_reading_lines::line::CallLine;

// A line's numbers were read within the bounds of its call, so none is cut where it is used.
fn narrow<T: TryFrom<u64> + Default>(n: u64) -> T
where
    T::Error: Drop,
{
    T::try_from(n).unwrap_or_default()
}

fn set(machine: Machine, setting: Setting, a: u64, b: u64) -> Reply {
    match setting {
        Setting::Vl => machine.set_vl(a),
        Setting::VlImmediate => machine.set_vl_immediate(narrow(a)),
        Setting::Mvl => machine.set_mvl(narrow(a)),
        Setting::Cfg => machine.set_cfg(narrow(a)),
        Setting::Entry => machine.set_register_entry(narrow(a), narrow(b)),
        Setting::Predicate => machine.set_predicate_entry(narrow(a), narrow(b)),
        Setting::X => machine.set_register(narrow(a), b),
        Setting::Pc => machine.set_pc(a),
        Setting::State => machine.set_state_word(narrow(a)),
    }
}

fn read(machine: Machine, query: Query, a: u64) -> Reply {
    match query {
        Query::Vl => machine.read_vl(),
        Query::Mvl => machine.read_mvl(),
        Query::Cfg => machine.read_cfg(),
        Query::Entry => machine.read_register_entry(narrow(a)),
        Query::Predicate => machine.read_predicate_entry(narrow(a)),
        Query::X => machine.read_register(narrow(a)),
        Query::Pc => machine.read_pc(),
        Query::State => machine.read_state_word(),
    }
}

// A field written past the calls.
fn written(mut machine: Machine, field: Field, a: u64, b: u64) -> Machine {
    match field {
        Field::Mvl => machine.state.mvl = narrow(a),
        Field::Vl => machine.state.vl = narrow(a),
        Field::Cfg => machine.state.cfg = narrow(a),
        Field::Source => machine.state.source = narrow(a),
        Field::Destination => machine.state.destination = narrow(a),
        Field::X0 => machine.registers[0] = a,
        Field::Predicate => {
            machine.predicate_table = with_entry(machine.predicate_table, narrow(a), narrow(b));
        }
    }
    machine
}

fn done(machine: Machine, value: u64) -> Reply {
    Reply {
        answer: Answer::Done(value),
        machine,
    }
}

const ROOM: usize = 128;

#[derive(Drop)]
pub(crate) struct Bench {
    machine: Machine,
    // What is past the memory's end comes back when the memory grows.
    room: [u8; ROOM],
    length: usize,
}

impl Bench {
    pub(crate) fn new() -> Bench {
        Bench {
            machine: Machine::fresh(),
            room: [0; ROOM],
            length: 0,
        }
    }

    // A line's call made, on the machine or past it.
    pub(crate) fn call(&mut self, line: CallLine) -> Answer {
        let a = line.first;
        let b = line.second;
        let at = (a % 128) as usize;
        let machine = self.machine;
        let memory = &mut self.room[..self.length.min(ROOM)];
        let reply = match line.call {
            Call::Set(setting) => set(machine, setting, a, b),
            Call::Read(query) => read(machine, query, a),
            Call::Run => machine.run(narrow(a), narrow(b), memory),
            Call::Step => machine.step(narrow(a), memory),
            Call::Write(field) => done(written(machine, field, a, b), 0),
            Call::Memory => {
                self.length = a.min(128) as usize;
                done(machine, 0)
            }
            Call::Put => {
                put(memory, at, b);
                done(machine, 0)
            }
            Call::Bytes => done(machine, bytes(memory, at)),
        };
        self.machine = reply.machine;
        reply.answer
    }
}

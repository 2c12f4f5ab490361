// The calls that read one thing out. They change nothing, and refuse 6 and 8 only.
ghost use Rattle.std.specs.Prelude.{◌≡◌};
ghost use Rattle.machine.specs.Reading.{read_field, read_vl, read_mvl, read_cfg, read_pc, read_state_word};
ghost use Rattle.machine.specs.Reading.{read_entry, read_register_entry, read_predicate_entry, read_register};

use crate::{Machine, Reply};
use answers::Answer;
use tables::ENTRIES;
use tables::entry::entry_at;

impl Machine {
    // What every machine in shape has.
    fn read_field(self, value: u64) -> Reply
        ensures { result ≡ read_field self value }
    {
        self.guarded(true, Answer::Done(0), self.done(value))
    }

    pub fn read_vl(self) -> Reply
        ensures { result ≡ read_vl self }
    {
        self.read_field(u64::from(self.state.vl))
    }

    pub fn read_mvl(self) -> Reply
        ensures { result ≡ read_mvl self }
    {
        self.read_field(u64::from(self.state.mvl))
    }

    pub fn read_cfg(self) -> Reply
        ensures { result ≡ read_cfg self }
    {
        self.read_field(u64::from(self.state.cfg))
    }

    pub fn read_pc(self) -> Reply
        ensures { result ≡ read_pc self }
    {
        self.read_field(self.pc)
    }

    pub fn read_state_word(self) -> Reply
        ensures { result ≡ read_state_word self }
    {
        self.read_field(u64::from(u32::from(self.state)))
    }

    // An entry of one of the two tables.
    fn read_entry(self, entries: [u16; ENTRIES], index: u32) -> Reply
        ensures { result ≡ read_entry self entries index }
    {
        let exists = (index as usize) < ENTRIES;
        let entry = u64::from(entry_at(entries, index));
        self.guarded(exists, Answer::Done(0), self.done(entry))
    }

    #[tactic(auto, unfolding(crate::specs::Reading::read_register_entry))]
    pub fn read_register_entry(self, index: u32) -> Reply
        ensures { result ≡ read_register_entry self index }
    {
        self.read_entry(self.register_table, index)
    }

    #[tactic(auto, unfolding(crate::specs::Reading::read_predicate_entry))]
    pub fn read_predicate_entry(self, index: u32) -> Reply
        ensures { result ≡ read_predicate_entry self index }
    {
        self.read_entry(self.predicate_table, index)
    }

    // A register that there isn't reads as 0, and is refused.
    #[tactic(auto, unfolding(crate::specs::Reading::read_register))]
    pub fn read_register(self, index: u32) -> Reply
        ensures { result ≡ read_register self index }
    {
        let exists = (index as usize) < Machine::REGISTERS;
        let register = self.registers.get(index as usize).copied().unwrap_or(0);
        self.guarded(exists, Answer::Done(0), self.done(register))
    }
}

// The calls that set one thing. Refusals come in the order 6, 8, then the call's own.
ghost use Rattle.std.specs.Prelude.{◌≡◌};
ghost use Rattle.registers.specs.Written.{written};
ghost use Rattle.machine.specs.Update.{with_registers};
ghost use Rattle.machine.specs.Setting.{vl_set, set_vl, set_vl_immediate};
ghost use Rattle.machine.specs.Setting.{set_state, set_mvl, set_cfg, set_pc, set_state_word};
ghost use Rattle.machine.specs.Setting.{set_register_entry, set_predicate_entry, set_register};

use crate::{Machine, Reply};
use answers::{Answer, valid};
use state_word::{State, good_word};
use tables::entry::with_entry;

impl Machine {
    fn vl_set(self, n: u64) -> Reply
        ensures { result ≡ vl_set self n }
    {
        let state = self.state.with_vl(n);
        Machine { state, ..self }.done(u64::from(state.vl))
    }

    #[tactic(auto, unfolding(crate::specs::Setting::set_vl))]
    pub fn set_vl(self, n: u64) -> Reply
        ensures { result ≡ set_vl self n }
    {
        self.guarded(true, valid(1 <= n), self.vl_set(n))
    }

    #[tactic(auto, unfolding(crate::specs::Setting::set_vl_immediate))]
    pub fn set_vl_immediate(self, n: u32) -> Reply
        ensures { result ≡ set_vl_immediate self n }
    {
        self.guarded(true, valid(n <= 31), self.vl_set(n as u64 + 1))
    }

    // The value of a setting that becomes the state, by whether it can be taken.
    fn set_state(self, taken: bool, state: State) -> Reply
        ensures { result ≡ set_state self taken state }
    {
        self.guarded(true, valid(taken), Machine { state, ..self }.done(0))
    }

    #[tactic(auto, unfolding(crate::specs::Setting::set_mvl))]
    pub fn set_mvl(self, n: u32) -> Reply
        ensures { result ≡ set_mvl self n }
    {
        self.set_state((1 <= n) & (n <= Machine::ELEMENTS), self.state.with_mvl(n))
    }

    #[tactic(auto, unfolding(crate::specs::Setting::set_cfg))]
    pub fn set_cfg(self, n: u32) -> Reply
        ensures { result ≡ set_cfg self n }
    {
        self.set_state(
            n <= 31,
            State {
                cfg: n,
                ..self.state
            },
        )
    }

    #[tactic(auto, unfolding(crate::specs::Setting::set_state_word))]
    pub fn set_state_word(self, word: u32) -> Reply
        ensures { result ≡ set_state_word self word }
    {
        self.set_state(good_word(word), State::from(word).cut())
    }

    // This call and the next differ in the table and in what they refuse.
    #[tactic(auto, unfolding(crate::specs::Setting::set_register_entry))]
    pub fn set_register_entry(self, index: u32, entry: u16) -> Reply
        ensures { result ≡ set_register_entry self index entry }
    {
        let exists = (index as usize) < Machine::ENTRIES;
        let register_table = with_entry(self.register_table, index, entry);
        let reply = Machine {
            register_table,
            ..self
        }
        .done(0);
        self.guarded(exists, Answer::Done(0), reply)
    }

    #[tactic(auto, unfolding(crate::specs::Setting::set_predicate_entry))]
    pub fn set_predicate_entry(self, index: u32, entry: u16) -> Reply
        ensures { result ≡ set_predicate_entry self index entry }
    {
        let exists = (index as usize) < Machine::ENTRIES;
        let predicate_table = with_entry(self.predicate_table, index, entry);
        let reply = Machine {
            predicate_table,
            ..self
        }
        .done(0);
        self.guarded(exists, valid(!(entry % 2 == 1)), reply)
    }

    fn with_register(mut self, index: u32, value: u64) -> Machine
        ensures { result ≡ with_registers self (written self.registers index value) }
    {
        registers::write(&mut self.registers, index as usize, value);
        self
    }

    #[tactic(auto, unfolding(crate::specs::Setting::set_register))]
    pub fn set_register(self, index: u32, value: u64) -> Reply
        ensures { result ≡ set_register self index value }
    {
        let exists = (index as usize) < Machine::REGISTERS;
        let reply = self.with_register(index, value).done(0);
        self.guarded(exists, Answer::Done(0), reply)
    }

    #[tactic(auto, unfolding(crate::specs::Setting::set_pc))]
    pub fn set_pc(self, pc: u64) -> Reply
        ensures { result ≡ set_pc self pc }
    {
        self.guarded(true, Answer::Done(0), Machine { pc, ..self }.done(0))
    }
}

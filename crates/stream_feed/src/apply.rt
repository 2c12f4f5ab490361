ghost use Rattle.std.specs.Prelude.{◌≡◌};
ghost use Rattle.walk_pausable.specs.Outcome.{outcome};
ghost use Rattle.machine.specs.Run.{system};
ghost use Rattle.stream_feed.specs.Apply.{store_answered, applied};

use answers::Answer;
use machine::{Machine, Reply};
use memory::access::Outside;
use memory::store::store;
use scalar::width::Width;
use stream_records::record::Record;

fn store_answered(stored: Result<(), Outside>, address: u64) -> Answer
    ensures { result ≡ store_answered stored address }
{
    match stored {
        Ok(()) => Answer::Done(0),
        Err(Outside) => Answer::Outside(address),
    }
}

// A record applied: a setting call, a run or a store.
#[tactic(auto, unfolding(crate::specs::Apply::applied))]
pub(crate) fn apply(machine: Machine, record: Record, memory: &mut [u8]) -> Reply
    ensures { outcome result.answer (system result.machine memory.new)
        ≡ applied «record» (system machine memory.old) }
{
    match record {
        Record::RegisterEntry(index, entry) => machine.set_register_entry(index as u32, entry),
        Record::PredicateEntry(index, entry) => machine.set_predicate_entry(index as u32, entry),
        Record::StateWord(word) => machine.set_state_word(word),
        Record::Register(index, value) => machine.set_register(index as u32, value),
        Record::Run(word, allowance) => machine.run(word, allowance, memory),
        Record::Memory(address, value) => {
            let stored = store(memory, address as u64, Width::Double, value);
            Reply {
                answer: store_answered(stored, address as u64),
                machine,
            }
        }
    }
}

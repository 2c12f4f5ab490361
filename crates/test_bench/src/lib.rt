#![tactic(auto)]

// The run call as C calls it, for the benchmark: the machine by value, in and out.
ghost use Rattle.std.specs.Prelude.{◌≡◌};
ghost use Rattle.machine.specs.Run.{system, run};

use machine::Machine;

// Runs a word, and gives back the machine after it.
#[unsafe(no_mangle)]
pub extern "C" fn bench_run(
    machine: Machine,
    word: u32,
    allowance: u16,
    memory: &mut [u8],
) -> Machine
    ensures { system result memory.new ≡ (run word allowance (system machine memory.old)).state }
{
    machine.run(word, allowance, memory).machine
}

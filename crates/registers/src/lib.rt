#![tactic(auto)]

// The register file, lent as an array.
ghost use Rattle.std.specs.Prelude.{◌<◌, ◌≡◌};
ghost use Rattle.registers.specs.Written.{written};

pub const REGISTERS: usize = 128;

// Writes a register that exists, in place. Register 0 stays 0.
#[tactic(auto, unfolding(crate::specs::Written::written))]
pub fn write_within(registers: &mut [u64; REGISTERS], index: usize, value: u64)
    requires { index < 128 }
    ensures { registers.new ≡ written registers.old index value }
{
    if 0 < index {
        registers[index] = value;
    }
}

// Writes a register in place, if it exists.
#[tactic(auto, unfolding(crate::specs::Written::written))]
pub fn write(registers: &mut [u64; REGISTERS], index: usize, value: u64)
    ensures { registers.new ≡ written registers.old index value }
{
    if index < 128 {
        write_within(registers, index, value);
    }
}

ghost use Rattle.std.specs.Prelude.{◌≡◌, ◌+◌, ◌≤◌, length};
ghost use Rattle.memory.specs.LittleEndian.{written};

// Writes the low bytes of a value from a place on, the lowest first. Where their count is known the
// loop is unrolled, and compiles to one store.
pub(crate) fn write(memory: &mut [u8], at: usize, count: usize, value: u64)
    requires { at + count ≤ length memory.old }
    ensures { memory.new ≡ written memory.old at count value }
{
    let mut rest = value;
    for i in 0..count {
        memory[at + i] = (rest % 256) as u8;
        rest /= 256;
    }
}

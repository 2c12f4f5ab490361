ghost use Rattle.std.specs.Prelude.{◌+◌, ◌≤◌, length};
ghost use Rattle.memory.specs.Read.{Read};

// The number that some bytes from a place on make, the lowest first. Where their count is known the
// loop is unrolled, and compiles to one load. By the place and not of a slice, as the definition `number` is.
pub fn read(bytes: &[u8], at: usize, count: usize) -> u64
    requires { (at + count ≤ length bytes.now) × (count ≤ 8) }
    ensures { Read bytes.now at count result }
{
    let mut value = 0;
    for i in (0..count).rev() {
        value = 256 * value + u64::from(bytes[at + i]);
    }
    value
}

// 8 bytes of a memory, put and read, little-endian as the machine's memory is. A byte past the
// memory's end is not put, and counts as 0.
ghost use Rattle.std.specs.Prelude.{◌+◌, ◌<◌, ◌≤◌, length};

// Where the bytes from a place on that lie in a memory begin and end.
fn window(memory: &[u8], at: usize) -> (usize, usize)
    requires { at < 128 }
    ensures { (result.0 ≤ result.1) × (result.1 ≤ length memory.now) × (result.1 ≤ result.0 + 8) }
{
    let start = at.min(memory.len());
    (start, (start + 8).min(memory.len()))
}

pub(crate) fn put(memory: &mut [u8], at: usize, value: u64)
    requires { at < 128 }
{
    let (start, end) = window(memory, at);
    let bytes = value.to_le_bytes();
    memory[start..end].copy_from_slice(&bytes[..end - start]);
}

pub(crate) fn bytes(memory: &[u8], at: usize) -> u64
    requires { at < 128 }
{
    let (start, end) = window(memory, at);
    let mut bytes = [0u8; 8];
    bytes[..end - start].copy_from_slice(&memory[start..end]);
    u64::from_le_bytes(bytes)
}

ghost use Rattle.std.specs.Prelude.{◌≡◌};
ghost use Rattle.scalar.specs.Width.{bytes_of};
ghost use Rattle.memory.specs.Access.{located};

use scalar::width::Width;

// The refusal of an access that doesn't lie wholly in memory.
#[derive(Clone, Copy)]
pub struct Outside;

// The test of every access: its address lies in memory, and from there on so many bytes do. The
// sum of address and bytes could overflow.
#[tactic(auto, using(crate::proofs::Inside::some_bytes, crate::proofs::Inside::is_inside, crate::proofs::Inside::is_outside))]
pub fn locate(size: usize, address: u64, width: Width) -> Result<usize, Outside>
    ensures { result ≡ located size address (bytes_of width) }
{
    let end = size as u64;
    if end <= address {
        return Err(Outside);
    }
    if end - address < width.bytes() {
        return Err(Outside);
    }
    Ok(address as usize)
}

ghost use Rattle.std.specs.Prelude.{◌≡◌};
ghost use Rattle.scalar.specs.Width.{bytes_of};
ghost use Rattle.memory.specs.Transfer.{loaded};

use crate::access::{Outside, locate};
use crate::read::read;
use scalar::width::Width;

// The unsigned number of the bytes at an address.
#[tactic(auto, using(crate::proofs::Inside::served), unfolding(crate::specs::Transfer::loaded))]
pub fn load(memory: &[u8], address: u64, width: Width) -> Result<u64, Outside>
    ensures { result ≡ loaded memory.now address (bytes_of width) }
{
    let at = locate(memory.len(), address, width)?;
    Ok(read(memory, at, width.bytes() as usize))
}

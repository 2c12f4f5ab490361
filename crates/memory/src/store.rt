ghost use Rattle.std.specs.Prelude.{◌≡◌};
ghost use Rattle.scalar.specs.Width.{bytes_of};
ghost use Rattle.memory.specs.Transfer.{store_answer, stored};

use crate::access::{Outside, locate};
use crate::write::write;
use scalar::width::Width;

// Writes the low bytes of a value to an address; a refusal changes no byte.
#[tactic(auto, using(crate::proofs::Inside::served), unfolding(crate::specs::Transfer::store_answer, crate::specs::Transfer::stored))]
pub fn store(memory: &mut [u8], address: u64, width: Width, value: u64) -> Result<(), Outside>
    ensures answer { result ≡ store_answer memory.old address (bytes_of width) }
    ensures bytes { memory.new ≡ stored memory.old address (bytes_of width) value }
{
    let at = locate(memory.len(), address, width)?;
    write(memory, at, width.bytes() as usize, value);
    Ok(())
}

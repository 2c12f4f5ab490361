// The test that a run makes of an access before memory is asked.
ghost use Rattle.std.specs.Prelude.{◌≡◌};
ghost use Rattle.scalar.specs.Width.{bytes_of};
ghost use Rattle.walk_accesses.specs.Alignment.{aligned};

use scalar::width::Width;

// Whether an address is divisible by the bytes of an access. With the width distinguished no division
// is compiled.
pub(crate) fn aligned(address: u64, width: Width) -> bool
    ensures { result ≡ aligned address (bytes_of width) }
{
    match width {
        Width::Byte => true,
        Width::Half => address % 2 == 0,
        Width::Word => address % 4 == 0,
        Width::Double => address % 8 == 0,
    }
}

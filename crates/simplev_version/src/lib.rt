#![tactic(auto)]

// The version of the interface, which the archive says by itself.
ghost use Rattle.std.specs.Prelude.{◌≡◌};
ghost use Rattle.simplev_version.specs.Version.{version};

const MAJOR: u32 = 2;

const MINOR: u32 = 0;

const PATCH: u32 = 0;

pub fn version() -> u32
    ensures { result ≡ version }
{
    MAJOR * 65536 + MINOR * 256 + PATCH
}

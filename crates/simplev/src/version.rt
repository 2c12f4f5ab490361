// Which version of the interface an archive has.
ghost use Rattle.std.specs.Prelude.{◌≡◌};
ghost use Rattle.simplev_version.specs.Version.{version};

use simplev_version::version;

#[unsafe(no_mangle)]
pub extern "C" fn simplev_version() -> u32
    ensures { result ≡ version }
{
    version()
}

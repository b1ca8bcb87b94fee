//! The version of the calls.

ghost use Rattle.std.specs.Prelude.{◌≡◌};

/// CERTPATH_VERSION of the header.
const VERSION: u32 = 6;

/// `certpath_version` of the header.
#[unsafe(no_mangle)]
pub extern "C" fn certpath_version() -> u32
    ensures { result ≡ 6 }
{
    VERSION
}

//! The version.

ghost use Rattle.std.specs.Prelude.{◌≡◌};

/// The version that the header names as HN_LAB_VERSION_NUMBER: two digits for each part of 1.0.0.
const VERSION: u32 = 10000;

/// The version of the library.
#[unsafe(no_mangle)]
pub extern "C" fn hn_lab_version() -> u32
    ensures { result ≡ 10000 }
{
    VERSION
}

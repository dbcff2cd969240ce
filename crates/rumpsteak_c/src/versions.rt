//! The version of the library.

ghost use Rattle.std.specs.Prelude.{◌≡◌};

/// The version: a million for each major one, a thousand for each minor one.
#[unsafe(no_mangle)]
pub extern "C" fn rumpsteak_version() -> u32
    ensures { result ≡ 1000 }
{
    1000
}

//! The library's version.

ghost use Rattle.std.specs.Prelude.{◌≡◌};

/// 0.1.0.
const VERSION: u32 = 0x100;

/// The version: 0x10000 times its first number, plus 0x100 times its second, plus its third.
#[unsafe(no_mangle)]
pub extern "C" fn nc_host_version() -> u32
    ensures version { result ≡ 0x100 }
{
    VERSION
}

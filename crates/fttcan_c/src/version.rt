//! The version of the library.

ghost use Rattle.std.specs.Prelude.{◌≡◌};

/// The version: a change of the first number breaks callers, one of the second adds, one of the third mends.
const VERSION: [u32; 3] = [0, 4, 0];

/// The version of the library: the first number shifted by 16 bits, the second one by 8, and the third one.
#[unsafe(no_mangle)]
pub extern "C" fn fttcan_version() -> u32
    ensures version { result ≡ 0x000400 }
{
    let [major, minor, patch] = VERSION;
    major << 16 | minor << 8 | patch
}

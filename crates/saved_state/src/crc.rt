//! CRC-32, the checksum of IEEE 802.3.

ghost use Rattle.std.specs.Prelude.{◌≡◌};
ghost use Rattle.saved_state.specs.Checksum.{behind, checksum, shifted};

/// The register behind one bit.
#[tactic(auto, unfolding(crate::specs::Checksum::shifted))]
fn shifted(register: u32) -> u32
    ensures shifted { result ≡ shifted register }
{
    if register % 2 == 1 {
        (register >> 1) ^ 0xEDB8_8320
    } else {
        register >> 1
    }
}

/// The register behind one byte.
#[tactic(auto, unfolding(crate::specs::Checksum::behind))]
fn behind(register: u32, byte: u8) -> u32
    ensures behind { result ≡ behind register byte }
{
    let mut register = register ^ u32::from(byte);
    for _ in 0..8_u8 {
        register = shifted(register);
    }
    register
}

/// The checksum of bytes.
#[tactic(auto, unfolding(crate::specs::Checksum::checksum))]
pub fn checksum(bytes: &[u8]) -> u32
    ensures checksum { result ≡ checksum bytes.now }
{
    let mut register = 0xFFFF_FFFF;
    for byte in bytes {
        register = behind(register, *byte);
    }
    register ^ 0xFFFF_FFFF
}

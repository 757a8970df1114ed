//! The CRC-32 of a slice of bytes.
#![tactic(auto, unfolding(crate::specs::Crc::crc32))]

ghost use Rattle.std.specs.Prelude.{◌≡◌};
ghost use Rattle.bi_base.specs.Crc.{crc32 as crc32_of};

use crate::crc::Crc32;

/// Returns the CRC-32 of the given bytes (ISO/IEC 3309, RFC 1952, chapter 8).
pub fn crc32(bytes: &[u8]) -> u32
    ensures { result ≡ crc32_of bytes.now }
{
    let mut sum = Crc32::new();
    sum.update(bytes);
    sum.finish()
}

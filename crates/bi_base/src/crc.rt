//! A running CRC-32.
#![tactic(auto, unfolding(crate::specs::Crc::crc_after))]

ghost use Rattle.std.specs.Prelude.{◌≡◌, ℕ, ◌-◌};
ghost use Rattle.bi_base.specs.Crc.{crc_after};
ghost use Rattle.bi_base.specs.CrcSink.{AddsToCrc, adds_nothing_to_crc, adds_to_crc_in_turn};

use crate::crc_tables::after_bytes;
use crate::fault::Error;
use crate::sinks::Sink;
use std::marker::Model;

/// A running CRC-32, for bytes that come in pieces. The checksum does not depend on how the bytes
/// are cut (ISO/IEC 3309, RFC 1952, chapter 8).
#[derive(Clone, Copy, Debug, PartialEq, Eq)]
pub struct Crc32 {
    register: u32,
}

impl Model for Crc32 {
    ghost Value = { ℕ };

    ghost view = { λ sum. sum.register };

    ghost inverse = { λ register. record { register = register } };
}

impl Crc32 {
    /// Returns the running checksum of no bytes. Contracts see a `Crc32` as its register, which
    /// begins with all bits set.
    pub fn new() -> Crc32
        ensures { result ≡ 0xFFFFFFFF }
    {
        Crc32 {
            register: 0xffff_ffff,
        }
    }

    /// Adds the given bytes, sixteen at a time.
    pub fn update(&mut self, bytes: &[u8])
        ensures { self.new ≡ crc_after self.old bytes.now }
    {
        self.register = after_bytes(self.register, bytes);
    }

    /// Returns the CRC-32 of all bytes so far: the register's complement.
    pub fn finish(self) -> u32
        ensures { result ≡ 0xFFFFFFFF - self }
    {
        0xffff_ffff - self.register
    }
}

/// As a sink, a `Crc32` adds the bytes that are appended to the checksum, and does not keep them.
/// No call fails.
impl Sink for Crc32 {
    ghost appends = { AddsToCrc };

    ghost fails = { λ _ _ _ _. ⊥ };

    fn put(&mut self, bytes: &[u8]) -> Result<(), Error> {
        self.update(bytes);
        Ok(())
    }

    ghost appends_nothing = { adds_nothing_to_crc };

    ghost appends_in_turn = { adds_to_crc_in_turn };

    ghost fails_after = { λ _ _ _ _ _ _ _ failed. failed };

    ghost fails_before = { λ _ _ _ _ _ failed. failed };
}

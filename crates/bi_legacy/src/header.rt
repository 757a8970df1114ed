//! The layout of the header, and its checks.

ghost use Rattle.std.specs.Prelude.{◌≡◌, ◌≤◌, length, OnOk, IfErr};
ghost use Rattle.bi_base.specs.Crc.{crc32 as crc32_of};
ghost use Rattle.bi_base.specs.Checks.{IsFirstFault, HasNoFault};
ghost use Rattle.bi_legacy.specs.Faults.{Passes, fault_of, header_and_data_checks};
ghost use Rattle.bi_legacy.specs.Faults.{header_without_checksum};

use crate::offsets::{IH_DCRC, IH_HCRC, IH_SIZE, IH_TIME};
use crate::pens::{ChecksumPen, put_cell};
use bi_base::{Cause, Crc32, Fault, Limits, Pen, be32_at, cell_at, crc32, refuse};

/// The magic number of a legacy image (U-Boot, include/image.h: `IH_MAGIC`).
pub const MAGIC: u32 = 0x2705_1956;

/// The size of a header in bytes.
pub const HEADER_SIZE: usize = 64;

/// The size of the name's field in bytes.
pub(crate) const NAME_SIZE: usize = 32;

/// Checks the header and the data checksum of a file.
pub(crate) fn check_header(file: &[u8], limits: Limits) -> Result<(), Fault>
    ensures ok { OnOk result (HasNoFault (Passes limits file.now) header_and_data_checks) }
    ensures fault { IfErr result
        (IsFirstFault (Passes limits file.now) (fault_of limits) header_and_data_checks) }
{
    if file.len() > limits.file() as usize {
        return refuse(Cause::TooLarge, limits.file());
    }
    let Some(magic) = be32_at(file, 0) else {
        return refuse(Cause::Truncated, 0);
    };
    if magic != MAGIC {
        return refuse(Cause::BadMagic, 0);
    }
    if file.len() < HEADER_SIZE {
        return refuse(Cause::Truncated, 0);
    }
    if cell_at(file, IH_HCRC) != header_checksum(file) {
        return refuse(Cause::BadHeaderCrc, IH_HCRC as u32);
    }
    let data_size = cell_at(file, IH_SIZE) as usize;
    if data_size > file.len() - HEADER_SIZE {
        return refuse(Cause::Truncated, IH_SIZE as u32);
    }
    if cell_at(file, IH_DCRC) != crc32(&file[HEADER_SIZE..HEADER_SIZE + data_size]) {
        return refuse(Cause::BadDataCrc, IH_DCRC as u32);
    }
    Ok(())
}

/// Returns the CRC-32 of the header of a file, with zeros instead of its checksum. Requires: the
/// file has at least 64 bytes.
#[tactic(auto, unfolding(bi_base::specs::Crc::crc32))]
fn header_checksum(file: &[u8]) -> u32
    requires { 64 ≤ length file.now }
    ensures { result ≡ crc32_of (header_without_checksum file.now) }
{
    let mut pen = ChecksumPen { sum: Crc32::new() };
    put_without_checksum(file, &mut pen);
    pen.sum.finish()
}

/// Puts the header of a file, with zeros instead of its checksum. Requires: the file has at least
/// 64 bytes.
fn put_without_checksum<P: Pen>(file: &[u8], pen: &mut P)
    requires { 64 ≤ length file.now }
    ensures { P.puts pen.old (header_without_checksum file.now) pen.new }
{
    pen.put(&file[..IH_HCRC]);
    put_cell(0, pen);
    pen.put(&file[IH_TIME..HEADER_SIZE])
}

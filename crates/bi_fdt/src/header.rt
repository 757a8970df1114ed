//! The header of a blob (Devicetree Specification, 5.2): its checks, and where it places the
//! blocks.

ghost use Rattle.std.specs.Prelude.{◌≡◌, ◌≤◌, length, IfErr, OnOk};
ghost use Rattle.bi_base.specs.Checks.{IsFirstFault, HasNoFault};
ghost use Rattle.bi_blob.specs.Blob.{header_length as length_of_header};
ghost use Rattle.bi_blob.specs.Blob.{structure_end as end_of_structure};
ghost use Rattle.bi_blob.specs.BlobFaults.{HasNoHeaderFault, HeaderPasses, header_fault};
ghost use Rattle.bi_blob.specs.BlobFaults.{IsHeaderFault};
ghost use Rattle.bi_fdt.specs.Header.{place_checks};

use crate::fields::{
    LAST_COMP_VERSION, OFF_DT_STRINGS, OFF_DT_STRUCT, OFF_MEM_RSVMAP, TOTALSIZE, VERSION,
    last_comp_version, off_dt_strings, off_dt_struct, off_mem_rsvmap, size_dt_strings,
    size_dt_struct, totalsize, version,
};
use bi_base::{Cause, Fault, Limits, be32_at, refuse};
use bi_blob::format::MAGIC;

/// The least version that is accepted.
const LEAST_VERSION: u32 = 16;

/// The version of this reader.
const READER_VERSION: u32 = 17;

/// The version whose header ends before the size of the structure block.
const VERSION_WITHOUT_STRUCTURE_SIZE: u32 = 16;

/// Makes the checks of the header, in order. The fault is that of the first check that fails.
pub(crate) fn check_header(file: &[u8], limits: Limits) -> Result<(), Fault>
    ensures ok { OnOk result (HasNoHeaderFault limits file.now) }
    ensures fault { IfErr result (IsHeaderFault limits file.now) }
{
    if file.len() > limits.file() as usize {
        return refuse(Cause::TooLarge, limits.file());
    }
    let Some(magic) = be32_at(file, 0) else {
        return refuse(Cause::Truncated, 0);
    };
    if magic != MAGIC {
        return refuse(Cause::BadMagic, 0);
    }
    let length = header_length(file);
    if file.len() < length {
        return refuse(Cause::Truncated, 0);
    }
    if version(file) < LEAST_VERSION {
        return refuse(Cause::BadVersion, VERSION as u32);
    }
    if last_comp_version(file) > READER_VERSION {
        return refuse(Cause::BadVersion, LAST_COMP_VERSION as u32);
    }
    let total = totalsize(file) as usize;
    if total < length {
        return refuse(Cause::BadTotalSize, TOTALSIZE as u32);
    }
    if total > file.len() {
        return refuse(Cause::Truncated, TOTALSIZE as u32);
    }
    check_places(file, limits)
}

/// Checks the offsets of the three blocks, in order. Requires: the file has its whole header.
fn check_places(file: &[u8], limits: Limits) -> Result<(), Fault>
    requires whole { length_of_header file.now ≤ length file.now }
    ensures ok { OnOk result (HasNoFault (HeaderPasses limits file.now) place_checks) }
    ensures fault { IfErr result
        (IsFirstFault (HeaderPasses limits file.now) (header_fault limits) place_checks) }
{
    let length = header_length(file);
    let total = totalsize(file) as usize;
    let reservations = off_mem_rsvmap(file) as usize;
    if reservations < length || reservations % 8 != 0 || reservations > total {
        return refuse(Cause::BadOffset, OFF_MEM_RSVMAP as u32);
    }
    let structure = off_dt_struct(file) as usize;
    let structure_end = structure_end(file);
    if structure < length
        || structure % 4 != 0
        || structure > structure_end
        || structure_end > total
    {
        return refuse(Cause::BadOffset, OFF_DT_STRUCT as u32);
    }
    let strings = off_dt_strings(file) as usize;
    if strings < length || strings + size_dt_strings(file) as usize > total {
        return refuse(Cause::BadOffset, OFF_DT_STRINGS as u32);
    }
    Ok(())
}

/// Returns the length of the header in bytes: 36 in version 16, else 40. It is 40 if the file ends
/// before the cell of its version.
fn header_length(file: &[u8]) -> usize
    ensures least { 36 ≤ result }
    ensures value { 36 ≤ length file.now → result ≡ length_of_header file.now }
{
    if be32_at(file, VERSION) == Some(VERSION_WITHOUT_STRUCTURE_SIZE) {
        36
    } else {
        40
    }
}

/// Returns the offset of the end of the structure block: in version 16 the end of the blob.
/// Requires: the file has its whole header.
pub(crate) fn structure_end(file: &[u8]) -> usize
    requires { length_of_header file.now ≤ length file.now }
    ensures { result ≡ end_of_structure file.now }
{
    if version(file) == VERSION_WITHOUT_STRUCTURE_SIZE {
        totalsize(file) as usize
    } else {
        off_dt_struct(file) as usize + size_dt_struct(file) as usize
    }
}

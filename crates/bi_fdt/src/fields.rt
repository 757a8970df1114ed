//! The cells of the header, by their names in the Devicetree Specification (5.2). The file has the
//! cell that is read.

ghost use Rattle.std.specs.Prelude.{◌≡◌, ◌≤◌, length};
ghost use Rattle.bi_blob.specs.Blob as header;

use bi_base::cell_at;

/// The offset of `totalsize` in bytes.
pub(crate) const TOTALSIZE: usize = 4;

/// The offset of `off_dt_struct` in bytes.
pub(crate) const OFF_DT_STRUCT: usize = 8;

/// The offset of `off_dt_strings` in bytes.
pub(crate) const OFF_DT_STRINGS: usize = 12;

/// The offset of `off_mem_rsvmap` in bytes.
pub(crate) const OFF_MEM_RSVMAP: usize = 16;

/// The offset of `version` in bytes.
pub(crate) const VERSION: usize = 20;

/// The offset of `last_comp_version` in bytes.
pub(crate) const LAST_COMP_VERSION: usize = 24;

/// The offset of `boot_cpuid_phys` in bytes.
pub(crate) const BOOT_CPUID_PHYS: usize = 28;

/// The offset of `size_dt_strings` in bytes.
pub(crate) const SIZE_DT_STRINGS: usize = 32;

/// The offset of `size_dt_struct` in bytes.
pub(crate) const SIZE_DT_STRUCT: usize = 36;

/// Returns the length of the blob in bytes. Requires: the file has at least 8 bytes.
pub(crate) fn totalsize(file: &[u8]) -> u32
    requires { 8 ≤ length file.now }
    ensures { result ≡ header.totalsize file.now }
{
    cell_at(file, TOTALSIZE)
}

/// Returns the offset of the structure block. Requires: the file has at least 12 bytes.
pub(crate) fn off_dt_struct(file: &[u8]) -> u32
    requires { 12 ≤ length file.now }
    ensures { result ≡ header.off_dt_struct file.now }
{
    cell_at(file, OFF_DT_STRUCT)
}

/// Returns the offset of the strings block. Requires: the file has at least 16 bytes.
pub(crate) fn off_dt_strings(file: &[u8]) -> u32
    requires { 16 ≤ length file.now }
    ensures { result ≡ header.off_dt_strings file.now }
{
    cell_at(file, OFF_DT_STRINGS)
}

/// Returns the offset of the memory reservation block. Requires: the file has at least 20 bytes.
pub(crate) fn off_mem_rsvmap(file: &[u8]) -> u32
    requires { 20 ≤ length file.now }
    ensures { result ≡ header.off_mem_rsvmap file.now }
{
    cell_at(file, OFF_MEM_RSVMAP)
}

/// Returns the version of the blob. Requires: the file has at least 24 bytes.
pub(crate) fn version(file: &[u8]) -> u32
    requires { 24 ≤ length file.now }
    ensures { result ≡ header.version file.now }
{
    cell_at(file, VERSION)
}

/// Returns the least version whose readers can read the blob. Requires: the file has at least 28
/// bytes.
pub(crate) fn last_comp_version(file: &[u8]) -> u32
    requires { 28 ≤ length file.now }
    ensures { result ≡ header.last_comp_version file.now }
{
    cell_at(file, LAST_COMP_VERSION)
}

/// Returns the physical number of the boot processor. Requires: the file has at least 32 bytes.
pub(crate) fn boot_cpuid_phys(file: &[u8]) -> u32
    requires { 32 ≤ length file.now }
    ensures { result ≡ header.boot_cpuid_phys file.now }
{
    cell_at(file, BOOT_CPUID_PHYS)
}

/// Returns the size of the strings block in bytes. Requires: the file has at least 36 bytes.
pub(crate) fn size_dt_strings(file: &[u8]) -> u32
    requires { 36 ≤ length file.now }
    ensures { result ≡ header.size_dt_strings file.now }
{
    cell_at(file, SIZE_DT_STRINGS)
}

/// Returns the size of the structure block in bytes. Version 16 has no such cell. Requires: the
/// file has at least 40 bytes.
pub(crate) fn size_dt_struct(file: &[u8]) -> u32
    requires { 40 ≤ length file.now }
    ensures { result ≡ header.size_dt_struct file.now }
{
    cell_at(file, SIZE_DT_STRUCT)
}

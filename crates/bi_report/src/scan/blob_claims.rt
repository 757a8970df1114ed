//! How many bytes the header of a blob claims (Devicetree Specification, 5.2).

ghost use Rattle.std.specs.Prelude.{◌≡◌, ◌↔◌, ◌≤◌, [], ◌∷◌, IsTrue, length};
ghost use Rattle.bi_base.specs.Checks.{HasNoFault};
ghost use Rattle.bi_base.specs.Limits.{widest};
ghost use Rattle.bi_blob.specs.Blob.{header_length, totalsize};
ghost use Rattle.bi_blob.specs.Blob.{structure_end as end_of_structure};
ghost use Rattle.bi_blob.specs.BlobFaults.{HeaderPasses, PlacesReservations, PlacesStructure};
ghost use Rattle.bi_blob.specs.BlobFaults.{PlacesStrings};
ghost use Rattle.bi_norm.specs.declared.kind.Kind.TheVariants as kind;
ghost use Rattle.bi_norm.specs.Kinds.{BeginsAs};
ghost use Rattle.bi_report.specs.Scanning.{IsClaim, blob_claim_checks};

use bi_base::{be32_at, cell_at};

/// The offset of the total size in bytes.
const TOTALSIZE: usize = 4;

/// The offset of the offset of the structure block in bytes.
const OFF_DT_STRUCT: usize = 8;

/// The offset of the offset of the strings block in bytes.
const OFF_DT_STRINGS: usize = 12;

/// The offset of the offset of the memory reservation block in bytes.
const OFF_MEM_RSVMAP: usize = 16;

/// The offset of the version in bytes.
const VERSION: usize = 20;

/// The offset of the last compatible version in bytes.
const LAST_COMP_VERSION: usize = 24;

/// The offset of the size of the strings block in bytes.
const SIZE_DT_STRINGS: usize = 32;

/// The offset of the size of the structure block in bytes.
const SIZE_DT_STRUCT: usize = 36;

/// The least version that is read, whose header has no size of the structure block.
const SHORT_VERSION: u32 = 16;

/// The version of the reader.
const READER_VERSION: u32 = 17;

/// Returns how many of its bytes an image claims: the total size, if the header passes its checks.
/// Requires: the image begins as a blob.
pub(super) fn blob_claim(image: &[u8]) -> usize
    requires { BeginsAs image.now kind.Fit }
    ensures claim { IsClaim image.now result }
    ensures within { result ≤ length image.now }
{
    if has_good_header(image) {
        cell_at(image, TOTALSIZE) as usize
    } else {
        0
    }
}

/// Returns whether the header of a blob passes its checks.
fn has_good_header(image: &[u8]) -> bool
    ensures { IsTrue result ↔ HasNoFault (HeaderPasses widest image.now) blob_claim_checks }
{
    let header_size = header_size(image);
    if image.len() < header_size
        || cell_at(image, VERSION) < SHORT_VERSION
        || cell_at(image, LAST_COMP_VERSION) > READER_VERSION
    {
        return false;
    }
    let total = cell_at(image, TOTALSIZE) as usize;
    header_size <= total && total <= image.len() && places_blocks(image, header_size, total)
}

/// Returns whether the header of a blob places the three blocks after itself and within the blob.
/// Requires: `header_size` is the size of the header, at most the length of the image, and `total`
/// is the total size of the blob.
fn places_blocks(image: &[u8], header_size: usize, total: usize) -> bool
    requires size { header_size ≡ header_length image.now }
    requires total { total ≡ totalsize image.now }
    requires whole { header_size ≤ length image.now }
    ensures { IsTrue result ↔ HasNoFault (HeaderPasses widest image.now)
        (PlacesReservations ∷ PlacesStructure ∷ PlacesStrings ∷ []) }
{
    let reservations = cell_at(image, OFF_MEM_RSVMAP) as usize;
    if reservations < header_size || reservations % 8 != 0 || reservations > total {
        return false;
    }
    let structure = cell_at(image, OFF_DT_STRUCT) as usize;
    let structure_end = structure_end(image);
    if structure < header_size || structure % 4 != 0 || structure > structure_end {
        return false;
    }
    let strings = cell_at(image, OFF_DT_STRINGS) as usize;
    let strings_end = strings + cell_at(image, SIZE_DT_STRINGS) as usize;
    structure_end <= total && header_size <= strings && strings_end <= total
}

/// Returns the size of the header of a blob in bytes: 36 in version 16, else 40. It is 40 if the
/// image ends before the version.
fn header_size(image: &[u8]) -> usize
    ensures least { 36 ≤ result }
    ensures value { 36 ≤ length image.now → result ≡ header_length image.now }
{
    if be32_at(image, VERSION) == Some(SHORT_VERSION) {
        36
    } else {
        40
    }
}

/// Returns the offset of the end of the structure block: in version 16 the end of the blob.
/// Requires: the image does not end before the header does.
fn structure_end(image: &[u8]) -> usize
    requires { header_length image.now ≤ length image.now }
    ensures { result ≡ end_of_structure image.now }
{
    if cell_at(image, VERSION) == SHORT_VERSION {
        cell_at(image, TOTALSIZE) as usize
    } else {
        cell_at(image, OFF_DT_STRUCT) as usize + cell_at(image, SIZE_DT_STRUCT) as usize
    }
}

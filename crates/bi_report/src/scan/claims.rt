//! How many bytes the headers inside a file claim: the bound on the work of a scan.

ghost use Rattle.std.specs.Prelude.{◌≡◌, ◌≤◌, IfErr, IfOk, OnOk, length};
ghost use Rattle.bi_base.specs.Crc.{crc32 as crc32_of};
ghost use Rattle.bi_base.specs.Reading.{too_large};
ghost use Rattle.bi_legacy.specs.Faults.{header_without_checksum};
ghost use Rattle.bi_norm.specs.declared.kind.Kind.TheVariants as kind;
ghost use Rattle.bi_norm.specs.Kinds.{BeginsAs};
ghost use Rattle.bi_report.specs.Scanning.{ClaimsNothing, IsAfterClaim, IsClaim, IsOverClaims};
ghost use Rattle.bi_report.specs.Scanning.{IsWithinClaims};

use super::blob_claims::blob_claim;
use super::image_starts::ImageStarts;
use bi_base::{Cause, Crc32, Fault, Limits, cell_at, refuse};
use bi_common::at_offset::image_at;
use bi_legacy::HEADER_SIZE;
use bi_legacy::offsets::{IH_HCRC, IH_SIZE, IH_TIME};
use bi_norm::{Kind, kind_of};

/// Checks that the images at all offsets of a file claim together no more bytes than the limit.
/// Returns the least offset from which on no image claims any bytes: 0, or that after the last
/// image that does.
///
/// Error: TooLarge at the limit, if they claim more.
pub(super) fn check_claims(file: &[u8], limits: Limits) -> Result<usize, Fault>
    ensures ok { OnOk result (IsWithinClaims limits file.now) }
    ensures within { IfOk result (λ end. end ≤ length file.now) }
    ensures nothing { IfOk result (λ end. ClaimsNothing file.now end (length file.now)) }
    ensures last { IfOk result (IsAfterClaim file.now) }
    ensures fault { IfErr result (λ fault. (fault ≡ too_large limits.file)
        × IsOverClaims limits file.now) }
{
    let mut total = 0;
    let mut end = 0;
    for offset in ImageStarts::new(file, file.len()) {
        let claim = claim_of(image_at(file, offset));
        if claim > 0 {
            end = offset + 1;
        }
        total += claim;
        if total > limits.file() as usize {
            return refuse(Cause::TooLarge, limits.file());
        }
    }
    Ok(end)
}

/// Returns how many of its bytes an image claims.
fn claim_of(image: &[u8]) -> usize
    ensures claim { IsClaim image.now result }
    ensures within { result ≤ length image.now }
{
    match kind_of(image) {
        Ok(Kind::Legacy) => legacy_claim(image),
        Ok(Kind::Fit) => blob_claim(image),
        Err(_) => 0,
    }
}

/// Returns how many of its bytes an image claims: the header and the data, if the checksum of the
/// header is right and all of the data is there. Requires: the image begins as a legacy image.
fn legacy_claim(image: &[u8]) -> usize
    requires { BeginsAs image.now kind.Legacy }
    ensures claim { IsClaim image.now result }
    ensures within { result ≤ length image.now }
{
    if image.len() < HEADER_SIZE || cell_at(image, IH_HCRC) != header_checksum(image) {
        return 0;
    }
    let size = cell_at(image, IH_SIZE) as usize;
    if size > image.len() - HEADER_SIZE {
        return 0;
    }
    HEADER_SIZE + size
}

/// Returns the CRC-32 of the header of a legacy image, with zeros instead of its checksum.
/// Requires: the image has at least 64 bytes.
fn header_checksum(image: &[u8]) -> u32
    requires { 64 ≤ length image.now }
    ensures { result ≡ crc32_of (header_without_checksum image.now) }
{
    let mut sum = Crc32::new();
    sum.update(&image[..IH_HCRC]);
    sum.update(&[0; 4]);
    sum.update(&image[IH_TIME..HEADER_SIZE]);
    sum.finish()
}

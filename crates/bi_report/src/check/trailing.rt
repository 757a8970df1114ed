//! The concern about the bytes of a file after its image.

ghost use Rattle.std.specs.Prelude.{◌≡◌, ◌-◌, drop, length};
ghost use Rattle.bi_fit.specs.Content.{image_model};
ghost use Rattle.bi_report.specs.ConcernValues.{found_or_none};
ghost use Rattle.bi_report.specs.FoundConcerns.{found_in_rest};
ghost use Rattle.bi_report.specs.ReadChecking.{end_at, offset_at};
ghost use Rattle.bi_report.specs.ReadChecking.{end_of_read_payloads};

use super::concern::Concern;
use crate::used_hashes::are_zeros;
use bi_common::payload_bounds::length_of;
use bi_fit::{Fit, Image, Place};
use bi_legacy::Legacy;

/// Returns the concern about these bytes after an image, if there is one.
pub(super) fn rest_concern<'a, 'b>(bytes: &[u8]) -> Option<Concern<'a, 'b>>
    ensures { found_or_none result ≡ found_in_rest bytes.now }
{
    if are_zeros(bytes) {
        None
    } else {
        Some(Concern::TrailingBytes(bytes.len()))
    }
}

/// Returns where the last of the blob and the payloads ends in the file.
pub fn content_end(fit: &Fit) -> usize
    ensures { result ≡ end_of_read_payloads fit.now.blob.total_size fit.now.images }
{
    let mut end = 0;
    for image in fit.images() {
        end = end.max(payload_end(image));
    }
    end.max(fit.blob().total_size() as usize)
}

/// Returns where the payload of an image ends in the file, 0 if there is none.
fn payload_end(image: &Image) -> usize
    ensures { result ≡ end_at (image_model image.now).place (image_model image.now).payload }
{
    offset_of(image.place) as usize + length_of(image.payload)
}

/// Returns the offset of a payload, 0 if there is none.
fn offset_of(place: Place) -> u32
    ensures { result ≡ offset_at place }
{
    match place {
        Place::Absent => 0,
        Place::Data(offset) | Place::DataOffset(offset) | Place::DataPosition(offset) => offset,
    }
}

/// Returns the bytes of a file after the last of the blob and the payloads.
pub(super) fn bytes_after_fit<'a>(file: &'a [u8], fit: &Fit) -> &'a [u8]
    ensures { result.now
        ≡ drop (end_of_read_payloads fit.now.blob.total_size fit.now.images) file.entry.now }
{
    &file[content_end(fit).min(file.len())..]
}

/// Returns the bytes of a file after the legacy image that was read from it.
pub(super) fn bytes_after_legacy<'a>(file: &'a [u8], image: &Legacy) -> &'a [u8]
    ensures { result.now ≡ drop (length file.now - image.now.unused) file.entry.now }
{
    &file[file.len().saturating_sub(image.unused() as usize)..]
}

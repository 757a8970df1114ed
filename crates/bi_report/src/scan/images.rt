//! The boot images inside a file.

ghost use Rattle.std.specs.Prelude.{◌≡◌, ◌+◌, ◌<◌, ◌≤◌, IfErr, IfOk, MatchOption, length};
ghost use Rattle.bi_base.specs.Cells.{u32_at};
ghost use Rattle.bi_base.specs.declared.fault.Error.TheVariants.{OutOfMemory};
ghost use Rattle.bi_fit.specs.Content.{tree_of};
ghost use Rattle.bi_norm.specs.Meaning.{MeansNothing, OfFit, OfLegacy};
ghost use Rattle.bi_norm.specs.Reading.{IsReadBootImage};
ghost use Rattle.bi_report.specs.ReadChecking.{end_of_read_payloads};
ghost use Rattle.bi_report.specs.ScannedImages.{HasHeaderOf, image_or_none, scanned_image_read};
ghost use Rattle.bi_report.specs.ScannedImages.{scanned_image_value};
ghost use Rattle.bi_report.specs.Scanning.{IsFoundAt, scanned_image};

use crate::check::content_end;
use bi_base::{Error, Limits, cell_at};
use bi_common::at_offset::image_at;
use bi_fit::Fit;
use bi_legacy::offsets::IH_SIZE;
use bi_legacy::{HEADER_SIZE, Legacy};
use bi_norm::{BootImage, kind_of};
use std::alloc::Global;

/// The kind of a boot image inside a file.
#[derive(Clone, Copy)]
pub(super) enum ScannedKind<'a> {
    /// A legacy image with this name.
    Legacy(&'a [u8]),
    /// A flattened image tree with so many images.
    Fit(usize),
}

/// A boot image inside a file.
#[derive(Clone, Copy)]
pub(super) struct ScannedImage<'a> {
    /// Where it begins.
    pub(super) offset: usize,
    /// How many bytes it has.
    pub(super) extent: usize,
    /// Its kind.
    pub(super) kind: ScannedKind<'a>,
}

/// Returns the boot image at an offset of a file, if one is accepted there. Fails only with
/// OutOfMemory. Requires: the offset is before the end of the file.
pub(super) fn find_image<'a>(
    alloc: Global,
    file: &'a [u8],
    offset: usize,
    limits: Limits,
) -> Result<Option<ScannedImage<'a>>, Error>
    requires { offset < length file.now }
    ensures found { IfOk result
        (λ image. IsFoundAt limits file.entry.now offset (image_or_none image)) }
    ensures failed { IfErr result (λ error. error ≡ OutOfMemory) }
{
    let image = image_at(file, offset);
    if kind_of(image).is_err() {
        return Ok(None);
    }
    let Some(read) = read_accepted(alloc, image, limits)? else {
        return Ok(None);
    };
    Ok(Some(found_image(image, &read, offset)))
}

/// Reads a boot image, if it is accepted. Fails only with OutOfMemory.
fn read_accepted<'a>(
    alloc: Global,
    image: &'a [u8],
    limits: Limits,
) -> Result<Option<BootImage<'a>>, Error>
    ensures read { IfOk result (λ read. MatchOption read (MeansNothing limits image.entry.now)
        (IsReadBootImage limits image.entry.now)) }
    ensures failed { IfErr result (λ error. error ≡ OutOfMemory) }
{
    match BootImage::read(alloc, image, limits) {
        Ok(read) => Ok(Some(read)),
        Err(Error::Refused(_)) => Ok(None),
        Err(error) => Err(error),
    }
}

/// Returns a boot image that was read, at an offset. Requires: a legacy image has at least 64
/// bytes.
fn found_image<'a>(image: &[u8], read: &BootImage<'a>, offset: usize) -> ScannedImage<'a>
    requires { HasHeaderOf image.now read.now }
    ensures { scanned_image_value result ≡ scanned_image_read offset image.now read.now }
{
    match read {
        BootImage::Legacy(legacy) => legacy_image(image, legacy, offset),
        BootImage::Fit(fit) => fit_image(fit, offset),
    }
}

/// Returns a legacy image that was read, at an offset. Requires: the image has at least 64 bytes.
fn legacy_image<'a>(image: &[u8], legacy: &Legacy<'a>, offset: usize) -> ScannedImage<'a>
    requires { 64 ≤ length image.now }
    ensures { scanned_image_value result ≡ scanned_image offset (64 + u32_at image.now 12)
        (OfLegacy legacy.now.image) }
{
    ScannedImage {
        offset,
        extent: HEADER_SIZE + cell_at(image, IH_SIZE) as usize,
        kind: ScannedKind::Legacy(legacy.fields().name),
    }
}

/// Returns a flattened image tree that was read, at an offset.
fn fit_image(fit: &Fit, offset: usize) -> ScannedImage<'static>
    ensures { scanned_image_value result ≡ scanned_image offset
        (end_of_read_payloads fit.now.blob.total_size fit.now.images) (OfFit (tree_of fit.now)) }
{
    ScannedImage {
        offset,
        extent: content_end(fit),
        kind: ScannedKind::Fit(fit.image_count()),
    }
}

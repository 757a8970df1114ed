//! Comparing what two files mean.

ghost use Rattle.std.specs.Prelude.{◌≡◌, ◌↔◌, IsTrue, IfOk, IfErr};
ghost use Rattle.bi_norm.specs.Comparing.{AreCompared, IsCompareError};
ghost use Rattle.bi_norm.specs.Reading.{meaning_of};

use crate::image::BootImage;
use bi_base::{Error, Limits};
use bi_legacy::Legacy;
use std::alloc::Global;

/// Returns whether two boot images mean the same. Images of different kinds never do. No normal
/// texts are made, so these may be longer than the limit. `Fit::has_same_meaning` says how long
/// this takes.
///
/// Errors, the first that applies: those of `BootImage::read` for the first file; those for the
/// second file. OutOfMemory never occurs if the first file fails a check that needs no memory.
pub fn same_meaning(alloc: Global, one: &[u8], other: &[u8], limits: Limits) -> Result<bool, Error>
    ensures compared { IfOk result (AreCompared limits one.now other.now) }
    ensures failed { IfErr result (IsCompareError limits one.now other.now) }
{
    let image = BootImage::read(alloc, one, limits)?;
    let other_image = BootImage::read(alloc, other, limits)?;
    image.has_same_meaning(alloc, &other_image)
}

impl<'a> BootImage<'a> {
    /// Returns whether both images mean the same. Images of different kinds never do.
    ///
    /// The only error is OutOfMemory.
    pub fn has_same_meaning(&self, alloc: Global, other: &BootImage<'_>) -> Result<bool, Error>
        ensures compared { IfOk result (λ same. IsTrue same
            ↔ (meaning_of self.now ≡ meaning_of other.now)) }
        ensures failed { IfErr result (λ error. error ≡ Error.OutOfMemory) }
    {
        match (self, other) {
            (BootImage::Legacy(image), BootImage::Legacy(other)) => {
                Ok(is_same_image(image, other))
            }
            (BootImage::Fit(fit), BootImage::Fit(other)) => fit.has_same_meaning(alloc, other),
            _ => Ok(false),
        }
    }
}

/// Returns whether two legacy images have the same fields and the same parts.
fn is_same_image(image: &Legacy<'_>, other: &Legacy<'_>) -> bool
    ensures { IsTrue result ↔ (image.now.image ≡ other.now.image) }
{
    image.fields() == other.fields() && have_same_parts(image, other)
}

/// Returns whether two legacy images have the same parts, in the same order.
fn have_same_parts(image: &Legacy<'_>, other: &Legacy<'_>) -> bool
    ensures { IsTrue result ↔ (image.now.image.parts ≡ other.now.image.parts) }
{
    if image.part_count() != other.part_count() {
        return false;
    }
    for (part, other_part) in image.parts().zip(other.parts()) {
        if part.bytes != other_part.bytes {
            return false;
        }
    }
    true
}

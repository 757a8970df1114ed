//! The payloads of images to be built.

ghost use Rattle.std.specs.Prelude.{◌≡◌, map, IfOk};
ghost use Rattle.bi_fit.specs.NamedImages.{image_to_place};

use crate::building::NamedImage;
use crate::image::{Image, Place};
use std::alloc::{AllocError, Global};

/// Returns images with the names and the payloads of these, in their order. They are not in a file,
/// so the place of each is `Absent`, and nothing reads it.
pub(super) fn images_of<'a>(
    alloc: Global,
    images: &[NamedImage<'a>],
) -> Result<Vec<Image<'a>>, AllocError>
    ensures { IfOk result (λ list. list.items ≡ map image_to_place images.now) }
{
    let mut list = Vec::with_capacity(alloc, images.len())?;
    for image in images {
        list.push(Image {
            name: image.name,
            payload: Some(image.payload),
            place: Place::Absent,
        })?;
    }
    Ok(list)
}

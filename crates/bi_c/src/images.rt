//! The images of a flattened image tree.

ghost use Rattle.std.specs.Prelude.{◌≡◌, List, ℕ, unwrap_or};
ghost use Rattle.bi_blob.specs.Lookups.{siblings};
ghost use Rattle.bi_fdt.specs.Content.{root_of};
ghost use Rattle.bi_fdt.specs.Views.{node_of};
ghost use Rattle.bi_fit.specs.Content.{IsHeld, IsReadImage, image_model, offset_of_place};
ghost use Rattle.bi_fit.specs.Content.{payloads_of_models};
ghost use Rattle.bi_fit.specs.ImageTree.{image_nodes, nodes_or_none};
ghost use Rattle.bi_fit.specs.Reading.{IsFitReadError};
ghost use Rattle.bi_c.specs.Answers.{FillsBuffer, IsThisOutput};
ghost use Rattle.bi_c.specs.Calls.{IsFailureOfOne};
ghost use Rattle.bi_c.specs.ImageElements.{AreImageElements, element_of_image, image_elements};
ghost use Rattle.bi_c.specs.ImageElements.{place_number};

use crate::answer::{Answer, DONE, NO_ROOM, answer_with, fail};
use crate::argument::wrong_limit;
use crate::arguments::limits_of;
use crate::failure::{Failure, failure_of};
use crate::region::Region;
use bi_fdt::NodeRef;
use bi_fit::{Fit, Image, Place};
use std::alloc::Global;

/// An image of a flattened image tree.
#[repr(C)]
#[derive(Clone, Copy, Debug, PartialEq, Eq)]
pub struct ImageElement {
    /// Where the name is in the file.
    pub name: Region,
    /// Where the payload is in the file. Both numbers are 0 if there is none.
    pub payload: Region,
    /// The number of what places the payload: 0 if there is none, 1 for the property `data`, 2 for
    /// `data-offset`, and 3 for `data-position`.
    pub place: u32,
}

/// Writes the images of a flattened image tree, in their order, to the beginning of an array.
/// Returns the status.
#[unsafe(no_mangle)]
pub extern "C" fn bootimg_images(
    alloc: Global,
    file: &[u8],
    limit: u32,
    depth: u32,
    images: &mut [ImageElement],
    answer: &mut Answer,
) -> u32
    ensures { FillsBuffer (AreImageElements limit depth file.now)
        (IsFailureOfOne limit depth (λ limits. IsFitReadError limits file.now))
        images.old images.new answer.new result }
{
    let Some(limits) = limits_of(limit, depth) else {
        return fail(Failure::WrongArgument(wrong_limit(limit), 0), answer);
    };
    match Fit::read(alloc, file, limits) {
        Ok(fit) => fill_images(&fit, images, answer),
        Err(error) => fail(failure_of(error), answer),
    }
}

/// Writes the images of a flattened image tree to an array, and the answer. Returns the status.
/// Requires: the tree was read.
fn fill_images(fit: &Fit<'_>, elements: &mut [ImageElement], answer: &mut Answer) -> u32
    requires { IsHeld fit.now }
    ensures { FillsBuffer (IsThisOutput (image_elements fit.now.blob.file
        (siblings (nodes_or_none (image_nodes (root_of fit.now.blob))))
        (payloads_of_models fit.now.images)) 0)
        (λ failure. ⊥) elements.old elements.new answer.new result }
{
    let images = fit.images();
    *answer = answer_with(images.len(), 0);
    if elements.len() < images.len() {
        return NO_ROOM;
    }
    let mut index = 0;
    let mut next = fit.images_node().first_child();
    while let Some(node) = next {
        elements[index] = image_element(node, &images[index]);
        index += 1;
        next = node.next_sibling();
    }
    DONE
}

/// Returns the element of an image that was read from a node of a file.
fn image_element(node: NodeRef<'_, '_>, image: &Image<'_>) -> ImageElement
    ensures { (file : List ℕ) → IsReadImage file (node_of node.entry) (image_model image.now) →
        result ≡ element_of_image file (node_of node.entry) (image_model image.now).payload }
{
    let payload = image.payload.unwrap_or(b"");
    let (offset, place) = numbers_of(image.place);
    ImageElement {
        name: Region {
            offset: node.place() as usize + 4,
            size: image.name.len(),
        },
        payload: Region {
            offset,
            size: payload.len(),
        },
        place,
    }
}

/// Returns the offset of a place, or 0 if there is no payload, and the number of what places it.
fn numbers_of(place: Place) -> (usize, u32)
    ensures offset { result.0 ≡ unwrap_or (offset_of_place place) 0 }
    ensures number { result.1 ≡ place_number place }
{
    match place {
        Place::Absent => (0, 0),
        Place::Data(offset) => (offset as usize, 1),
        Place::DataOffset(offset) => (offset as usize, 2),
        Place::DataPosition(offset) => (offset as usize, 3),
    }
}

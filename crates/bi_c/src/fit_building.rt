//! Building a flattened image tree of pieces of the caller's memory.

ghost use Rattle.std.specs.Prelude.{◌≡◌, IfErr, IfNone, IfOk, IfSome};
ghost use Rattle.std.specs.List.{AllZip};
ghost use Rattle.bi_c.specs.Answers.{FillsBuffer};
ghost use Rattle.bi_c.specs.Checks.{IsElementFailure};
ghost use Rattle.bi_c.specs.declared.argument.Argument.TheVariants.{Images};
ghost use Rattle.bi_c.specs.TreeBuilding.{IsSpecInside, IsSpecOf};
ghost use Rattle.bi_c.specs.TreeBuilding.{IsTreeBuildFailure, IsTreeOfPieces};
ghost use Rattle.bi_c.specs.TreeBuilding.{address_if as chosen_address};

use crate::answer::{Answer, fail, fill};
use crate::argument::{Argument, wrong_limit};
use crate::arguments::{form_of, has_bit, limits_of};
use crate::building::piece;
use crate::failure::{Failure, failure_of};
use crate::region::Region;
use bi_fit::Head;
use bi_norm::{ImageSpec, build_fit};
use std::alloc::Global;

/// An image of a flattened image tree to be built. Its name and its payload are regions of the
/// input, and its codes are those of a legacy header.
#[repr(C)]
#[derive(Clone, Copy, Debug, PartialEq, Eq)]
pub struct BuildElement {
    /// Where the name is in the input.
    pub name: Region,
    /// Where the payload is in the input.
    pub payload: Region,
    /// The load address, if there is one.
    pub load: u32,
    /// The address of the entry point, if there is one.
    pub entry: u32,
    /// A sum: 1 if there is a load address, and 2 if there is an entry point.
    pub addresses: u32,
    /// The code of the operating system.
    pub os: u8,
    /// The code of the processor architecture.
    pub arch: u8,
    /// The code of the image type.
    pub image_type: u8,
    /// The code of the compression.
    pub compression: u8,
}

/// Writes a flattened image tree with these images, each with the SHA-256 of its payload, and one
/// configuration, which lists them by their types, to a buffer. Returns the status.
#[unsafe(no_mangle)]
pub extern "C" fn bootimg_build_fit(
    alloc: Global,
    input: &[u8],
    description: &[u8],
    time: u32,
    images: &[BuildElement],
    form: u32,
    limit: u32,
    depth: u32,
    buffer: &mut [u8],
    answer: &mut Answer,
) -> u32
    ensures { FillsBuffer
        (IsTreeOfPieces limit depth form time input.now description.now images.now)
        (IsTreeBuildFailure limit depth form time input.now description.now images.now)
        buffer.old buffer.new answer.new result }
{
    let Some(limits) = limits_of(limit, depth) else {
        return fail(Failure::WrongArgument(wrong_limit(limit), 0), answer);
    };
    let Some(kind) = form_of(form) else {
        return fail(Failure::WrongArgument(Argument::Form, 0), answer);
    };
    let specs = match specs_of(alloc, input, images) {
        Ok(specs) => specs,
        Err(failure) => return fail(failure, answer),
    };
    let head = Head { description, time };
    match build_fit(alloc, head, &specs, kind, limits) {
        Ok(text) => fill(&text, 0, buffer, answer),
        Err(error) => fail(failure_of(error), answer),
    }
}

/// Returns the images to be built.
///
/// Errors: OutOfMemory; WrongArgument, if a region is not inside the input, or `addresses` is not
/// such a sum.
pub(crate) fn specs_of<'a>(
    alloc: Global,
    input: &'a [u8],
    images: &[BuildElement],
) -> Result<Vec<ImageSpec<'a>>, Failure>
    ensures specs { IfOk result
        (λ specs. AllZip (IsSpecOf input.entry.now) images.now specs.items) }
    ensures failed { IfErr result
        (IsElementFailure Images (IsSpecInside input.entry.now) images.now) }
{
    let mut specs = Vec::new(alloc);
    for image in images {
        let Some(spec) = spec_of(input, *image) else {
            return Err(Failure::WrongArgument(Argument::Images, specs.len()));
        };
        match specs.push(spec) {
            Ok(()) => {}
            Err(_) => return Err(Failure::OutOfMemory),
        }
    }
    Ok(specs)
}

/// Returns an image to be built. Returns None if a region is not inside the input, or `addresses`
/// is not such a sum.
fn spec_of<'a>(input: &'a [u8], image: BuildElement) -> Option<ImageSpec<'a>>
    ensures spec { IfSome result (IsSpecOf input.entry.now image) }
    ensures none { IfNone result (¬ (IsSpecInside input.entry.now image)) }
{
    if image.addresses > 3 {
        return None;
    }
    let Some(name) = piece(input, image.name) else {
        return None;
    };
    let Some(payload) = piece(input, image.payload) else {
        return None;
    };
    Some(ImageSpec {
        name,
        image_type: image.image_type,
        arch: image.arch,
        os: image.os,
        compression: image.compression,
        load: address_if(has_bit(1, image.addresses), image.load),
        entry: address_if(has_bit(2, image.addresses), image.entry),
        payload,
    })
}

/// Returns an address, if it is there.
fn address_if(is_there: bool, address: u32) -> Option<u32>
    ensures { result ≡ chosen_address is_there address }
{
    if is_there { Some(address) } else { None }
}

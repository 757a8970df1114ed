//! The concerns about a boot image.

ghost use Rattle.std.specs.Prelude.{◌≡◌, IfOk, map};
ghost use Rattle.bi_c.specs.Answers.{FillsBuffer, IsFailure};
ghost use Rattle.bi_c.specs.Arguments.{bounds};
ghost use Rattle.bi_c.specs.Calls.{KindsCheck};
ghost use Rattle.bi_c.specs.ConcernElements.{AreConcernElements};
ghost use Rattle.bi_c.specs.ConcernElements.{concern_element as element_of_concern};
ghost use Rattle.bi_c.specs.ConcernElements.{concern_number, key_number as number_of_key};
ghost use Rattle.bi_report.specs.CheckedFiles.{IsCheckError};
ghost use Rattle.bi_report.specs.CheckedImages.{found_of};
ghost use Rattle.bi_report.specs.ConcernValues.{found_value};
ghost use Rattle.bi_report.specs.FoundConcerns.{kept_found};

use crate::answer::{Answer, fail, fill};
use crate::argument::{Argument, wrong_limit};
use crate::arguments::{limits_of, policy_of};
use crate::failure::{Failure, failure_of};
use crate::nodes::name_region;
use crate::region::{NOWHERE, Region};
use crate::verdicts::{text_of, verdict_number};
use bi_commands::check::{Allowed, CheckedImage, Concern, ConcernKind};
use bi_fit::Key;
use std::alloc::{AllocError, Global};

/// A concern about a boot image. The line of one about signatures or unit addresses has its names.
#[repr(C)]
#[derive(Clone, Copy, Debug, PartialEq, Eq)]
pub struct ConcernElement {
    /// Where the name of the image or the configuration, or the default, is in the file. Both
    /// numbers are 0 if there is none.
    pub name: Region,
    /// Where the name of the hash node is in the file. Both numbers are 0 if there is none.
    pub node: Region,
    /// Where the name of the algorithm is in the file. Both numbers are 0 if there is none.
    pub algorithm: Region,
    /// The index of the listed name that no image has.
    pub index: usize,
    /// The number of bytes after the image.
    pub size: usize,
    /// The number of the kind: the bit that allows it.
    pub kind: u32,
    /// The number of the verdict on the hash node.
    pub verdict: u32,
    /// The number of the key of the configuration.
    pub key: u32,
}

/// Writes the concerns about a file, except those of allowed kinds, in their order, to the
/// beginning of an array. Each bit of `kinds` allows a kind, but the greatest, which asks for
/// signatures. Returns the status.
#[unsafe(no_mangle)]
pub extern "C" fn bootimg_concerns(
    alloc: Global,
    file: &[u8],
    kinds: u32,
    limit: u32,
    depth: u32,
    concerns: &mut [ConcernElement],
    answer: &mut Answer,
) -> u32
    ensures { FillsBuffer (AreConcernElements limit depth kinds file.now)
        (IsFailure (KindsCheck limit depth kinds) (IsCheckError (bounds limit depth) file.now))
        concerns.old concerns.new answer.new result }
{
    let Some(limits) = limits_of(limit, depth) else {
        return fail(Failure::WrongArgument(wrong_limit(limit), 0), answer);
    };
    let Some(policy) = policy_of(kinds) else {
        return fail(Failure::WrongArgument(Argument::Kinds, 0), answer);
    };
    let image = match CheckedImage::read(alloc, file, limits) {
        Ok(image) => image,
        Err(error) => return fail(failure_of(error), answer),
    };
    match concern_elements(alloc, &image, policy.allowed_kinds()) {
        Ok(elements) => fill(&elements, 0, concerns, answer),
        Err(_) => fail(Failure::OutOfMemory, answer),
    }
}

/// Returns the elements of the concerns about an image that are not allowed. Fails if memory runs
/// out.
fn concern_elements(
    alloc: Global,
    image: &CheckedImage<'_>,
    allowed: Allowed,
) -> Result<Vec<ConcernElement>, AllocError>
    ensures { IfOk result (λ elements. elements.items
        ≡ map element_of_concern (kept_found allowed (found_of image.now))) }
{
    let mut elements = Vec::new(alloc);
    for concern in image.concerns().kept(allowed) {
        elements.push(concern_element(concern))?;
    }
    Ok(elements)
}

/// Returns the element of a concern.
fn concern_element(concern: Concern<'_, '_>) -> ConcernElement
    ensures { result ≡ element_of_concern (found_value concern.entry) }
{
    let mut element = ConcernElement {
        name: NOWHERE,
        node: NOWHERE,
        algorithm: NOWHERE,
        index: 0,
        size: 0,
        kind: kind_number(concern.kind()),
        verdict: 0,
        key: 0,
    };
    match concern {
        Concern::BadHash(image, node, hash) => {
            element.name = name_region(image);
            element.node = name_region(node);
            element.algorithm = text_of(node.find_property(b"algo"));
            element.verdict = verdict_number(hash.verdict);
        }
        Concern::SkippedHash(image, skipped, _hash) => {
            element.name = name_region(image);
            element.node = name_region(skipped);
        }
        Concern::UnhashedImage(image) => element.name = name_region(image),
        Concern::WeakHash(image, _hashes) => element.name = name_region(image),
        Concern::BadKey(configuration, key) => {
            element.name = name_region(configuration);
            element.key = key_number(key);
        }
        Concern::MissingImage(configuration, key, index) => {
            element.name = name_region(configuration);
            element.key = key_number(key);
            element.index = index;
        }
        Concern::Unsigned(_) | Concern::OfSignature(..) | Concern::UnitAddress(_) => (),
        Concern::BadDefault(_default, property) => element.name = text_of(property),
        Concern::TrailingBytes(count) => element.size = count,
    }
    element
}

/// Returns the number of a kind of concerns.
fn kind_number(kind: ConcernKind) -> u32
    ensures { result ≡ concern_number kind }
{
    match kind {
        ConcernKind::BadHash => 1,
        ConcernKind::SkippedHash => 128,
        ConcernKind::Unhashed => 2,
        ConcernKind::WeakHash => 4,
        ConcernKind::BadList => 8,
        ConcernKind::Missing => 16,
        ConcernKind::Unsigned => 256,
        ConcernKind::NoNodes => 512,
        ConcernKind::NoImages => 1024,
        ConcernKind::Uncovered => 2048,
        ConcernKind::Foreign => 4096,
        ConcernKind::Strings => 8192,
        ConcernKind::UnitAddress => 16384,
        ConcernKind::BadDefault => 32,
        ConcernKind::Trailing => 64,
    }
}

/// Returns the number of a key.
fn key_number(key: Key) -> u32
    ensures { result ≡ number_of_key key }
{
    match key {
        Key::Kernel => 0,
        Key::Fdt => 1,
        Key::Ramdisk => 2,
        Key::Firmware => 3,
        Key::Loadables => 4,
        Key::Script => 5,
    }
}

//! The verdicts on the hash nodes of a flattened image tree.

ghost use Rattle.std.specs.Prelude.{◌≡◌, ◌∷◌, [], ◌++◌, IfOk, IfSome, OnOk};
ghost use Rattle.std.specs.Option.{option_map};
ghost use Rattle.bi_blob.specs.Lookups.{siblings};
ghost use Rattle.bi_fdt.specs.Properties.{file_property_of};
ghost use Rattle.bi_fdt.specs.Views.{node_of};
ghost use Rattle.bi_fit.specs.Content.{payloads_of_models};
ghost use Rattle.bi_fit.specs.HashNodes.{file_images};
ghost use Rattle.bi_fit.specs.Names.{is_hash_name};
ghost use Rattle.bi_fit.specs.Reading.{IsFitReadError};
ghost use Rattle.bi_hash.specs.Regions.{IsRegionOf, bytes_of_region};
ghost use Rattle.bi_c.specs.Answers.{FillsBuffer};
ghost use Rattle.bi_c.specs.Calls.{IsFailureOfOne};
ghost use Rattle.bi_c.specs.VerdictElements.{AreHashElements, element_with_verdict};
ghost use Rattle.bi_c.specs.VerdictElements.{found_text_region, found_value_region};
ghost use Rattle.bi_c.specs.VerdictElements.{hash_elements as elements_of_hashes};
ghost use Rattle.bi_c.specs.VerdictElements.{hash_elements_among};
ghost use Rattle.bi_c.specs.VerdictElements.{verdict_number as number_of_verdict};

use crate::answer::{Answer, fail, fill};
use crate::argument::wrong_limit;
use crate::arguments::limits_of;
use crate::failure::{Failure, failure_of};
use crate::nodes::name_region;
use crate::region::{NOWHERE, Region};
use bi_base::text_before_nul;
use bi_fdt::{NodeRef, Property};
use bi_fit::Fit;
use bi_hash::{Region as Payload, RegionDigests, Verdict};
use std::alloc::{AllocError, Global};

/// A hash node of an image of a flattened image tree, and the verdict on it.
#[repr(C)]
#[derive(Clone, Copy, Debug, PartialEq, Eq)]
pub struct HashElement {
    /// Where the name of the image is in the file.
    pub image: Region,
    /// Where the name of the hash node is in the file.
    pub node: Region,
    /// Where the name of the algorithm is in the file. Both numbers are 0 if there is none.
    pub algorithm: Region,
    /// Where the value is in the file. Both numbers are 0 if there is none.
    pub value: Region,
    /// The number of the verdict: 0 for Good, 1 for Bad, 2 for UnknownAlgo, 3 for NoPayload, and 4
    /// for Malformed.
    pub verdict: u32,
}

/// Writes the hash nodes of a flattened image tree with the verdicts on them, image by image, to
/// the beginning of an array. Returns the status.
#[unsafe(no_mangle)]
pub extern "C" fn bootimg_verdicts(
    alloc: Global,
    file: &[u8],
    limit: u32,
    depth: u32,
    hashes: &mut [HashElement],
    answer: &mut Answer,
) -> u32
    ensures { FillsBuffer (AreHashElements limit depth file.now)
        (IsFailureOfOne limit depth (λ limits. IsFitReadError limits file.now))
        hashes.old hashes.new answer.new result }
{
    let Some(limits) = limits_of(limit, depth) else {
        return fail(Failure::WrongArgument(wrong_limit(limit), 0), answer);
    };
    let fit = match Fit::read(alloc, file, limits) {
        Ok(fit) => fit,
        Err(error) => return fail(failure_of(error), answer),
    };
    match hash_elements(alloc, &fit) {
        Ok(elements) => fill(&elements, 0, hashes, answer),
        Err(_) => fail(Failure::OutOfMemory, answer),
    }
}

/// Returns the elements of the hash nodes of a flattened image tree that was read. Fails if memory
/// runs out.
fn hash_elements(alloc: Global, fit: &Fit<'_>) -> Result<Vec<HashElement>, AllocError>
    ensures { IfOk result (λ elements. elements.items ≡ elements_of_hashes
        (siblings (file_images fit.now.blob)) (payloads_of_models fit.now.images)) }
{
    let mut digests = fit.region_digests(alloc);
    let mut elements = Vec::new(alloc);
    let mut next = fit.images_node().first_child();
    for image in fit.images() {
        let Some(node) = next else {
            return Ok(elements);
        };
        push_hashes(&mut elements, node, image.region(), &mut digests)?;
        next = node.next_sibling();
    }
    Ok(elements)
}

/// Adds the elements of the hash nodes of an image with this payload. Fails if memory runs out.
/// Requires: the payload, if there is one, is within the file of the digests.
fn push_hashes(
    elements: &mut Vec<HashElement>,
    image: NodeRef<'_, '_>,
    payload: Option<Payload>,
    digests: &mut RegionDigests<'_>,
) -> Result<(), AllocError>
    requires within { IfSome payload (IsRegionOf digests.old) }
    ensures added { OnOk result (elements.new.items ≡ elements.old.items ++ hash_elements_among
        (node_of image.entry) (option_map (bytes_of_region digests.old) payload)
        (siblings (node_of image.entry).children)) }
    ensures same { digests.new ≡ digests.old }
{
    let mut next = image.first_child();
    while let Some(child) = next {
        push_child(elements, image, child, payload, digests)?;
        next = child.next_sibling();
    }
    Ok(())
}

/// Adds the element of a child of an image with this payload, if it is a hash node. Fails if memory
/// runs out. Requires: the payload, if there is one, is within the file of the digests.
fn push_child(
    elements: &mut Vec<HashElement>,
    image: NodeRef<'_, '_>,
    child: NodeRef<'_, '_>,
    payload: Option<Payload>,
    digests: &mut RegionDigests<'_>,
) -> Result<(), AllocError>
    requires within { IfSome payload (IsRegionOf digests.old) }
    ensures added { OnOk result (elements.new.items ≡ elements.old.items ++ hash_elements_among
        (node_of image.entry) (option_map (bytes_of_region digests.old) payload)
        (node_of child.entry ∷ [])) }
    ensures same { digests.new ≡ digests.old }
{
    if !is_hash(child) {
        return Ok(());
    }
    let (algo, value) = (child.property(b"algo"), child.property(b"value"));
    let verdict = digests.verdict(algo, value, payload)?;
    elements.push(hash_element(image, child, verdict))?;
    Ok(())
}

/// Returns whether a child of an image node is a hash node.
fn is_hash(child: NodeRef<'_, '_>) -> bool
    ensures { result ≡ is_hash_name (node_of child.entry).name }
{
    child.name().starts_with(b"hash")
}

/// Returns the element of a hash node of an image with this verdict.
fn hash_element(image: NodeRef<'_, '_>, hash: NodeRef<'_, '_>, verdict: Verdict) -> HashElement
    ensures { result ≡ element_with_verdict (node_of image.entry) (node_of hash.entry) verdict }
{
    HashElement {
        image: name_region(image),
        node: name_region(hash),
        algorithm: text_of(hash.find_property(b"algo")),
        value: value_of(hash.find_property(b"value")),
        verdict: verdict_number(verdict),
    }
}

/// Returns where the bytes before the first zero in the value of a property are, if there are a
/// property and a zero.
pub(crate) fn text_of(property: Option<Property<'_>>) -> Region
    ensures { result ≡ found_text_region (option_map file_property_of property.entry) }
{
    let Some(property) = property else {
        return NOWHERE;
    };
    match text_before_nul(property.value) {
        Some(text) => Region {
            offset: property.place as usize + 12,
            size: text.len(),
        },
        None => NOWHERE,
    }
}

/// Returns where the value of a property is, if there is a property.
fn value_of(property: Option<Property<'_>>) -> Region
    ensures { result ≡ found_value_region (option_map file_property_of property.entry) }
{
    match property {
        Some(property) => Region {
            offset: property.place as usize + 12,
            size: property.value.len(),
        },
        None => NOWHERE,
    }
}

/// Returns the number of a verdict.
pub(crate) fn verdict_number(verdict: Verdict) -> u32
    ensures { result ≡ number_of_verdict verdict }
{
    match verdict {
        Verdict::Good => 0,
        Verdict::Bad => 1,
        Verdict::UnknownAlgo => 2,
        Verdict::NoPayload => 3,
        Verdict::Malformed => 4,
    }
}

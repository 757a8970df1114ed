//! Reading the image nodes of a blob.

ghost use Rattle.std.specs.Prelude.{◌≡◌, ◌+◌, ◌<◌, ◌≤◌, ◌^◌, length, map, Some, IfOk, IfErr};
ghost use Rattle.std.specs.List.{AllByRecursion, AllZip};
ghost use Rattle.std.specs.Option.{option_map};
ghost use Rattle.bi_base.specs.Checks.{IsFirstFault};
ghost use Rattle.bi_base.specs.Errors.{IsFaultOrNoMemory};
ghost use Rattle.bi_blob.specs.Blob.{totalsize};
ghost use Rattle.bi_blob.specs.Layout.{longest_text};
ghost use Rattle.bi_blob.specs.Lookups.{siblings};
ghost use Rattle.bi_fdt.specs.Properties.{file_property_of};
ghost use Rattle.bi_fdt.specs.Views.{node_of};
ghost use Rattle.bi_fit.specs.Payloads.{source_of, cell_number, external_base as external_base_of};
ghost use Rattle.bi_fit.specs.Payloads.{HasPayload, IsSizedRegion};
ghost use Rattle.bi_fit.specs.Faults.{FitPasses, fit_fault, HasBeginCell, region_checks};
ghost use Rattle.bi_fit.specs.Faults.{source_checks, image_checks};
ghost use Rattle.bi_fit.specs.Content.{IsReadImage, place_of, image_model as read_image_of};
ghost use Rattle.bi_fit.specs.Images.{HasDataInFile};

use crate::image::{Image, Place};
use bi_base::{Cause, Error, Fault, be32_at, refuse, up4};
use bi_fdt::{NodeRef, Property};
use std::alloc::Global;

/// A file with the payloads of its images, and the offset from which `data-offset` is counted.
#[derive(Clone, Copy)]
struct PayloadFile<'a> {
    bytes: &'a [u8],
    external_base: usize,
    ghost short: { length bytes.now ≤ longest_text },
    ghost is_base: { external_base ≡ external_base_of bytes.now },
    ghost small: { external_base < 2 ^ 33 },
}

/// Reads the images that are the children of a node. Requires: the file has at most 0x7fffffff
/// bytes, `total_size` is the length in its header, and the value of each property `data` of an
/// image begins in the file.
pub(crate) fn read_images<'a>(
    alloc: Global,
    file: &'a [u8],
    total_size: u32,
    node: NodeRef<'a, '_>,
) -> Result<Vec<Image<'a>>, Error>
    requires short { length file.now ≤ longest_text }
    requires total { total_size ≡ totalsize file.now }
    requires data { AllByRecursion
        (λ sibling. HasDataInFile file.now sibling.own)
        (siblings (node_of node).children) }
    ensures images { IfOk result (λ images. AllZip
        (IsReadImage file.entry.now)
        (siblings (node_of node.entry).children) (map read_image_of images.items)) }
    ensures failed { IfErr result (IsFaultOrNoMemory
        (IsFirstFault (FitPasses file.entry.now) fit_fault
        (image_checks file.entry.now (node_of node.entry).children))) }
{
    let payload_file = PayloadFile {
        bytes: file,
        external_base: up4(total_size as usize),
    };
    let mut images = Vec::new(alloc);
    let mut next = node.first_child();
    while let Some(child) = next {
        images.push(read_image(payload_file, child)?)?;
        next = child.next_sibling();
    }
    Ok(images)
}

/// Reads an image node. Requires: the value of its property `data`, if it has one, begins in the
/// file.
fn read_image<'a>(file: PayloadFile<'a>, node: NodeRef<'a, '_>) -> Result<Image<'a>, Fault>
    requires { HasDataInFile file.bytes.now (node_of node).own }
    ensures image { IfOk result (λ image. IsReadImage
        file.entry.bytes.now (node_of node.entry) (read_image_of image)) }
    ensures fault { IfErr result (IsFirstFault (FitPasses file.entry.bytes.now) fit_fault
        (source_checks file.entry.bytes.now (source_of (node_of node.entry).own))) }
{
    let (payload, place) = read_payload(file, node)?;
    Ok(Image {
        name: node.name(),
        payload,
        place,
    })
}

/// Reads the payload of an image node, from the first of `data-position`, `data-offset` and `data`
/// that the node has. Requires: the value of its property `data`, if it has one, begins in the
/// file.
fn read_payload<'a>(
    file: PayloadFile<'a>,
    node: NodeRef<'a, '_>,
) -> Result<(Option<&'a [u8]>, Place), Fault>
    requires { HasDataInFile file.bytes.now (node_of node).own }
    ensures payload { IfOk result (λ read. HasPayload file.entry.bytes.now
        (node_of node.entry).own (option_map (λ payload. payload.now) read.0)) }
    ensures place { IfOk result (λ read. read.1
        ≡ place_of file.entry.bytes.now (source_of (node_of node.entry).own)) }
    ensures fault { IfErr result (IsFirstFault (FitPasses file.entry.bytes.now) fit_fault
        (source_checks file.entry.bytes.now (source_of (node_of node.entry).own))) }
{
    let size = node.find_property(b"data-size");
    if let Some(position) = node.find_property(b"data-position") {
        let (begin, payload) = read_region(file.bytes, 0, position, size)?;
        return Ok((Some(payload), Place::DataPosition(begin)));
    }
    if let Some(offset) = node.find_property(b"data-offset") {
        let (begin, payload) = read_region(file.bytes, file.external_base, offset, size)?;
        return Ok((Some(payload), Place::DataOffset(begin)));
    }
    match node.find_property(b"data") {
        Some(data) => Ok((Some(data.value), Place::Data(data.place + 12))),
        None => Ok((None, Place::Absent)),
    }
}

/// Reads a region of a file. One property has its offset, counted from `base`, the other its size.
/// Also returns its offset in the file. Requires: the file has at most 0x7fffffff bytes, and `base`
/// is less than 2^33.
fn read_region<'a>(
    file: &'a [u8],
    base: usize,
    begin: Property<'a>,
    size: Option<Property<'a>>,
) -> Result<(u32, &'a [u8]), Fault>
    requires short { length file.now ≤ longest_text }
    requires base { base < 2 ^ 33 }
    ensures place { IfOk result (λ region.
        region.0 ≡ base + cell_number (file_property_of begin.entry)) }
    ensures payload { IfOk result (λ region. IsSizedRegion file.entry.now base
        (file_property_of begin.entry) (option_map file_property_of size.entry)
        (Some region.1.now)) }
    ensures fault { IfErr result (IsFirstFault (FitPasses file.entry.now) fit_fault
        (region_checks base (file_property_of begin.entry)
        (option_map file_property_of size.entry))) }
{
    let start = base + read_cell(begin)? as usize;
    let Some(size) = size else {
        return refuse(Cause::NoSize, begin.place);
    };
    let end = start + read_cell(size)? as usize;
    match file.get(start..end) {
        Some(payload) => Ok((start as u32, payload)),
        None => refuse(Cause::OutsideFile, begin.place),
    }
}

/// Returns the number in a property whose value is one cell. Fails with BadCell at the property if
/// the value is not one cell.
fn read_cell(property: Property<'_>) -> Result<u32, Fault>
    ensures is_cell { IfOk result (λ _. length property.entry.value.now ≡ 4) }
    ensures number { IfOk result (λ number. number
        ≡ cell_number (file_property_of property.entry)) }
    ensures fault { IfErr result (λ fault. ¬ (length property.entry.value.now ≡ 4)
        × (fault ≡ fit_fault (HasBeginCell (file_property_of property.entry)))) }
{
    match be32_at(property.value, 0) {
        Some(number) if property.value.len() == 4 => Ok(number),
        _ => refuse(Cause::BadCell, property.place),
    }
}

//! The layout of a flattened image tree.

ghost use Rattle.std.specs.Prelude.{◌≡◌, ◌+◌, ◌^◌, ◌<◌, ◌≤◌, ◌++◌, IfOk, OnOk, length, map};
ghost use Rattle.bi_base.specs.Cells.{u32_at};
ghost use Rattle.bi_blob.specs.Blob.{header_length as length_of_header, reservation_block};
ghost use Rattle.bi_blob.specs.Blob.{structure_end as end_of_structure};
ghost use Rattle.bi_fit.specs.Content.{IsHeld, image_model, offset_of_place};
ghost use Rattle.bi_report.specs.ReadChecking.{end_of_read_payloads};
ghost use Rattle.bi_show.specs.Layouts.{IsLayoutIf, blob_regions, region_of_payload};
ghost use Rattle.bi_show.specs.ReadPages.{read_image_names, read_payload_regions};
ghost use Rattle.bi_show.specs.ReadPages.{read_regions};
ghost use Rattle.bi_show.specs.Rows.{cells_of_rows};

use super::{LayoutRegion, RegionKind, layout_rows};
use crate::show::images::offset_of;
use crate::show::tables::Table;
use bi_base::cell_at;
use bi_common::payload_bounds::length_of;
use bi_fit::{Fit, Image};
use bi_report::check::content_end;
use std::alloc::{AllocError, Global};

/// The offsets of cells of the header (Devicetree Specification, 5.2).
const OFF_DT_STRUCT: usize = 8;

const OFF_DT_STRINGS: usize = 12;

const OFF_MEM_RSVMAP: usize = 16;

const VERSION: usize = 20;

const SIZE_DT_STRINGS: usize = 32;

const SIZE_DT_STRUCT: usize = 36;

/// The version whose header ends before the size of the structure block.
const VERSION_WITHOUT_STRUCTURE_SIZE: u32 = 16;

/// The size of a pair of the memory reservation block.
const PAIR_SIZE: u64 = 16;

/// Returns the table of the regions of a flattened image tree and its file, if the layout is
/// wanted, or else no rows. Requires: the tree was read.
pub(in crate::show) fn fit_layout(
    alloc: Global,
    fit: &Fit,
    layout: bool,
) -> Result<Table, AllocError>
    requires held { IsHeld fit.now }
    ensures { IfOk result (λ rows. IsLayoutIf layout (read_image_names fit.now.images)
        (read_regions fit.now) (end_of_read_payloads fit.now.blob.total_size fit.now.images)
        (length fit.now.blob.file) (cells_of_rows rows.items)) }
{
    if !layout {
        return Ok(Vec::new(alloc));
    }
    let mut regions = Vec::new(alloc);
    add_blocks(&mut regions, fit)?;
    add_payloads(&mut regions, fit.images())?;
    let size = fit.blob().file().len() as u64;
    layout_rows(alloc, regions, fit.images(), content_end(fit) as u64, size)
}

/// Appends the regions of the header and the blocks of the blob. Requires: the tree was read.
fn add_blocks(regions: &mut Vec<LayoutRegion>, fit: &Fit) -> Result<(), AllocError>
    requires held { IsHeld fit.now }
    ensures { OnOk result (regions.new.items ≡ regions.old.items
        ++ blob_regions fit.now.blob.file fit.now.blob.reservations) }
{
    let reservations = u64::from(header_cell(fit, OFF_MEM_RSVMAP));
    let structure = u64::from(header_cell(fit, OFF_DT_STRUCT));
    let strings = u64::from(header_cell(fit, OFF_DT_STRINGS));
    let strings_size = u64::from(header_cell(fit, SIZE_DT_STRINGS));
    regions.push(LayoutRegion {
        kind: RegionKind::Header,
        begin: 0,
        end: header_length(fit),
    })?;
    regions.push(LayoutRegion {
        kind: RegionKind::Reservations,
        begin: reservations,
        end: reservations + reservations_size(fit),
    })?;
    regions.push(LayoutRegion {
        kind: RegionKind::Structure,
        begin: structure,
        end: structure_end(fit),
    })?;
    regions.push(LayoutRegion {
        kind: RegionKind::Strings,
        begin: strings,
        end: strings + strings_size,
    })?;
    Ok(())
}

/// Returns the number in a cell of the header. Requires: the tree was read, and the cell ends
/// within the first 36 bytes, so the header of each version has it.
fn header_cell(fit: &Fit, at: usize) -> u32
    requires held { IsHeld fit.now }
    requires each_version { at + 4 ≤ 36 }
    ensures { result ≡ u32_at fit.now.blob.file at }
{
    cell_at(fit.blob().file(), at)
}

/// Returns the length of the header. Requires: the tree was read.
fn header_length(fit: &Fit) -> u64
    requires held { IsHeld fit.now }
    ensures { result ≡ length_of_header fit.now.blob.file }
{
    if header_cell(fit, VERSION) == VERSION_WITHOUT_STRUCTURE_SIZE {
        36
    } else {
        40
    }
}

/// Returns the size of the memory reservation block. Requires: the tree was read.
fn reservations_size(fit: &Fit) -> u64
    requires held { IsHeld fit.now }
    ensures size { result ≡ length (reservation_block fit.now.blob.reservations) }
    ensures small { result < 2 ^ 63 }
{
    PAIR_SIZE * (fit.blob().reservation_count() as u64 + 1)
}

/// Returns the end of the structure block. Requires: the tree was read.
fn structure_end(fit: &Fit) -> u64
    requires held { IsHeld fit.now }
    ensures { result ≡ end_of_structure fit.now.blob.file }
{
    if header_cell(fit, VERSION) == VERSION_WITHOUT_STRUCTURE_SIZE {
        return u64::from(fit.blob().total_size());
    }
    let size = cell_at(fit.blob().file(), SIZE_DT_STRUCT);
    u64::from(header_cell(fit, OFF_DT_STRUCT)) + u64::from(size)
}

/// Appends the regions of the payloads of images.
fn add_payloads(regions: &mut Vec<LayoutRegion>, images: &[Image]) -> Result<(), AllocError>
    ensures { OnOk result (regions.new.items ≡ regions.old.items
        ++ read_payload_regions 0 (map image_model images.now)) }
{
    for (index, image) in images.iter().enumerate() {
        add_payload(regions, index, image)?;
    }
    Ok(())
}

/// Appends the region of the payload of the image at this index, if it has one.
fn add_payload(
    regions: &mut Vec<LayoutRegion>,
    index: usize,
    image: &Image,
) -> Result<(), AllocError>
    ensures { let model = image_model image.now in
        OnOk result (regions.new.items ≡ regions.old.items
        ++ region_of_payload index model.payload (offset_of_place model.place)) }
{
    if let (Some(_), Some(begin)) = (image.payload, offset_of(image)) {
        regions.push(LayoutRegion {
            kind: RegionKind::Payload(index),
            begin,
            end: begin + length_of(image.payload) as u64,
        })?;
    }
    Ok(())
}

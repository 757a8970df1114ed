//! The layout of a file: its regions, by their offsets.

ghost use Rattle.std.specs.Prelude.{◌≡◌, ◌++◌, [], IfOk, OnOk, get_or, map, string_bytes};
ghost use Rattle.bi_fit.specs.Content.{image_model};
ghost use Rattle.bi_show.specs.Layouts.{AreByOffset, IsLayout, region_between};
ghost use Rattle.bi_show.specs.Layouts.{kind_cell as cell_of_kind, region_row as row_of_region};
ghost use Rattle.bi_show.specs.Layouts.{with_free_space};
ghost use Rattle.bi_show.specs.ReadPages.{read_image_names};
ghost use Rattle.bi_show.specs.Rows.{cells_of_rows, cells_of_row};
ghost use Rattle.bi_show.specs.declared.show.layout.RegionKind.TheVariants as kind;

pub(super) mod fit;
pub(super) mod legacy;

use super::cells::{name_cell, number_cell};
use super::tables::{Row, Table, words_row};
use bi_fit::Image;
use std::alloc::{AllocError, Global};

/// A region of a file.
#[derive(Clone, Copy)]
pub(super) struct LayoutRegion {
    pub(super) kind: RegionKind,
    /// The offset of its first byte.
    pub(super) begin: u64,
    /// The offset of the first byte after it.
    pub(super) end: u64,
}

/// What a region is.
#[derive(Clone, Copy)]
pub(super) enum RegionKind {
    Header,
    /// The part table of a legacy image.
    PartTable,
    /// The part at this index.
    Part(usize),
    /// The memory reservation block of a blob.
    Reservations,
    /// The structure block of a blob.
    Structure,
    /// The strings block of a blob.
    Strings,
    /// The payload of the image at this index.
    Payload(usize),
    /// Bytes up to the end of the image that no other region has.
    FreeSpace,
    /// The bytes after the image.
    Trailing,
}

/// Returns the table of these regions of a file of this size, whose image ends at `end`. Payloads
/// are of these images.
pub(super) fn layout_rows(
    alloc: Global,
    regions: Vec<LayoutRegion>,
    images: &[Image],
    end: u64,
    size: u64,
) -> Result<Table, AllocError>
    ensures { IfOk result (λ rows. IsLayout (read_image_names (map image_model images.now))
        regions.items end size (cells_of_rows rows.items)) }
{
    let mut sorted = regions;
    sort_regions(&mut sorted)?;
    let mut rows = vec![in alloc; words_row(alloc, &["region", "offset", "size"])?]?;
    add_regions(alloc, &mut rows, &sorted, images, end)?;
    add_region_between(alloc, &mut rows, images, RegionKind::Trailing, end, size)?;
    Ok(rows)
}

/// Puts regions in the order of their offsets.
fn sort_regions(regions: &mut Vec<LayoutRegion>) -> Result<(), AllocError>
    ensures { OnOk result (AreByOffset regions.old.items regions.new.items) }
{
    regions.sort_by_key(|region| region.begin)?;
    Ok(())
}

/// Appends the rows of regions, and of the free space up to an offset.
fn add_regions(
    alloc: Global,
    rows: &mut Vec<Row>,
    regions: &[LayoutRegion],
    images: &[Image],
    end: u64,
) -> Result<(), AllocError>
    ensures { let names = read_image_names (map image_model images.now) in
        OnOk result (cells_of_rows rows.new.items ≡ cells_of_rows rows.old.items
        ++ map (row_of_region names) (with_free_space 0 end regions.now)) }
{
    let mut covered = 0;
    for region in regions {
        add_region_between(
            alloc,
            rows,
            images,
            RegionKind::FreeSpace,
            covered,
            region.begin,
        )?;
        rows.push(region_row(alloc, region, images)?)?;
        covered = covered.max(region.end);
    }
    add_region_between(alloc, rows, images, RegionKind::FreeSpace, covered, end)?;
    Ok(())
}

/// Appends the row of what is from an offset on up to another one, if there is anything.
fn add_region_between(
    alloc: Global,
    rows: &mut Vec<Row>,
    images: &[Image],
    kind: RegionKind,
    begin: u64,
    end: u64,
) -> Result<(), AllocError>
    ensures { let names = read_image_names (map image_model images.now) in
        OnOk result (cells_of_rows rows.new.items ≡ cells_of_rows rows.old.items
        ++ map (row_of_region names) (region_between kind begin end)) }
{
    if begin < end {
        let region = LayoutRegion { kind, begin, end };
        rows.push(region_row(alloc, &region, images)?)?;
    }
    Ok(())
}

/// Returns the row of a region. A payload is of one of these images.
fn region_row(alloc: Global, region: &LayoutRegion, images: &[Image]) -> Result<Row, AllocError>
    ensures { IfOk result (λ row. cells_of_row row.items
        ≡ row_of_region (read_image_names (map image_model images.now)) region.now) }
{
    let kind = kind_cell(alloc, region.kind, images)?;
    let begin = number_cell(alloc, Some(region.begin))?;
    let size = number_cell(alloc, Some(region.end.saturating_sub(region.begin)))?;
    Ok(vec![in alloc; kind, begin, size]?)
}

/// Returns the cell of what a region is. A payload is of one of these images.
fn kind_cell(alloc: Global, kind: RegionKind, images: &[Image]) -> Result<String, AllocError>
    ensures { IfOk result (λ text. string_bytes text
        ≡ cell_of_kind (read_image_names (map image_model images.now)) kind) }
{
    match kind {
        RegionKind::Header => String::from_str(alloc, "header"),
        RegionKind::PartTable => String::from_str(alloc, "part table"),
        RegionKind::Part(index) => format!(in alloc; "part {index}"),
        RegionKind::Reservations => String::from_str(alloc, "reservations"),
        RegionKind::Structure => String::from_str(alloc, "structure"),
        RegionKind::Strings => String::from_str(alloc, "strings"),
        RegionKind::Payload(index) => image_cell(alloc, images, index),
        RegionKind::FreeSpace => String::from_str(alloc, "free space"),
        RegionKind::Trailing => String::from_str(alloc, "trailing bytes"),
    }
}

/// Returns the cell of the payload of the image at an index.
fn image_cell(alloc: Global, images: &[Image], index: usize) -> Result<String, AllocError>
    ensures { IfOk result (λ text. string_bytes text ≡ cell_of_kind
        (read_image_names (map image_model images.now)) (kind.Payload index)) }
{
    let name = name_cell(alloc, Some(image_name(images, index)))?;
    format!(in alloc; "image {name}")
}

/// Returns the name of the image at an index, or nothing if there is no such image.
fn image_name<'a>(images: &[Image<'a>], index: usize) -> &'a [u8]
    ensures { result.now ≡ get_or (read_image_names (map image_model images.now)) index [] }
{
    match images.get(index) {
        Some(image) => image.name,
        None => b"",
    }
}

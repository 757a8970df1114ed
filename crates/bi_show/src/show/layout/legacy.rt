//! The layout of a legacy image.

ghost use Rattle.std.specs.Prelude.{◌≡◌, ◌+◌, ◌-◌, ◌++◌, [], IfOk, IsTrue, OnOk, length};
ghost use Rattle.bi_legacy.specs.Meaning.{has_part_table as is_part_table_type};
ghost use Rattle.bi_legacy.specs.Parts.{part_table};
ghost use Rattle.bi_legacy.specs.PlacedParts.{part_model, placed_parts};
ghost use Rattle.bi_show.specs.Layouts.{IsLayoutIf, legacy_regions, part_regions};
ghost use Rattle.bi_show.specs.Layouts.{part_table_regions, region_at};
ghost use Rattle.bi_show.specs.Rows.{cells_of_rows};
ghost use Rattle.bi_show.specs.declared.show.layout.RegionKind.TheVariants as kind;

use super::{LayoutRegion, RegionKind, layout_rows};
use crate::show::tables::Table;
use bi_legacy::codes::{IH_TYPE_MULTI, IH_TYPE_SCRIPT};
use bi_legacy::{Legacy, Part};
use std::alloc::{AllocError, Global};

/// Returns the table of the regions of a legacy image and its file, if the layout is wanted, or
/// else no rows.
pub(in crate::show) fn legacy_layout(
    alloc: Global,
    file: &[u8],
    image: &Legacy,
    layout: bool,
) -> Result<Table, AllocError>
    ensures { IfOk result (λ rows. IsLayoutIf layout [] (legacy_regions image.now.image)
        (length file.now - image.now.unused) (length file.now) (cells_of_rows rows.items)) }
{
    if !layout {
        return Ok(Vec::new(alloc));
    }
    let mut regions = vec![in alloc;
        LayoutRegion {
            kind: RegionKind::Header,
            begin: 0,
            end: 64,
        },
    ]?;
    add_part_table(&mut regions, image)?;
    add_parts(&mut regions, image)?;
    let size = file.len() as u64;
    let end = size.saturating_sub(u64::from(image.unused()));
    layout_rows(alloc, regions, &[], end, size)
}

/// Appends the region of the part table, if the image has one.
fn add_part_table(regions: &mut Vec<LayoutRegion>, image: &Legacy) -> Result<(), AllocError>
    ensures { OnOk result (regions.new.items
        ≡ regions.old.items ++ part_table_regions image.now.image) }
{
    if has_part_table(image.fields().image_type) {
        regions.push(LayoutRegion {
            kind: RegionKind::PartTable,
            begin: 64,
            end: part_table_end(image),
        })?;
    }
    Ok(())
}

/// Returns whether the data of an image of this type begins with a part table.
fn has_part_table(image_type: u8) -> bool
    ensures { result ≡ is_part_table_type image_type }
{
    image_type == IH_TYPE_MULTI || image_type == IH_TYPE_SCRIPT
}

/// Returns the end of the part table: the offset of the first part, if there is one. Requires:
/// images of this type have a part table.
fn part_table_end(image: &Legacy) -> u64
    requires has { IsTrue (is_part_table_type image.now.image.image_type) }
    ensures { result ≡ 64 + length (part_table image.now.image.parts) }
{
    match image.part_place(0) {
        Some(place) => u64::from(place),
        None => 68,
    }
}

/// Appends the regions of the parts.
fn add_parts(regions: &mut Vec<LayoutRegion>, image: &Legacy) -> Result<(), AllocError>
    ensures { OnOk result (regions.new.items
        ≡ regions.old.items ++ part_regions 0 (placed_parts image.now.image)) }
{
    regions.reserve(image.part_count())?;
    for (index, part) in image.parts().enumerate() {
        regions.push(part_region(index, &part))?;
    }
    Ok(())
}

/// Returns the region of a part.
fn part_region(index: usize, part: &Part) -> LayoutRegion
    ensures { let model = part_model part.now in
        result ≡ region_at (kind.Part index) model.place (length model.bytes) }
{
    let begin = u64::from(part.place);
    LayoutRegion {
        kind: RegionKind::Part(index),
        begin,
        end: begin + part.bytes.len() as u64,
    }
}

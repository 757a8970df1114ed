//! The page of a legacy image.

ghost use Rattle.std.specs.Prelude.{◌≡◌, IfOk, string_bytes};
ghost use Rattle.bi_legacy.specs.PlacedParts.{part_model};
ghost use Rattle.bi_legacy.specs.Reading.{IsReadLegacy};
ghost use Rattle.bi_show.specs.LegacyPages.{legacy_head, part_row as row_of_part, parts_table};
ghost use Rattle.bi_show.specs.Rows.{cells_of_rows, cells_of_row};
ghost use Rattle.bi_show.specs.ShownFiles.{IsLegacyPage};

use super::cells::{field_cell, number_cell, size_cell, text_cell};
use super::codes::{arch_cell, compression_cell, os_cell, type_cell};
use super::concerns::concern_lines;
use super::dates::time_text;
use super::layout::legacy::legacy_layout;
use super::tables::{Row, Table, page_of, pair_rows, words_row};
use bi_base::Limits;
use bi_common::fields::Field;
use bi_legacy::{Legacy, Part};
use bi_report::check::Concerns;
use std::alloc::{AllocError, Global};

/// Returns the page of a legacy image of a file. Requires: reading the file under the limits gives
/// this image.
pub(super) fn legacy_page(
    alloc: Global,
    file: &[u8],
    image: &Legacy,
    layout: bool,
    limits: Limits,
) -> Result<String, AllocError>
    requires read { IsReadLegacy limits file.now image.now }
    ensures { IfOk result (λ text. IsLegacyPage layout limits file.now (string_bytes text)) }
{
    let time = time_text(alloc, image.fields().time)?;
    let tables = [
        head_rows(alloc, file, image, time)?,
        part_rows(alloc, image)?,
        legacy_layout(alloc, file, image, layout)?,
    ];
    let concerns = concern_lines(alloc, Concerns::of_legacy(file, image))?;
    let page = page_of(alloc, &tables, &concerns)?;
    Ok(page)
}

/// Returns the rows of the header, with this cell of the time. The checksums are good.
fn head_rows(alloc: Global, file: &[u8], image: &Legacy, time: String) -> Result<Table, AllocError>
    ensures { IfOk result (λ rows. cells_of_rows rows.items
        ≡ legacy_head file.now image.now.image (string_bytes time)) }
{
    let fields = image.fields();
    let name = text_cell(alloc, fields.name)?;
    let size = size_cell(alloc, file.len() as u64)?;
    let image_type = type_cell(alloc, fields.image_type)?;
    let os = os_cell(alloc, fields.os)?;
    let arch = arch_cell(alloc, fields.arch)?;
    let compression = compression_cell(alloc, fields.compression)?;
    let load = field_cell(alloc, Field::Hexadecimal(fields.load))?;
    let entry = field_cell(alloc, Field::Hexadecimal(fields.entry))?;
    pair_rows(
        alloc,
        &[
            ("kind", "legacy image"),
            ("name", &name),
            ("date", &time),
            ("size", &size),
            ("type", &image_type),
            ("os", &os),
            ("arch", &arch),
            ("compression", &compression),
            ("load", &load),
            ("entry", &entry),
            ("header crc32", "good"),
            ("data crc32", "good"),
        ],
    )
}

/// Returns the table of the parts.
fn part_rows(alloc: Global, image: &Legacy) -> Result<Table, AllocError>
    ensures { IfOk result (λ rows. cells_of_rows rows.items ≡ parts_table image.now.image) }
{
    let mut rows = vec![in alloc; words_row(alloc, &["part", "size", "offset"])?]?;
    rows.reserve(image.part_count())?;
    for (index, part) in image.parts().enumerate() {
        rows.push(part_row(alloc, index, &part)?)?;
    }
    Ok(rows)
}

/// Returns the row of a part.
fn part_row(alloc: Global, index: usize, part: &Part) -> Result<Row, AllocError>
    ensures { IfOk result (λ row. cells_of_row row.items
        ≡ row_of_part index (part_model part.now)) }
{
    let index = number_cell(alloc, Some(index as u64))?;
    let size = number_cell(alloc, Some(part.bytes.len() as u64))?;
    let offset = number_cell(alloc, Some(u64::from(part.place)))?;
    Ok(vec![in alloc; index, size, offset]?)
}

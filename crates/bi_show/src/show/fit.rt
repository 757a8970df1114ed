//! The page of a flattened image tree.

ghost use Rattle.std.specs.Prelude.{◌≡◌, ◌<◌, IfOk, IfErr, get_or, length, string_bytes};
ghost use Rattle.bi_blob.specs.Blob.{end_pair};
ghost use Rattle.bi_fdt.specs.Content.{root_of};
ghost use Rattle.bi_fit.specs.Content.{AreAtTheirPlaces, tree_of};
ghost use Rattle.bi_fit.specs.Reading.{IsReadFit};
ghost use Rattle.bi_norm.specs.Meaning.{OfFit};
ghost use Rattle.bi_report.specs.ConcernValues.{IsCoverageOf};
ghost use Rattle.bi_report.specs.ReadChecking.{IsReadCheckError};
ghost use Rattle.bi_report.specs.SignedTrees.{IsOverCheckBound};
ghost use Rattle.bi_show.specs.FitPages.{fit_head, reservations_table};
ghost use Rattle.bi_show.specs.FitPages.{reservation_row as row_of_reservation};
ghost use Rattle.bi_show.specs.Rows.{cells_of_rows, cells_of_row};
ghost use Rattle.bi_show.specs.ShownFiles.{IsFitPage};

use super::cells::{
    CellForm, field_cell, name_cell, number_cell, property_cell, size_cell, time_cell,
};
use super::concerns::concern_lines;
use super::configurations::configuration_rows;
use super::images::image_rows;
use super::layout::fit::fit_layout;
use super::signatures::signature_rows;
use super::tables::{Row, Table, page_of, pair_rows, words_row};
use bi_base::{Error, Limits};
use bi_common::fields::Field;
use bi_common::payload_bounds::BoundedFit;
use bi_common::verdict_counts::digests_of_verdicts;
use bi_fdt::Blob;
use bi_fit::Fit;
use bi_hash::RegionDigests;
use bi_report::check::{Concerns, FitCoverage};
use std::alloc::{AllocError, Global};

/// Returns the page of a flattened image tree of a file. Requires: reading the file under the
/// limits gives this tree.
///
/// Errors: TooLarge at the limit, if the payloads are longer, or the paths that the signed nodes
/// must cover; OutOfMemory.
pub(super) fn fit_page(
    alloc: Global,
    file: &[u8],
    fit: &Fit,
    layout: bool,
    limits: Limits,
) -> Result<String, Error>
    requires read { IsReadFit limits file.now fit.now }
    ensures shown { IfOk result (λ text. IsFitPage layout limits file.now (string_bytes text)) }
    ensures failed { IfErr result (IsReadCheckError limits fit.now) }
{
    let bounded = BoundedFit::new(fit, limits)?;
    let coverage = FitCoverage::read(alloc, fit, limits)?;
    let digests = digests_of_verdicts(alloc, bounded)?;
    let page = judged_page(alloc, file, fit, &digests, &coverage, layout, limits)?;
    Ok(page)
}

/// Returns the page of a flattened image tree of a file. Requires: reading the file under the
/// limits gives this tree; its payloads and the paths that its signed nodes must cover are within
/// their bounds; in the file of the digests, the payload of each image is at its place; the
/// coverage is that of the tree.
fn judged_page<'a>(
    alloc: Global,
    file: &[u8],
    fit: &Fit<'a>,
    digests: &RegionDigests<'a>,
    coverage: &FitCoverage<'a>,
    layout: bool,
    limits: Limits,
) -> Result<String, AllocError>
    requires read { IsReadFit limits file.now fit.now }
    requires placed { AreAtTheirPlaces digests.now fit.now.images }
    requires covered { IsCoverageOf fit.now coverage.now }
    requires within { ¬ (IsOverCheckBound limits (OfFit (tree_of fit.now))) }
    ensures { IfOk result (λ text. IsFitPage layout limits file.now (string_bytes text)) }
{
    let time = time_cell(alloc, fit.blob().root().property(b"timestamp"))?;
    let tables = [
        head_rows(alloc, file, fit, time)?,
        reservation_rows(alloc, fit.blob())?,
        image_rows(alloc, fit, digests)?,
        configuration_rows(alloc, fit)?,
        signature_rows(alloc, fit, coverage)?,
        fit_layout(alloc, fit, layout)?,
    ];
    let concerns = concern_lines(alloc, Concerns::of_fit(file, fit, digests, coverage))?;
    let page = page_of(alloc, &tables, &concerns)?;
    Ok(page)
}

/// Returns the rows of the root and the file, with this cell of the time.
fn head_rows(alloc: Global, file: &[u8], fit: &Fit, time: String) -> Result<Table, AllocError>
    ensures { IfOk result (λ rows. cells_of_rows rows.items
        ≡ fit_head file.now (root_of fit.now.blob) (tree_of fit.now) (string_bytes time)) }
{
    let root = fit.blob().root();
    let description = property_cell(alloc, root, "description", CellForm::Value)?;
    let size = size_cell(alloc, file.len() as u64)?;
    let processor = number_cell(alloc, Some(u64::from(fit.blob().boot_cpu())))?;
    let default = name_cell(alloc, fit.default_config())?;
    pair_rows(
        alloc,
        &[
            ("kind", "flattened image tree"),
            ("description", &description),
            ("date", &time),
            ("size", &size),
            ("boot processor", &processor),
            ("default", &default),
        ],
    )
}

/// Returns the table of the memory reservations.
fn reservation_rows(alloc: Global, blob: &Blob) -> Result<Table, AllocError>
    ensures { IfOk result (λ rows. cells_of_rows rows.items
        ≡ reservations_table blob.now.reservations) }
{
    let mut rows = vec![in alloc; words_row(alloc, &["reservation", "size"])?]?;
    for index in 0..blob.reservation_count() {
        rows.push(reservation_row(alloc, blob, index)?)?;
    }
    Ok(rows)
}

/// Returns the row of the memory reservation at this index. Requires: there is one.
fn reservation_row(alloc: Global, blob: &Blob, index: usize) -> Result<Row, AllocError>
    requires { index < length blob.now.reservations }
    ensures { IfOk result (λ row. cells_of_row row.items
        ≡ row_of_reservation (get_or blob.now.reservations index end_pair)) }
{
    let (address, size) = blob.reservation(index).unwrap_or_default();
    let address = field_cell(alloc, Field::Hexadecimal64(address))?;
    let size = field_cell(alloc, Field::Hexadecimal64(size))?;
    Ok(vec![in alloc; address, size]?)
}

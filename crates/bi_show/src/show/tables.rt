//! Tables with aligned columns.

ghost use Rattle.std.specs.Prelude.{◌≡◌, ◌∷◌, ◌++◌, [], IfOk, OnOk, map, replicate};
ghost use Rattle.std.specs.Prelude.{string_bytes};
ghost use Rattle.std.specs.List.{join_with_byte};
ghost use Rattle.bi_show.specs.Pages.{column_widths, concerns_text_of_page, later_cells};
ghost use Rattle.bi_show.specs.Pages.{page_text, row_text, table_text, with_row};
ghost use Rattle.bi_show.specs.Rows.{cells_of_rows, cells_of_row, cells_of_tables};

use std::alloc::{AllocError, Global};
use std::fmt::Write;

/// The cells of a row.
pub(super) type Row = Vec<String>;

/// A table: rows of cells.
pub(super) type Table = Vec<Row>;

/// Returns a row for each word with its cell.
pub(super) fn pair_rows(alloc: Global, pairs: &[(&str, &str)]) -> Result<Table, AllocError>
    ensures { IfOk result (λ rows. cells_of_rows rows.items
        ≡ map (λ pair. pair.0.now ∷ pair.1.now ∷ []) pairs.now) }
{
    let mut rows = Vec::new(alloc);
    for (word, cell) in pairs {
        rows.push(words_row(alloc, &[*word, *cell])?)?;
    }
    Ok(rows)
}

/// Returns a row of words.
pub(super) fn words_row(alloc: Global, words: &[&str]) -> Result<Row, AllocError>
    ensures { IfOk result (λ row. cells_of_row row.items ≡ map (λ word. word.now) words.now) }
{
    let mut row = Vec::new(alloc);
    for word in words {
        row.push(String::from_str(alloc, word)?)?;
    }
    Ok(row)
}

/// Returns the cells of a row as one text, with a space between each two.
pub(super) fn join_cells(alloc: Global, row: &[String]) -> Result<String, AllocError>
    ensures { IfOk result (λ text. string_bytes text
        ≡ join_with_byte 32 (cells_of_row row.now)) }
{
    row.join(alloc, " ")
}

/// Returns a page: its tables, and the lines that `check` gives.
pub(super) fn page_of(alloc: Global, tables: &[Table], concerns: &str) -> Result<String, AllocError>
    ensures { IfOk result (λ text. string_bytes text
        ≡ page_text (cells_of_tables tables.now) concerns.now) }
{
    let mut page = String::new(alloc);
    for table in tables {
        add_table(alloc, &mut page, table)?;
    }
    add_concerns(&mut page, concerns)?;
    Ok(page)
}

/// Appends a table and an empty line, or nothing if the table has only one row.
fn add_table(alloc: Global, page: &mut String, table: &[Row]) -> Result<(), AllocError>
    ensures { OnOk result (string_bytes page.new
        ≡ string_bytes page.old ++ table_text (cells_of_rows table.now)) }
{
    if table.len() < 2 {
        return Ok(());
    }
    let widths = widths_of(alloc, table)?;
    for row in table {
        add_row(page, &widths, row)?;
    }
    page.push('\n')
}

/// Returns the width of each column.
fn widths_of(alloc: Global, table: &[Row]) -> Result<Vec<usize>, AllocError>
    ensures { IfOk result (λ widths. widths.items ≡ column_widths (cells_of_rows table.now)) }
{
    let mut widths = Vec::new(alloc);
    for row in table {
        widen(&mut widths, row)?;
    }
    Ok(widths)
}

/// Makes the widths of columns those of columns that also have the cells of this row.
fn widen(widths: &mut Vec<usize>, row: &[String]) -> Result<(), AllocError>
    ensures { OnOk result (widths.new.items ≡ with_row widths.old.items (cells_of_row row.now)) }
{
    for (column, cell) in row.iter().enumerate() {
        if column < widths.len() {
            widths[column] = widths[column].max(cell.len());
        } else {
            widths.push(cell.len())?;
        }
    }
    Ok(())
}

/// Appends a row, in columns of these widths.
fn add_row(page: &mut String, widths: &[usize], row: &[String]) -> Result<(), AllocError>
    ensures { OnOk result (string_bytes page.new
        ≡ string_bytes page.old ++ row_text widths.now (cells_of_row row.now)) }
{
    if let ([width, widths @ ..], [cell, later @ ..]) = (widths, row) {
        page.push_str(cell)?;
        add_later_cells(page, width.saturating_sub(cell.len()), widths, later)?;
    }
    page.push('\n')
}

/// Appends the cells of a row after its first one, which has left so many spaces of its column.
fn add_later_cells(
    page: &mut String,
    left: usize,
    widths: &[usize],
    cells: &[String],
) -> Result<(), AllocError>
    ensures { OnOk result (string_bytes page.new
        ≡ string_bytes page.old ++ later_cells left widths.now (cells_of_row cells.now)) }
{
    let mut spaces = left;
    for (width, cell) in widths.iter().zip(cells) {
        add_spaces(page, spaces)?;
        page.push_str("  ")?;
        page.push_str(cell)?;
        spaces = width.saturating_sub(cell.len());
    }
    Ok(())
}

/// Appends spaces.
fn add_spaces(page: &mut String, count: usize) -> Result<(), AllocError>
    ensures { OnOk result (string_bytes page.new ≡ string_bytes page.old ++ replicate count 32) }
{
    for _ in 0..count {
        page.push(' ')?;
    }
    Ok(())
}

/// Appends the lines that `check` gives, or that there are none.
fn add_concerns(page: &mut String, concerns: &str) -> Result<(), AllocError>
    ensures { OnOk result (string_bytes page.new
        ≡ string_bytes page.old ++ concerns_text_of_page concerns.now) }
{
    if concerns.is_empty() {
        page.push_str("no concerns\n")
    } else {
        write!(page, "concerns\n{concerns}")
    }
}

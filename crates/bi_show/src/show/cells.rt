//! The cells of a page.

ghost use Rattle.std.specs.Prelude.{◌≡◌, ◌++◌, IfOk, IfSome, IsAscii, Some, codes, option_map};
ghost use Rattle.std.specs.Prelude.{string_bytes};
ghost use Rattle.std.specs.List.{list_all};
ghost use Rattle.bi_fdt.specs.Views.{node_of};
ghost use Rattle.bi_common.specs.Json.{string_text};
ghost use Rattle.bi_common.specs.Lines.{CanPrint, field_text};
ghost use Rattle.bi_common.specs.MadeFields.{field_of};
ghost use Rattle.bi_common.specs.Shown.{shown_or_none, is_plain as is_plain_byte};
ghost use Rattle.bi_common.specs.ValueTexts.{hexadecimal_digits, is_quotable as is_quotable_of};
ghost use Rattle.bi_common.specs.ValueTexts.{is_printable as is_printable_byte};
ghost use Rattle.bi_show.specs.FitPages.{value_in};
ghost use Rattle.bi_show.specs.PageCells.{IsTimeCell, is_word as is_word_of};
ghost use Rattle.bi_show.specs.PageCells.{address_cell as cell_of_address};
ghost use Rattle.bi_show.specs.PageCells.{number_cell as cell_of_number};
ghost use Rattle.bi_show.specs.PageCells.{property_cell as cell_of_property};
ghost use Rattle.bi_show.specs.PageCells.{size_cell as cell_of_size};
ghost use Rattle.bi_show.specs.PageCells.{text_cell as cell_of_text};
ghost use Rattle.bi_show.specs.PageCells.{value_cell as cell_of_value};

mod hashes;
mod names;

use super::dates::time_text;
use bi_base::{MemoryPen, are_bytes, cell_at};
use bi_common::fields::{Field, is_printable, put_field};
use bi_common::json_writer::{JsonValue, JsonWriter, put_value};
use bi_common::shown::{is_plain, shown_name};
use bi_fdt::NodeRef;
pub(super) use hashes::hashes_cell;
use names::names_cell;
use std::alloc::{AllocError, Global};

/// What the value of a property is.
#[derive(Clone, Copy)]
pub(super) enum CellForm {
    /// A text, or anything else.
    Value,
    /// An address, of one or two cells.
    Address,
    /// A list of names.
    Names,
}

/// Returns the cell of a number, which may not be there.
pub(super) fn number_cell(alloc: Global, number: Option<u64>) -> Result<String, AllocError>
    ensures { IfOk result (λ text. string_bytes text ≡ cell_of_number number) }
{
    match number {
        Some(number) => format!(in alloc; "{number}"),
        None => String::from_str(alloc, "-"),
    }
}

/// Returns the cell of a number of bytes.
pub(super) fn size_cell(alloc: Global, size: u64) -> Result<String, AllocError>
    ensures { IfOk result (λ text. string_bytes text ≡ cell_of_size size) }
{
    format!(in alloc; "{size} bytes")
}

/// Returns the cell of a text.
pub(super) fn text_cell(alloc: Global, text: &[u8]) -> Result<String, AllocError>
    ensures { IfOk result (λ shown. string_bytes shown ≡ cell_of_text text.now) }
{
    if is_word(text) || !is_quotable(text) {
        shown_name(alloc, text)
    } else {
        quoted_cell(alloc, text)
    }
}

/// Returns a text in quotes, as a string of JSON.
fn quoted_cell(alloc: Global, text: &[u8]) -> Result<String, AllocError>
    ensures { IfOk result (λ shown. string_bytes shown ≡ string_text text.now) }
{
    let mut pen = MemoryPen::new(alloc);
    put_value(
        JsonValue::String(Field::Text(text)),
        &mut JsonWriter::new(&mut pen),
    );
    text_of(pen)
}

/// Returns the cell of the property of this name of a node.
pub(super) fn property_cell(
    alloc: Global,
    node: NodeRef,
    name: &str,
    form: CellForm,
) -> Result<String, AllocError>
    ensures { IfOk result (λ text. string_bytes text
        ≡ cell_of_property form (value_in (node_of node.entry).own name.now)) }
{
    let Some(value) = node.property(name.as_bytes()) else {
        return String::from_str(alloc, "-");
    };
    match form {
        CellForm::Value => value_cell(alloc, value),
        CellForm::Address => address_cell(alloc, value),
        CellForm::Names => names_cell(alloc, value),
    }
}

/// Returns the cell of a time, which may not be there: of the seconds since 1970 in one cell, or of
/// any other value.
pub(super) fn time_cell(alloc: Global, value: Option<&[u8]>) -> Result<String, AllocError>
    ensures { IfOk result (λ text. IsTimeCell (option_map (λ value. value.now) value.entry)
        (string_bytes text)) }
{
    let Some(value) = value else {
        return String::from_str(alloc, "-");
    };
    if value.len() == 4 {
        time_text(alloc, cell_at(value, 0))
    } else {
        value_cell(alloc, value)
    }
}

/// Returns the cell of a value: a word without its zero, two quotes if it is empty, or else as a
/// description shows it.
fn value_cell(alloc: Global, value: &[u8]) -> Result<String, AllocError>
    ensures { IfOk result (λ text. string_bytes text ≡ cell_of_value value.now) }
{
    match value {
        [] => String::from_str(alloc, "\"\""),
        [text @ .., last] => {
            if *last == 0 && is_word(text) {
                shown_name(alloc, text)
            } else {
                are_bytes(value);
                field_cell(alloc, Field::Value(value))
            }
        }
    }
}

/// Returns the cell of a value that is an address of one or two cells, or any other value.
fn address_cell(alloc: Global, value: &[u8]) -> Result<String, AllocError>
    ensures { IfOk result (λ text. string_bytes text ≡ cell_of_address value.now) }
{
    if value.len() == 4 || value.len() == 8 {
        digits_cell(alloc, value)
    } else {
        value_cell(alloc, value)
    }
}

/// Returns `0x` and the hexadecimal digits of these bytes.
fn digits_cell(alloc: Global, bytes: &[u8]) -> Result<String, AllocError>
    ensures { IfOk result (λ text. string_bytes text
        ≡ codes "0x" ++ hexadecimal_digits bytes.now) }
{
    are_bytes(bytes);
    let digits = field_cell(alloc, Field::Digits(bytes))?;
    format!(in alloc; "0x{digits}")
}

/// Returns the cell of a name, which may not be there.
pub(super) fn name_cell(alloc: Global, name: Option<&[u8]>) -> Result<String, AllocError>
    ensures { IfOk result (λ text. string_bytes text
        ≡ shown_or_none (option_map (λ name. name.now) name.entry)) }
{
    match name {
        Some(name) => shown_name(alloc, name),
        None => String::from_str(alloc, "-"),
    }
}

/// Returns whether a text is a word: it begins with a letter, and a name shows each byte of it
/// unchanged.
fn is_word(text: &[u8]) -> bool
    ensures { result ≡ is_word_of text.now }
{
    match text {
        [first, later @ ..] => first.is_ascii_alphabetic() && are_plain(later),
        [] => false,
    }
}

/// Returns whether a name shows each of these bytes unchanged.
fn are_plain(bytes: &[u8]) -> bool
    ensures { result ≡ list_all is_plain_byte bytes.now }
{
    bytes.iter().all(|byte| is_plain(*byte))
}

/// Returns whether a text has a byte, and each of its bytes is printable.
fn is_quotable(text: &[u8]) -> bool
    ensures { result ≡ is_quotable_of text.now }
{
    !text.is_empty() && are_printable(text)
}

/// Returns whether each of these bytes is printable.
fn are_printable(bytes: &[u8]) -> bool
    ensures { result ≡ list_all is_printable_byte bytes.now }
{
    bytes.iter().all(|byte| is_printable(*byte))
}

/// Returns the text of a field. Requires: the field can be printed.
pub(super) fn field_cell(alloc: Global, field: Field) -> Result<String, AllocError>
    requires { CanPrint (field_of field) }
    ensures { IfOk result (λ text. string_bytes text ≡ field_text (field_of field.entry)) }
{
    let mut pen = MemoryPen::new(alloc);
    put_field(field, &mut pen);
    text_of(pen)
}

/// Returns the text that was put to a pen. Fails if memory has run out. Requires: it is ASCII.
fn text_of(pen: MemoryPen) -> Result<String, AllocError>
    requires { IfSome pen IsAscii }
    ensures { IfOk result (λ text. pen ≡ Some (string_bytes text)) }
{
    match pen.into_vec() {
        Ok(bytes) => Ok(string_of(bytes)),
        Err(_) => Err(AllocError),
    }
}

/// Returns these bytes as a text. Requires: they are ASCII.
pub(super) fn string_of(bytes: Vec<u8>) -> String
    requires { IsAscii bytes.items }
    ensures { string_bytes result ≡ bytes.items }
{
    match String::from_utf8(bytes) {
        Ok(text) => text,
        Err(_) => unreachable!(),
    }
}

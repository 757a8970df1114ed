//! Words of lines, put to a pen.

ghost use Rattle.std.specs.Prelude.{◌≡◌, ◌<◌, ◌≤◌, ◌∷◌, flat_map, length, true};
ghost use Rattle.std.specs.Fmt.{decimal, digit_glyph};
ghost use Rattle.std.specs.List.{list_all};
ghost use Rattle.std.specs.Option.{option_map};
ghost use Rattle.bi_base.specs.Cells.{cell, cell8};
ghost use Rattle.bi_common.specs.Shown.{path, hexadecimal_64, hexadecimal};
ghost use Rattle.bi_common.specs.Shown.{is_plain as is_plain_byte, shown_byte, shown_text};
ghost use Rattle.bi_common.specs.ValueTexts.{hexadecimal_digits};
ghost use Rattle.bi_common.specs.Lines.{digits_or_dash, name_or_dash, field_text};
ghost use Rattle.bi_common.specs.MadeFields.{bytes_of_names, field_of};

mod values;

use crate::shown::is_plain;
use bi_base::Pen;
use itoa::Buffer;
use values::put_value;
pub use values::{are_quotable_texts, is_printable, put_bytes};

/// A field of a line: a word, or the words for a value.
#[derive(Clone, Copy)]
pub enum Field<'a, 'b> {
    /// This text.
    Text(&'a [u8]),
    /// A name, as it is printed.
    Shown(&'a [u8]),
    /// A number in decimal digits.
    Decimal(u64),
    /// A number as `0x` and eight hexadecimal digits.
    Hexadecimal(u32),
    /// A number as `0x` and sixteen hexadecimal digits.
    Hexadecimal64(u64),
    /// A digest, as two hexadecimal digits for each byte.
    Sha256([u8; 32]),
    /// Bytes, as two hexadecimal digits for each.
    Digits(&'a [u8]),
    /// The path of a node, by the names of the nodes on the way to it.
    Path(&'b [&'a [u8]]),
    /// The value of a property: no word if it is empty, and one or more if not.
    Value(&'a [u8]),
}

/// Returns the field for a name that may not be there: `-` if it is not.
pub fn name_or_none<'a>(name: Option<&'a [u8]>) -> Field<'a, 'a>
    ensures { field_of result ≡ name_or_dash (option_map (λ name. name.now) name.entry) }
{
    match name {
        Some(name) => Field::Shown(name),
        None => Field::Text(b"-"),
    }
}

/// Returns the field for the digits of a value: `-` if it is empty or not there.
pub fn digits_or_none<'a>(value: Option<&'a [u8]>) -> Field<'a, 'a>
    ensures { field_of result ≡ digits_or_dash (option_map (λ value. value.now) value.entry) }
{
    match value {
        None | Some([]) => Field::Text(b"-"),
        Some(value) => Field::Digits(value),
    }
}

/// Puts a word.
pub fn put_field<P: Pen>(word: Field, pen: &mut P)
    ensures { P.puts pen.old (field_text (field_of word.entry)) pen.new }
{
    match word {
        Field::Text(text) => pen.put(text),
        Field::Shown(name) => put_shown(name, pen),
        Field::Decimal(number) => put_decimal(number, pen),
        Field::Hexadecimal(number) => put_hexadecimal(number, pen),
        Field::Hexadecimal64(number) => put_hexadecimal_64(number, pen),
        Field::Sha256(digest) => put_digits(&digest, pen),
        Field::Digits(bytes) => put_digits(bytes, pen),
        Field::Path(names) => put_path(names, pen),
        Field::Value(value) => put_value(value, pen),
    }
}

/// The greatest number of bytes whose digits are made at once.
const PIECE: usize = 512;

/// Puts a number in decimal digits.
pub fn put_decimal<P: Pen>(number: u64, pen: &mut P)
    ensures { P.puts pen.old (decimal number) pen.new }
{
    let mut buffer = Buffer::new();
    pen.put(buffer.format(number).as_bytes());
}

/// Puts a number of 32 bits as `0x` and eight hexadecimal digits.
fn put_hexadecimal<P: Pen>(number: u32, pen: &mut P)
    ensures { P.puts pen.old (hexadecimal number) pen.new }
{
    let bytes = bytes_of_cell(number);
    pen.put(b"0x");
    put_digits(&bytes, pen);
}

/// Returns the four bytes of a number, the highest first.
#[tactic(auto, unfolding(bi_base::specs::Cells::cell))]
fn bytes_of_cell(number: u32) -> [u8; 4]
    ensures { result ≡ cell number }
{
    number.to_be_bytes()
}

/// Puts a number of 64 bits as `0x` and sixteen hexadecimal digits.
pub(crate) fn put_hexadecimal_64<P: Pen>(number: u64, pen: &mut P)
    ensures { P.puts pen.old (hexadecimal_64 number) pen.new }
{
    let bytes = bytes_of_two_cells(number);
    pen.put(b"0x");
    put_digits(&bytes, pen);
}

/// Returns the eight bytes of a number, the highest first.
#[tactic(auto, unfolding(bi_base::specs::Cells::cell8))]
fn bytes_of_two_cells(number: u64) -> [u8; 8]
    ensures { result ≡ cell8 number }
{
    number.to_be_bytes()
}

/// Puts two hexadecimal digits for each byte.
pub(crate) fn put_digits<P: Pen>(bytes: &[u8], pen: &mut P)
    ensures { P.puts pen.old (hexadecimal_digits bytes.now) pen.new }
{
    for piece in bytes.chunks(PIECE) {
        put_digits_of_piece(piece, pen);
    }
}

/// Puts two hexadecimal digits for each byte of a piece. Requires: the piece has at most 512 bytes.
fn put_digits_of_piece<P: Pen>(piece: &[u8], pen: &mut P)
    requires { length piece.now ≤ 512 }
    ensures { P.puts pen.old (hexadecimal_digits piece.now) pen.new }
{
    let mut buffer = [0; 2 * PIECE];
    let digits = &mut buffer[..2 * piece.len()];
    if hex::encode_to_slice(piece, digits).is_err() {
        unreachable!();
    }
    pen.put(digits);
}

/// Puts the path of a node, by the names of the nodes on the way to it.
fn put_path<P: Pen>(names: &[&[u8]], pen: &mut P)
    ensures { P.puts pen.old (path (bytes_of_names names.now)) pen.new }
{
    match names {
        [] => pen.put(b"/"),
        [_, ..] => put_steps(names, pen),
    }
}

/// Puts the names of a path, each after a slash.
fn put_steps<P: Pen>(names: &[&[u8]], pen: &mut P)
    ensures { P.puts pen.old
        (flat_map (λ name. 47 ∷ shown_text name.now) names.now) pen.new }
{
    for name in names {
        put_step(name, pen);
    }
}

/// Puts a name of a path, after a slash.
fn put_step<P: Pen>(name: &[u8], pen: &mut P)
    ensures { P.puts pen.old (47 ∷ shown_text name.now) pen.new }
{
    pen.put(b"/");
    put_shown(name, pen);
}

/// Puts a name as it is printed.
fn put_shown<P: Pen>(name: &[u8], pen: &mut P)
    ensures { P.puts pen.old (shown_text name.now) pen.new }
{
    match name {
        [] => pen.put(b"-"),
        [b'-'] => pen.put(b"%2D"),
        _ => put_shown_bytes(name, pen),
    }
}

/// Puts the bytes of a name as they are printed.
fn put_shown_bytes<P: Pen>(name: &[u8], pen: &mut P)
    ensures { P.puts pen.old (flat_map shown_byte name.now) pen.new }
{
    if are_plain(name) {
        pen.put(name);
    } else {
        put_each_shown(name, pen);
    }
}

/// Returns whether each of these bytes is printed unchanged.
fn are_plain(bytes: &[u8]) -> bool
    ensures { result ≡ list_all is_plain_byte bytes.now }
{
    bytes.iter().all(|byte| is_plain(*byte))
}

/// Puts the bytes of a name as they are printed, one by one.
fn put_each_shown<P: Pen>(name: &[u8], pen: &mut P)
    ensures { P.puts pen.old (flat_map shown_byte name.now) pen.new }
{
    for byte in name {
        put_shown_byte(*byte, pen);
    }
}

/// Puts a byte of a name as it is printed.
fn put_shown_byte<P: Pen>(byte: u8, pen: &mut P)
    ensures { P.puts pen.old (shown_byte byte) pen.new }
{
    if is_plain(byte) {
        pen.put(&[byte]);
    } else {
        pen.put(&[b'%', upper_digit(byte / 16), upper_digit(byte % 16)]);
    }
}

/// Returns a hexadecimal digit in upper case. Requires: the value is less than 16.
pub(crate) fn upper_digit(value: u8) -> u8
    requires { value < 16 }
    ensures { result ≡ digit_glyph true value }
{
    if value < 10 {
        b'0' + value
    } else {
        b'A' + (value - 10)
    }
}

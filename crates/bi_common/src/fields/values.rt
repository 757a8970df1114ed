//! The words for the value of a property.

ghost use Rattle.std.specs.Prelude.{◌≡◌, ◌++◌, [], codes, false, flat_map};
ghost use Rattle.std.specs.List.{join_with_byte, list_all};
ghost use Rattle.bi_common.specs.DescribedValues.{end_texts, quoted_byte};
ghost use Rattle.bi_common.specs.DescribedValues.{is_unescaped as is_unescaped_byte};
ghost use Rattle.bi_common.specs.DescribedValues.{quoted_texts};
ghost use Rattle.bi_common.specs.ValueTexts.{value_words, hexadecimal_digits};
ghost use Rattle.bi_common.specs.ValueTexts.{are_quotable_texts as are_texts};
ghost use Rattle.bi_common.specs.ValueTexts.{is_printable as is_printable_byte};

use super::put_digits;
use bi_base::Pen;

/// Puts the words for the value of a property, with a space between each two.
pub(super) fn put_value<P: Pen>(value: &[u8], pen: &mut P)
    ensures { P.puts pen.old (join_with_byte 32 (value_words value.now)) pen.new }
{
    match value {
        [] => {}
        [texts @ .., _] => {
            if are_quotable_texts(value) {
                put_texts(texts, pen);
            } else {
                put_bytes(value, pen);
            }
        }
    }
}

/// Returns whether a value is one or more texts that are printed in quotes, each NUL-terminated.
pub fn are_quotable_texts(value: &[u8]) -> bool
    ensures { result ≡ are_texts value.now }
{
    value.ends_with(b"\0") && have_texts(value)
}

/// Returns whether each text of a value is printed in quotes, and a zero follows the last.
fn have_texts(value: &[u8]) -> bool
    ensures { result ≡ end_texts false value.now }
{
    let mut has_begun = false;
    for &byte in value {
        if byte == 0 {
            if !has_begun {
                return false;
            }
            has_begun = false;
        } else if is_printable(byte) {
            has_begun = true;
        } else {
            return false;
        }
    }
    !has_begun
}

/// Returns whether a byte is a printable ASCII character, the space included.
pub fn is_printable(byte: u8) -> bool
    ensures { result ≡ is_printable_byte byte }
{
    (0x20..=0x7e).contains(&byte)
}

/// Puts texts in quotes, which have zeros between them.
fn put_texts<P: Pen>(texts: &[u8], pen: &mut P)
    ensures { P.puts pen.old (quoted_texts texts.now) pen.new }
{
    pen.put(b"\"");
    put_quoted_bytes(texts, pen);
    pen.put(b"\"");
}

/// Puts the bytes of texts in quotes.
fn put_quoted_bytes<P: Pen>(texts: &[u8], pen: &mut P)
    ensures { P.puts pen.old (flat_map quoted_byte texts.now) pen.new }
{
    if are_unescaped(texts) {
        pen.put(texts);
    } else {
        put_each_quoted(texts, pen);
    }
}

/// Returns whether each of these bytes is put in quotes unchanged.
fn are_unescaped(texts: &[u8]) -> bool
    ensures { result ≡ list_all is_unescaped_byte texts.now }
{
    texts.iter().all(|byte| is_unescaped(*byte))
}

/// Returns whether a byte is put in quotes unchanged: it is neither a zero, a `"` nor a backslash.
fn is_unescaped(byte: u8) -> bool
    ensures { result ≡ is_unescaped_byte byte }
{
    byte != 0 && byte != b'"' && byte != b'\\'
}

/// Puts the bytes of texts in quotes, one by one.
fn put_each_quoted<P: Pen>(texts: &[u8], pen: &mut P)
    ensures { P.puts pen.old (flat_map quoted_byte texts.now) pen.new }
{
    for byte in texts {
        put_quoted_byte(*byte, pen);
    }
}

/// Puts a byte of texts in quotes. A zero ends a text and begins the next one.
fn put_quoted_byte<P: Pen>(byte: u8, pen: &mut P)
    ensures { P.puts pen.old (quoted_byte byte) pen.new }
{
    match byte {
        0 => pen.put(b"\" \""),
        b'"' | b'\\' => pen.put(&[b'\\', byte]),
        _ => pen.put(&[byte]),
    }
}

/// Puts a value as `0x` and its digits.
pub fn put_bytes<P: Pen>(value: &[u8], pen: &mut P)
    ensures { P.puts pen.old (codes "0x" ++ hexadecimal_digits value.now) pen.new }
{
    pen.put(b"0x");
    put_digits(value, pen);
}

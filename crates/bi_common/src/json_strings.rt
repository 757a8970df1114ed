//! Strings of JSON (RFC 8259, 7).

ghost use Rattle.std.specs.Prelude.{◌≡◌, flat_map};
ghost use Rattle.std.specs.List.{list_all};
ghost use Rattle.bi_common.specs.Json.{is_plain_byte, string_byte, string_text};
ghost use Rattle.bi_common.specs.Lines.{field_text};
ghost use Rattle.bi_common.specs.MadeFields.{field_of};

use crate::fields::{Field, is_printable, put_field, upper_digit};
use bi_base::Pen;

/// Puts a string of a word, as it is printed in a line.
pub(crate) fn put_string<P: Pen>(word: Field, pen: &mut P)
    ensures { P.puts pen.old (string_text (field_text (field_of word.entry))) pen.new }
{
    pen.put(b"\"");
    put_field(word, &mut StringPen::new(pen));
    pen.put(b"\"");
}

/// A pen that puts bytes to another one as the bytes of a string.
#[derive(Drop)]
struct StringPen<'a, P> {
    pen: &'a mut P,
}

impl<'a, P: Pen> StringPen<'a, P> {
    /// Returns a pen over this one.
    fn new(pen: &'a mut P) -> StringPen<'a, P>
        ensures same_borrow { result.pen.ghost_name ≡ pen.entry.ghost_name }
        ensures same_pen { result.pen.now ≡ pen.old }
    {
        StringPen { pen }
    }
}

impl<'a, P: Pen> Pen for StringPen<'a, P> {
    ghost use Rattle.bi_common.specs.StringPens.{StringPuts, string_puts_nothing};
    ghost use Rattle.bi_common.specs.StringPens.{string_puts_in_turn};

    ghost puts = { StringPuts P.puts };

    fn put(&mut self, bytes: &[u8]) {
        if are_plain(bytes) {
            self.pen.put(bytes);
        } else {
            put_string_bytes(bytes, self.pen);
        }
    }

    fn has_failed(&self) -> bool {
        self.pen.has_failed()
    }

    ghost puts_nothing = { string_puts_nothing P.puts P.puts_nothing };

    ghost puts_in_turn = { string_puts_in_turn P.puts P.puts_in_turn };
}

/// Returns whether a string can hold each of these bytes without an escape.
fn are_plain(bytes: &[u8]) -> bool
    ensures { result ≡ list_all is_plain_byte bytes.now }
{
    bytes.iter().all(|byte| is_plain(*byte))
}

/// Returns whether a string can hold a byte without an escape: it is printable, and neither `"` nor
/// a backslash.
fn is_plain(byte: u8) -> bool
    ensures { result ≡ is_plain_byte byte }
{
    is_printable(byte) && byte != b'"' && byte != b'\\'
}

/// Puts bytes of a string.
fn put_string_bytes<P: Pen>(bytes: &[u8], pen: &mut P)
    ensures { P.puts pen.old (flat_map string_byte bytes.now) pen.new }
{
    for byte in bytes {
        put_string_byte(*byte, pen);
    }
}

/// Puts a byte of a string: itself, or its escape.
fn put_string_byte<P: Pen>(byte: u8, pen: &mut P)
    ensures { P.puts pen.old (string_byte byte) pen.new }
{
    if is_plain(byte) {
        pen.put(&[byte]);
    } else if byte == b'"' || byte == b'\\' {
        pen.put(&[b'\\', byte]);
    } else {
        let (high, low) = (upper_digit(byte / 16), upper_digit(byte % 16));
        pen.put(&[b'\\', b'u', b'0', b'0', high, low]);
    }
}

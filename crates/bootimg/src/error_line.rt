//! A line for standard error, which is written without memory.

ghost use Rattle.std.specs.Prelude.{◌≡◌, ◌%◌, [], false, true, flat_map};
ghost use Rattle.std.specs.Fmt.{decimal, digit_glyph};
ghost use Rattle.bi_common.specs.Shown.{shown_byte, shown_text};
ghost use Rattle.bootimg.specs.ErrorLines.{Extends, SendsMore, line_of};

use arrayvec::ArrayVec;
use bi_base::{TracedWrite, write_all};
use itoa::Buffer;

/// How many bytes a line holds back at most.
const BUFFER_SIZE: usize = 1024;

/// A line that is put together from pieces, and written to a writer whose calls are traced, and
/// which it borrows. It holds up to 1 KiB of them back, so a line that is not longer is one write.
/// It allocates nothing. Once a write fails, nothing more is written.
#[derive(Drop)]
pub struct ErrorLine<'a, T> {
    target: &'a mut T,
    held: ArrayVec<u8, BUFFER_SIZE>,
    has_failed: bool,
}

impl<'a, T: TracedWrite> ErrorLine<'a, T> {
    /// Returns a line for this writer, without bytes yet.
    pub fn new(target: &'a mut T) -> ErrorLine<'a, T>
        ensures same_borrow { (line_of T.trace result).borrow ≡ target.entry.ghost_name }
        ensures same_trace { (line_of T.trace result).trace ≡ T.trace target.old }
        ensures none_held { (line_of T.trace result).held ≡ [] }
        ensures not_failed { (line_of T.trace result).has_failed ≡ false }
    {
        ErrorLine {
            target,
            held: ArrayVec::new(),
            has_failed: false,
        }
    }

    /// Appends these bytes.
    pub fn put(&mut self, bytes: &[u8])
        ensures { Extends (line_of T.trace self.old) bytes.now (line_of T.trace self.new) }
    {
        if self.held.try_extend_from_slice(bytes).is_ok() {
            return;
        }
        self.write_held();
        if self.held.try_extend_from_slice(bytes).is_err() {
            self.has_failed = send(self.target, self.has_failed, bytes);
        }
    }

    /// Writes what is held back.
    pub fn write_held(&mut self)
        ensures extends { Extends (line_of T.trace self.old) [] (line_of T.trace self.new) }
        ensures none_held { (line_of T.trace self.new).held ≡ [] }
    {
        self.has_failed = send(self.target, self.has_failed, self.held.as_slice());
        self.held.clear();
    }

    /// Appends a number in decimal digits.
    pub fn put_number(&mut self, number: usize)
        ensures { Extends (line_of T.trace self.old) (decimal number) (line_of T.trace self.new) }
    {
        let mut buffer = Buffer::new();
        self.put(buffer.format(number).as_bytes());
    }

    /// Appends a name as it is printed.
    pub fn put_name(&mut self, name: &[u8])
        ensures { Extends (line_of T.trace self.old) (shown_text name.now)
            (line_of T.trace self.new) }
    {
        match name {
            [] => self.put(b"-"),
            [b'-'] => self.put(b"%2D"),
            _ => self.put_name_bytes(name),
        }
    }

    /// Appends the bytes of a name as they are printed.
    pub fn put_name_bytes(&mut self, name: &[u8])
        ensures { Extends (line_of T.trace self.old) (flat_map shown_byte name.now)
            (line_of T.trace self.new) }
    {
        for byte in name {
            self.put_name_byte(*byte);
        }
    }

    /// Appends a byte of a name as it is printed.
    fn put_name_byte(&mut self, byte: u8)
        ensures { Extends (line_of T.trace self.old) (shown_byte byte) (line_of T.trace self.new) }
    {
        if byte.is_ascii_graphic() && byte != b'%' {
            self.put(&[byte]);
        } else {
            self.put(&[b'%', upper_digit(byte / 16), upper_digit(byte % 16)]);
        }
    }
}

/// Writes these bytes, unless a write has failed before. Returns whether one has failed.
fn send<T: TracedWrite>(target: &mut T, had_failed: bool, bytes: &[u8]) -> bool
    ensures { SendsMore had_failed (T.trace target.old) bytes.now result (T.trace target.new) }
{
    had_failed || write_all(target, bytes).is_err()
}

/// Returns a hexadecimal digit in upper case, of the remainder modulo 16.
fn upper_digit(value: u8) -> u8
    ensures { result ≡ digit_glyph true (value % 16) }
{
    let digit = value % 16;
    if digit < 10 {
        b'0' + digit
    } else {
        b'A' + (digit - 10)
    }
}

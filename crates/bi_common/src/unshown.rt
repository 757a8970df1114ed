//! Names that are read back from how they are printed.

ghost use Rattle.std.specs.Prelude.{◌≡◌, ◌≢◌, ◌<◌, ◌++◌, ℕ, List, true, false, length};
ghost use Rattle.std.specs.Prelude.{IfOk, IfErr, IfSome, IfNone};
ghost use Rattle.std.specs.Fmt.{digit_glyph};
ghost use Rattle.std.specs.List.{flat_map};
ghost use Rattle.bi_base.specs.declared.fault.Error.TheVariants.{OutOfMemory};
ghost use Rattle.bi_common.specs.Shown.{digits_of_byte, shown_byte, is_plain as is_plain_byte};
ghost use Rattle.bi_common.specs.Unshown.{IsNameShownAs, IsShownOfNoBytes, IsNoShownBytes};

use crate::shown::is_plain;
use bi_base::{Error, are_bytes};
use std::alloc::{AllocError, Global};

/// Returns the name that `shown_name` prints as this text. There is at most one. Returns None if no
/// name is printed so: for example for the empty text, for `%41`, since `A` is printed unchanged,
/// and for `%2d`, since its digit is in lower case.
///
/// Fails only with OutOfMemory.
pub fn name_shown_as(alloc: Global, text: &[u8]) -> Result<Option<Vec<u8>>, Error>
    ensures some { IfOk result (λ found. IfSome found (λ name.
        IsNameShownAs text.now name.items)) }
    ensures none { IfOk result (λ found. IfNone found (IsShownOfNoBytes text.now)) }
    ensures failed { IfErr result (λ error. error ≡ OutOfMemory) }
{
    if text.is_empty() {
        return Ok(None);
    }
    if text == b"-".as_slice() {
        return Ok(Some(Vec::new(alloc)));
    }
    if text == b"%2D".as_slice() {
        return Ok(Some(Vec::from_slice(alloc, b"-".as_slice())?));
    }
    let Some(name) = bytes_shown_as(alloc, text)? else {
        return Ok(None);
    };
    are_bytes(&name);
    Ok(Some(name))
}

/// Returns the bytes that an escaped name encodes. Returns None if the text encodes no bytes. Fails
/// if memory runs out.
fn bytes_shown_as(alloc: Global, text: &[u8]) -> Result<Option<Vec<u8>>, AllocError>
    ensures some { IfOk result (λ found. IfSome found (λ name.
        flat_map shown_byte name.items ≡ text.now)) }
    ensures none { IfOk result (λ found. IfNone found (IsNoShownBytes text.now)) }
{
    let mut name = Vec::new(alloc);
    let mut rest = text;
    while let Some((byte, later)) = first_byte(rest) {
        name.push(byte)?;
        rest = later;
    }
    Ok(if rest.is_empty() { Some(name) } else { None })
}

/// Returns the byte that the beginning of an escaped name encodes, and the rest of the text.
/// Returns None if the text begins with no such byte.
fn first_byte(text: &[u8]) -> Option<(u8, &[u8])>
    ensures some { IfSome result (λ first. text.now ≡ shown_byte first.0 ++ first.1.now) }
    ensures shorter { IfSome result (λ first. length first.1.now < length text.now) }
    ensures none { IfNone result ((byte : ℕ) (later : List ℕ) → byte < 256
        → text.now ≢ shown_byte byte ++ later) }
{
    let [first, rest @ ..] = text else {
        return None;
    };
    if *first == b'%' {
        return escaped_byte(rest);
    }
    if is_plain(*first) {
        Some((*first, rest))
    } else {
        None
    }
}

/// Returns the byte of the two hexadecimal digits in upper case that the text after a percent sign
/// begins with, and the rest of the text. Returns None if there are no such digits, or if the byte
/// is printed unchanged.
fn escaped_byte(text: &[u8]) -> Option<(u8, &[u8])>
    ensures some { IfSome result (λ first. text.now ≡ digits_of_byte true first.0 ++ first.1.now) }
    ensures escaped { IfSome result (λ first. is_plain_byte first.0 ≡ false) }
    ensures shorter { IfSome result (λ first. length first.1.now < length text.now) }
    ensures none { IfNone result ((byte : ℕ) (later : List ℕ) → byte < 256
        → is_plain_byte byte ≡ false → text.now ≢ digits_of_byte true byte ++ later) }
{
    let [high, low, rest @ ..] = text else {
        return None;
    };
    let byte = 16 * digit(*high)? + digit(*low)?;
    if is_plain(byte) {
        None
    } else {
        Some((byte, rest))
    }
}

/// Returns the number of a hexadecimal digit in upper case. Returns None exactly for any other
/// byte.
fn digit(glyph: u8) -> Option<u8>
    ensures some { IfSome result (λ number. digit_glyph true number ≡ glyph) }
    ensures small { IfSome result (λ number. number < 16) }
    ensures none { IfNone result ((number : ℕ) → number < 16 → digit_glyph true number ≢ glyph) }
{
    if glyph.is_ascii_digit() {
        Some(glyph - b'0')
    } else if (b'A'..=b'F').contains(&glyph) {
        Some(glyph - b'A' + 10)
    } else {
        None
    }
}

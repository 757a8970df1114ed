//! Values as they are printed.

ghost use Rattle.std.specs.Prelude.{◌≡◌, ◌≢◌, ◌++◌, ℕ, List, codes, Ok};
ghost use Rattle.std.specs.Prelude.{IfOk, IfErr, IfSome, IfNone};
ghost use Rattle.bi_base.specs.declared.fault.Error.TheVariants.{OutOfMemory};
ghost use Rattle.bi_base.specs.Cells.{AreBytes};
ghost use Rattle.bi_edit.specs.EditWords.{IsValueText, value_text};
ghost use Rattle.bi_edit.specs.Unquoted.{bytes_in_quotes as bytes_in_quotes_of};
ghost use Rattle.bi_edit.specs.Unquoted.{bytes_or_none, next_quoting, unquoted_byte};
ghost use Rattle.bi_edit.specs.declared.words.values.Quoting.TheVariants.{Outside};
ghost use Rattle.hex.specs.Hex.{decode_of};

use bi_base::{Error, MemoryPen, are_bytes};
use bi_common::fields::{Field, put_field};
use hex::FromHexError;
use std::alloc::{AllocError, Global};

/// Returns the value that a text is for: `0x` and an even number of hexadecimal digits of either
/// case, or a value as it is printed. Returns None if there is none.
///
/// Fails only with OutOfMemory.
pub fn parse_value(alloc: Global, text: &[u8]) -> Result<Option<Vec<u8>>, Error>
    ensures some { IfOk result (λ found. IfSome found (λ value. IsValueText text.now value.items)) }
    ensures none { IfOk result (λ found. IfNone found
        ((value : List ℕ) → IsValueText text.now value → ⊥)) }
    ensures failed { IfErr result (λ error. error ≡ OutOfMemory) }
{
    match digits_in(text) {
        Some(digits) => bytes_of_digits(alloc, digits),
        None => printed_value(alloc, text),
    }
}

/// Returns what is after the `0x` that a text begins with. Returns None if it does not begin so.
fn digits_in(text: &[u8]) -> Option<&[u8]>
    ensures some { IfSome result (λ digits. text.now ≡ codes "0x" ++ digits.now) }
    ensures none { IfNone result ((digits : List ℕ) → text.now ≢ codes "0x" ++ digits) }
{
    match text {
        [b'0', b'x', digits @ ..] => Some(digits),
        _ => None,
    }
}

/// Returns the bytes of hexadecimal digits. Returns None if the text is none, or their number is
/// odd. Fails only with OutOfMemory.
fn bytes_of_digits(alloc: Global, digits: &[u8]) -> Result<Option<Vec<u8>>, Error>
    ensures some { IfOk result (λ found. IfSome found
        (λ bytes. decode_of digits.now ≡ Ok bytes.items)) }
    ensures none { IfOk result (λ found. IfNone found
        ((bytes : List ℕ) → decode_of digits.now ≢ Ok bytes)) }
    ensures failed { IfErr result (λ error. error ≡ OutOfMemory) }
{
    match hex::decode(alloc, digits) {
        Ok(bytes) => Ok(Some(bytes)),
        Err(FromHexError::OutOfMemory) => Err(Error::OutOfMemory),
        Err(_) => Ok(None),
    }
}

/// Returns the value that is printed as a text. Returns None if there is none. Fails only with
/// OutOfMemory. Requires: the text does not begin with `0x`.
fn printed_value(alloc: Global, text: &[u8]) -> Result<Option<Vec<u8>>, Error>
    requires { (digits : List ℕ) → text.now ≢ codes "0x" ++ digits }
    ensures some { IfOk result (λ found. IfSome found (λ value.
        AreBytes value.items × (value_text value.items ≡ text.now))) }
    ensures none { IfOk result (λ found. IfNone found
        ((value : List ℕ) → value_text value ≢ text.now)) }
    ensures failed { IfErr result (λ error. error ≡ OutOfMemory) }
{
    let value = bytes_in_quotes(alloc, text)?;
    are_bytes(&value);
    let printed = printed_text(alloc, &value)?;
    if printed.as_slice() != text {
        return Ok(None);
    }
    Ok(Some(value))
}

/// Returns how a value is printed. Fails only with OutOfMemory.
fn printed_text(alloc: Global, value: &[u8]) -> Result<Vec<u8>, Error>
    ensures text { IfOk result (λ text. text.items ≡ value_text value.now) }
    ensures failed { IfErr result (λ error. error ≡ OutOfMemory) }
{
    let mut pen = MemoryPen::new(alloc);
    put_field(Field::Value(value), &mut pen);
    pen.into_vec()
}

/// Where a byte of a text is.
#[derive(Clone, Copy)]
enum Quoting {
    /// Outside quotes.
    Outside,
    /// Inside quotes.
    Inside,
    /// Inside quotes, after a backslash.
    Escaped,
}

/// Returns the bytes inside quotes in a text, without the backslashes before others, and a zero for
/// each quote that ends some. Fails if memory runs out.
fn bytes_in_quotes(alloc: Global, text: &[u8]) -> Result<Vec<u8>, AllocError>
    ensures { IfOk result (λ bytes. bytes.items ≡ bytes_in_quotes_of Outside text.now) }
{
    let mut bytes = Vec::new(alloc);
    let mut quoting = Quoting::Outside;
    for byte in text {
        let (next, some) = after_byte(quoting, *byte);
        if let Some(byte) = some {
            bytes.push(byte)?;
        }
        quoting = next;
    }
    Ok(bytes)
}

/// Returns where the byte after this one is, and what this one stands for.
fn after_byte(quoting: Quoting, byte: u8) -> (Quoting, Option<u8>)
    ensures next { result.0 ≡ next_quoting quoting byte }
    ensures bytes { bytes_or_none result.1 ≡ unquoted_byte quoting byte }
{
    match (quoting, byte) {
        (Quoting::Outside, b'"') => (Quoting::Inside, None),
        (Quoting::Outside, _) => (Quoting::Outside, None),
        (Quoting::Inside, b'"') => (Quoting::Outside, Some(0)),
        (Quoting::Inside, b'\\') => (Quoting::Escaped, None),
        (Quoting::Inside | Quoting::Escaped, _) => (Quoting::Inside, Some(byte)),
    }
}

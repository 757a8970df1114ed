//! How names are printed.

ghost use Rattle.std.specs.Prelude.{◌≡◌, ◌++◌, OnOk, IfOk, string_bytes};
ghost use Rattle.std.specs.List.{flat_map};
ghost use Rattle.bi_common.specs.Shown.{shown_text, shown_byte, is_plain as is_plain_byte};

use std::alloc::{AllocError, Global};
use std::fmt::Write;

/// Returns a name as it is printed: a graphic ASCII character other than `%` is unchanged, and
/// every other byte is `%` and two hexadecimal digits in upper case. The empty name is `-`, and
/// the name `-` is `%2D`.
///
/// Fails only if memory runs out.
pub fn shown_name(alloc: Global, name: &[u8]) -> Result<String, AllocError>
    ensures { IfOk result (λ text. string_bytes text ≡ shown_text name.now) }
{
    let mut text = String::new(alloc);
    match name {
        [] => text.push_str("-")?,
        [b'-'] => text.push_str("%2D")?,
        _ => put_bytes(&mut text, name)?,
    }
    Ok(text)
}

/// Appends the bytes of a name as they are printed.
pub fn put_bytes(text: &mut String, name: &[u8]) -> Result<(), AllocError>
    ensures { OnOk result (string_bytes text.new ≡ string_bytes text.old
        ++ flat_map shown_byte name.now) }
{
    for byte in name {
        put_byte(text, *byte)?;
    }
    Ok(())
}

/// Appends a byte of a name as it is printed.
fn put_byte(text: &mut String, byte: u8) -> Result<(), AllocError>
    ensures { OnOk result (string_bytes text.new ≡ string_bytes text.old ++ shown_byte byte) }
{
    if is_plain(byte) {
        text.push(char::from(byte))
    } else {
        write!(text, "%{byte:02X}")
    }
}

/// Returns whether a byte of a name is printed unchanged.
pub fn is_plain(byte: u8) -> bool
    ensures { result ≡ is_plain_byte byte }
{
    byte.is_ascii_graphic() && byte != b'%'
}

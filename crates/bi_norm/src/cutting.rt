//! Cutting an input into pieces.

ghost use Rattle.std.specs.Prelude.{◌≡◌, ◌≤◌, length, map, OnOk, IfOk, IfErr};
ghost use Rattle.std.specs.List.{sum};
ghost use Rattle.bi_blob.specs.Layout.{longest_text};
ghost use Rattle.bi_norm.specs.Cutting.{IsCut, IsCutFault, IsCutError};

use bi_base::{Cause, Error, Fault, refuse};
use std::alloc::Global;

/// Cuts an input into consecutive pieces of these lengths, which together are the whole input.
/// Requires: the input has at most 0x7fffffff bytes.
///
/// Errors: BadPart at the beginning of the first piece that does not fit, or at the end of the
/// pieces, if bytes are left; OutOfMemory, which occurs only for an input that can be cut.
pub fn cut<'a>(alloc: Global, input: &'a [u8], lengths: &[u32]) -> Result<Vec<&'a [u8]>, Error>
    requires { length input.now ≤ longest_text }
    ensures pieces { IfOk result (λ pieces. IsCut input.entry.now lengths.now
        (map (λ piece. piece.now) pieces.items)) }
    ensures failed { IfErr result (IsCutError input.entry.now lengths.now) }
{
    check_lengths(input, lengths)?;
    let mut pieces = Vec::with_capacity(alloc, lengths.len())?;
    let mut start = 0;
    for piece_length in lengths {
        let end = start + *piece_length as usize;
        pieces.push(&input[start..end])?;
        start = end;
    }
    Ok(pieces)
}

/// Checks that pieces of these lengths together are the whole input. Fails as `cut` does, but never
/// with OutOfMemory. Requires: the input has at most 0x7fffffff bytes.
fn check_lengths(input: &[u8], lengths: &[u32]) -> Result<(), Fault>
    requires { length input.now ≤ longest_text }
    ensures ok { OnOk result (sum lengths.now ≡ length input.now) }
    ensures fault { IfErr result (IsCutFault input.now lengths.now) }
{
    let mut start = 0;
    for piece_length in lengths {
        let end = start + *piece_length as usize;
        if end > input.len() {
            return refuse(Cause::BadPart, start as u32);
        }
        start = end;
    }
    if start < input.len() {
        return refuse(Cause::BadPart, start as u32);
    }
    Ok(())
}

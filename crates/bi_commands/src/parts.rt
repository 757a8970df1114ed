//! The parts of an image to be built: bytes that are given, or pieces of an input.

ghost use Rattle.std.specs.Prelude.{◌≡◌, ◌≤◌, length, map, IfOk, IfErr, OnOk};
ghost use Rattle.std.specs.List.{AllByRecursion, sum};
ghost use Rattle.bi_base.specs.Cells.{AreBytes};
ghost use Rattle.bi_base.specs.Slices.{bytes_of};
ghost use Rattle.bi_norm.specs.Cutting.{IsCutError, IsCutFault};
ghost use Rattle.bi_commands.specs.Parts.{IsFilled, content_of, input_length_of, lengths_of};
ghost use Rattle.bi_commands.specs.Parts.{parts_of_lengths};

use bi_base::{Cause, Error, Fault, are_bytes, refuse};
use std::alloc::{AllocError, Global};

/// A part of a legacy image, or the payload of an image of a flattened image tree.
#[derive(Clone, Copy, Debug, PartialEq, Eq)]
pub enum Part<'a> {
    /// Bytes that are given.
    Bytes(&'a [u8]),
    /// The next bytes of the input: as many as this number.
    Length(u32),
}

/// Returns the parts that are pieces of an input, of these lengths. It fails if memory
/// runs out.
pub(crate) fn pieces<'a>(alloc: Global, lengths: &[u32]) -> Result<Vec<Part<'a>>, AllocError>
    ensures { IfOk result (λ parts. parts.items ≡ parts_of_lengths lengths.now) }
{
    let mut parts = Vec::with_capacity(alloc, lengths.len())?;
    for length in lengths {
        parts.push(Part::Length(*length))?;
    }
    Ok(parts)
}

/// Returns the contents of parts, in their order: the bytes that are given, and as the others
/// consecutive pieces of an input, which together are the whole input. Requires: the input has at
/// most 0x7fffffff bytes.
///
/// Errors: those of `bi_norm::cut` for the input and the lengths of the parts that have one.
pub(crate) fn fill<'a>(
    alloc: Global,
    input: &'a [u8],
    parts: &[Part<'a>],
) -> Result<Vec<&'a [u8]>, Error>
    requires { length input.now ≤ 0x7fffffff }
    ensures filled { IfOk result (λ contents. IsFilled parts.now input.entry.now
        (bytes_of contents.items)) }
    ensures one_each { IfOk result (λ contents. length contents.items ≡ length parts.now) }
    ensures bytes { IfOk result (λ contents. AllByRecursion AreBytes (bytes_of contents.items)) }
    ensures failed { IfErr result (IsCutError input.entry.now (lengths_of parts.now)) }
{
    check_lengths(input, parts)?;
    let mut contents = Vec::with_capacity(alloc, parts.len())?;
    let mut start = 0;
    for part in parts {
        let end = start + input_length(*part) as usize;
        let content = content(*part, &input[start..end]);
        contents.push(content)?;
        start = end;
    }
    Ok(contents)
}

/// Checks that the parts with a length are together the whole input. Fails with BadPart at the
/// beginning of the first one that does not fit, or at the end of the last one, if bytes are left.
/// Requires: the input has at most 0x7fffffff bytes.
fn check_lengths(input: &[u8], parts: &[Part<'_>]) -> Result<(), Fault>
    requires { length input.now ≤ 0x7fffffff }
    ensures ok { OnOk result (sum (map input_length_of parts.now) ≡ length input.now) }
    ensures fault { IfErr result (IsCutFault input.now (lengths_of parts.now)) }
{
    let mut start = 0;
    for part in parts {
        let end = start + input_length(*part) as usize;
        if end > input.len() {
            return refuse(Cause::BadPart, start as u32);
        }
        start = end;
    }
    if start < input.len() {
        return refuse(Cause::BadPart, start as u32);
    }
    Ok(())
}

/// Returns how many bytes of the input a part is.
fn input_length(part: Part<'_>) -> u32
    ensures { result ≡ input_length_of part.entry }
{
    match part {
        Part::Bytes(_) => 0,
        Part::Length(length) => length,
    }
}

/// Returns the content of a part: the bytes that are given, or else this piece of the input.
fn content<'a>(part: Part<'a>, piece: &'a [u8]) -> &'a [u8]
    ensures content { result.now ≡ content_of part.entry piece.entry.now }
    ensures bytes { AreBytes result.now }
{
    let content = match part {
        Part::Bytes(bytes) => bytes,
        Part::Length(_) => piece,
    };
    are_bytes(content);
    content
}

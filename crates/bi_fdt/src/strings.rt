//! The strings block of a blob (Devicetree Specification, 5.5).

ghost use Rattle.std.specs.Prelude.{◌≡◌, ◌+◌, ◌-◌, ◌*◌, ◌/◌, ◌<◌, ◌≤◌, ◌↔◌, length};
ghost use Rattle.std.specs.Prelude.{IsSome, IfSome, IfOk};
ghost use Rattle.bi_blob.specs.Tokens.{name_from};
ghost use Rattle.bi_blob.specs.Tree.{HasNoZero};
ghost use Rattle.bi_blob.specs.BlobFaults.{HasName};
ghost use Rattle.bi_fdt.specs.Strings.{AreEnds};

use crate::names::name_at;
use std::alloc::{AllocError, Global};
use std::marker::Model;

/// The distance between the offsets at which the end of the name is kept.
pub(crate) const STRIDE: usize = 64;

/// A strings block. It keeps where the name at each multiple of `STRIDE` ends, so finding a name
/// takes the same time however long it is.
#[derive(Drop)]
pub(crate) struct Strings<'a> {
    bytes: &'a [u8],
    ends: Vec<usize>,
}

impl<'a> Model for Strings<'a> {
    ghost use Rattle.std.specs.Prelude.{◌≡◌, ◌+◌, ◌/◌, List, ℕ, length};
    ghost use Rattle.bi_fdt.specs.Strings.{AreEnds};

    ghost Value = { List ℕ };

    ghost view = { λ strings. strings.bytes.now };

    ghost invariant = { λ strings. AreEnds strings.bytes.now strings.ends.items
        × (length strings.ends.items ≡ length strings.bytes.now / 64 + 1) };
}

impl<'a> Strings<'a> {
    /// Returns the strings block of the given bytes. Takes time linear in their number.
    pub(crate) fn new(alloc: Global, bytes: &'a [u8]) -> Result<Strings<'a>, AllocError>
        ensures { IfOk result (λ strings. strings ≡ bytes.entry.now) }
    {
        let ends = ends_of_names(alloc, bytes)?;
        Ok(Strings { bytes, ends })
    }

    /// Returns the name at offset `at`. Returns None if no zero byte ends it.
    pub(crate) fn name_at(&self, at: usize) -> Option<&'a [u8]>
        ensures some { IsSome result ↔ HasName self.now at (length self.now) }
        ensures value { IfSome result (λ name. name.now ≡ name_from self.now at) }
        ensures no_zero { IfSome result (λ name. HasNoZero name.now) }
    {
        let index = at / STRIDE + 1;
        if index >= self.ends.len() {
            return name_at(self.bytes, at, self.bytes.len());
        }
        if let Some(name) = name_at(self.bytes, at, STRIDE * index) {
            return Some(name);
        }
        let end = self.ends[index];
        if end == self.bytes.len() {
            return None;
        }
        Some(&self.bytes[at..end])
    }

    /// Returns the bytes of the block.
    pub(crate) fn bytes(&self) -> &'a [u8]
        ensures { result.now ≡ self.now }
    {
        self.bytes
    }

    /// Returns the ends of the names at the first multiples of 64.
    pub(crate) fn ends(&self) -> &[usize]
        ensures ends { AreEnds self.now result.now }
        ensures count { length result.now ≡ length self.now / 64 + 1 }
    {
        &self.ends
    }
}

/// Returns the index of the first multiple of 64 from which on a name has one whole block less. The
/// name has this length, and begins at offset `at`. Requires: it has at least 128 bytes.
pub(crate) fn index_of_later_blocks(at: usize, length: usize) -> usize
    requires long { 128 ≤ length }
    ensures after { at < 64 * result }
    ensures blocks { (length - (64 * result - at)) / 64 ≡ length / 64 - 1 }
    ensures within { 64 * result + 64 ≤ at + length }
{
    at / STRIDE + (at % STRIDE + length % STRIDE) / STRIDE + 1
}

/// Returns the ends of the names at the first multiples of 64.
pub(crate) fn ends_of_names(alloc: Global, bytes: &[u8]) -> Result<Vec<usize>, AllocError>
    ensures ends { IfOk result (λ ends. AreEnds bytes.now ends.items) }
    ensures count { IfOk result (λ ends. length ends.items ≡ length bytes.now / 64 + 1) }
{
    let count = bytes.len() / STRIDE + 1;
    let mut ends = Vec::with_capacity(alloc, count)?;
    let mut end = 0;
    for index in 0..count {
        if end <= STRIDE * index {
            end = end_of_name(bytes, STRIDE * index);
        }
        ends.push(end)?;
    }
    Ok(ends)
}

/// Returns the offset of the first zero byte from offset `at` on, or the length of the bytes if
/// there is none. Requires: the offset is within the bytes, or at their end.
fn end_of_name(bytes: &[u8], at: usize) -> usize
    requires { at ≤ length bytes.now }
    ensures { result ≡ at + length (name_from bytes.now at) }
{
    match name_at(bytes, at, bytes.len()) {
        Some(name) => at + name.len(),
        None => bytes.len(),
    }
}

//! Writing a plain tree as a blob.

ghost use Rattle.std.specs.Prelude.{◌≡◌, ◌≤◌, length, IfOk, IfErr, OnOk};
ghost use Rattle.std.specs.List.{AllByRecursion};
ghost use Rattle.bi_base.specs.Errors.{IsFaultOrNoMemory};
ghost use Rattle.bi_blob.specs.Blob.{IsReservation};
ghost use Rattle.bi_fit.specs.NormalNodes.{with_reservations};
ghost use Rattle.bi_plain.specs.PlainText.{HasPlainText, IsPlainDoc, IsPlainTextFault, plain_text};

mod names;
mod nodes;

use crate::memory::only_memory;
use bi_base::{Cause, Error, Limits, VecSink, refuse};
use bi_fdt::Blob;
use bi_lay::Doc;
use bi_tree::Tree;
use names::ranked_names;
use nodes::add_node;
use std::alloc::{AllocError, Global};

/// Returns the normal text of a tree, with the boot processor and the memory reservations of a
/// blob. If the tree is the plain tree of a flattened image tree, the text is the normal text of
/// that in the form Embedded. Takes n log n steps for n nodes and properties; names of 64 bytes or
/// more are compared only if they are together no longer than `limits.file()`. Requires: they can
/// be laid out, and at most 64 nodes are inside one another.
///
/// Errors: TooLarge at `limits.file()`, if the text is longer than that; OutOfMemory.
pub fn write_plain_tree(
    alloc: Global,
    blob: &Blob<'_>,
    tree: &Tree<'_>,
    limits: Limits,
) -> Result<Vec<u8>, Error>
    requires { HasPlainText blob.now.cpu blob.now.reservations tree.now }
    ensures text { IfOk result (λ text.
        text.items ≡ plain_text blob.now.cpu blob.now.reservations tree.now) }
    ensures short { IfOk result (λ text. length text.items ≤ limits.file) }
    ensures failed { IfErr result (IsFaultOrNoMemory
        (IsPlainTextFault limits blob.now.cpu blob.now.reservations tree.now)) }
{
    let document = build_doc(alloc, blob, tree, limits)?;
    let limit = limits.file();
    let Some(closed) = document.close() else {
        return Ok(refuse(Cause::TooLarge, limit)?);
    };
    if closed.size() > limit {
        return Ok(refuse(Cause::TooLarge, limit)?);
    }
    let mut sink = VecSink::new(alloc);
    closed.emit(&mut sink)?;
    Ok(sink.into_vec())
}

/// Builds the document of the normal text of a tree. The text may be longer than the limit.
/// Requires: the tree can be laid out with the boot processor and the memory reservations of the
/// blob, and at most 64 nodes are inside one another.
///
/// Errors: TooLarge at `limits.file()`, only if the text is longer than that; OutOfMemory.
fn build_doc<'a, 'b>(
    alloc: Global,
    blob: &Blob<'_>,
    tree: &'b Tree<'a>,
    limits: Limits,
) -> Result<Doc<'b>, Error>
where
    'a: 'b,
    requires { HasPlainText blob.now.cpu blob.now.reservations tree.now }
    ensures document { IfOk result
        (IsPlainDoc blob.now.cpu blob.now.reservations tree.entry.now) }
    ensures failed { IfErr result (IsFaultOrNoMemory
        (IsPlainTextFault limits blob.now.cpu blob.now.reservations tree.entry.now)) }
{
    let ranked = ranked_names(alloc, &tree.root, &tree.names, limits.file())?;
    let mut doc = Doc::with_names(alloc, blob.boot_cpu(), ranked.names)?;
    add_reservations(&mut doc, blob)?;
    add_node(alloc, &mut doc, b"", &tree.root, &ranked.ranks)?;
    Ok(doc)
}

/// Adds the memory reservations of a blob. Fails if memory runs out. Requires: each reservation is
/// one that the block can hold: not both of its numbers are zero.
fn add_reservations(doc: &mut Doc<'_>, blob: &Blob<'_>) -> Result<(), AllocError>
    requires { AllByRecursion IsReservation blob.now.reservations }
    ensures added { OnOk result (doc.new ≡ with_reservations doc.old blob.now.reservations) }
{
    for index in 0..blob.reservation_count() {
        let Some((address, size)) = blob.reservation(index) else {
            unreachable!();
        };
        only_memory(doc.reserve(address, size))?;
    }
    Ok(())
}

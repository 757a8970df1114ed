//! The normal text of a flattened image tree, and its document.

ghost use Rattle.std.specs.Prelude.{◌≡◌, ◌+◌, ◌<◌, ◌≤◌, length, OnOk, IfOk, IfErr};
ghost use Rattle.std.specs.List.{AllByRecursion};
ghost use Rattle.bi_base.specs.Aligns.{align_bytes};
ghost use Rattle.bi_base.specs.Errors.{IsFaultOrNoMemory};
ghost use Rattle.bi_base.specs.Reading.{too_large};
ghost use Rattle.bi_blob.specs.Blob.{IsReservation};
ghost use Rattle.bi_blob.specs.Stages.{AfterRoot};
ghost use Rattle.bi_blob.specs.Following.{stage_of_events};
ghost use Rattle.bi_blob.specs.Layout.{longest_text};
ghost use Rattle.bi_lay.specs.Contents.{HaveSameContent, text_of};
ghost use Rattle.bi_fit.specs.Content.{tree_of};
ghost use Rattle.bi_fit.specs.Updating.{with_changes};
ghost use Rattle.bi_fit.specs.NewDigests.{new_digests};
ghost use Rattle.bi_fit.specs.Documents.{document_of, IsTextOfTree, IsTextFault, IsTextError};
ghost use Rattle.bi_fit.specs.NormalNodes.{with_reservations, AreWithin};
ghost use Rattle.bi_fit.specs.Text.{fit_text};

mod hash_nodes;
mod image_node;
mod image_nodes;
mod nodes;
mod property_map;
mod text_parts;
mod tree;

use crate::changes::Changes;
pub(crate) use crate::document::image_node::{ImageChildren, ImageNode, add_image_node};
pub(crate) use crate::document::nodes::{Leaf, add_leaves, begin_with};
pub(crate) use crate::document::property_map::PropertyMap;
use crate::document::text_parts::TextParts;
use crate::document::tree::add_tree;
use crate::fit::Fit;
use crate::form::Form;
use crate::image::Image;
use crate::memory::only_memory;
use crate::name_order::NameOrder;
use crate::payload_area::length_after_blob;
use crate::text::FitText;
use bi_base::{Align, Cause, Error, Fault, Limits, refuse};
use bi_fdt::Blob;
use bi_lay::Doc;
use std::alloc::{AllocError, Global};

impl<'a> Fit<'a> {
    /// Lays out the normal text in a form. It has the boot processor, the memory reservations and
    /// the nodes of the file, in their order. The properties of each node are in byte order of
    /// their names.
    ///
    /// Image nodes with a payload have the properties of the form instead of `data`, `data-offset`,
    /// `data-position` and `data-size`. Image nodes without a payload have none of the four. In the
    /// form External the payloads follow the blob, and in the form Aligned too. The text borrows
    /// names, values and payloads, and copies none.
    ///
    /// Takes n log n steps for n nodes and properties. The different names of properties are put in
    /// byte order once, which takes m log m comparisons for m names; names of 64 bytes or more are
    /// compared only if they are together no longer than `limits.file()`.
    ///
    /// Errors: TooLarge at `limits.file()`, if the text is longer than that, unless memory runs
    /// out; OutOfMemory, which never occurs if the payloads after the blob are by themselves longer
    /// than that.
    pub fn text<'b>(
        &'b self,
        alloc: Global,
        form: Form,
        limits: Limits,
    ) -> Result<FitText<'b>, Error>
        ensures text { IfOk result (IsTextOfTree limits form (tree_of self.now)) }
        ensures failed { IfErr result (IsTextError limits form (tree_of self.now)) }
    {
        self.updated_text(alloc, Changes::default(), b"", form, limits)
    }

    /// Returns the document of the normal text in a form. The document is closed, and its text,
    /// with the alignment of the form, is the blob of the normal text. The payloads that follow the
    /// blob, unless the form is Embedded, are not part of it. The document borrows names, values
    /// and payloads of the file.
    ///
    /// The errors are those of `text`: the limit is on the whole text, including payloads after the
    /// blob.
    pub fn to_doc(&self, alloc: Global, form: Form, limits: Limits) -> Result<Doc<'a>, Error>
        ensures document { IfOk result (λ doc.
            HaveSameContent doc (document_of form (tree_of self.now))) }
        ensures closed { IfOk result (λ doc. stage_of_events doc.events ≡ AfterRoot) }
        ensures short { OnOk result (length (fit_text form (tree_of self.now)) ≤ limits.file) }
        ensures failed { IfErr result (IsTextError limits form (tree_of self.now)) }
    {
        let limit = limits.file();
        let after = length_after_blob(self.images(), form, limit)?;
        let document = self.build_updated_doc(alloc, Changes::default(), b"", form, limits)?;
        check_length(&document, form.align(), after, limit)?;
        Ok(document)
    }

    /// Lays out the normal text of the tree after an update, in a form, as `text` does. The text
    /// borrows the digests. Requires: `digests` are those that `new_digests` returns for these
    /// changes.
    ///
    /// The errors are those of `text`, for the normal text of the updated tree.
    pub fn updated_text<'b>(
        &'b self,
        alloc: Global,
        changes: Changes,
        digests: &'b [u8],
        form: Form,
        limits: Limits,
    ) -> Result<FitText<'b>, Error>
        requires { digests.now ≡ new_digests changes (tree_of self.now) }
        ensures text { IfOk result
            (IsTextOfTree limits form (with_changes changes (tree_of self.now))) }
        ensures failed { IfErr result
            (IsTextError limits form (with_changes changes (tree_of self.now))) }
    {
        let limit = limits.file();
        let images: &'b [Image<'b>] = self.images();
        let after = length_after_blob(images, form, limit)?;
        let document = self.build_updated_doc(alloc, changes, digests, form, limits)?;
        Ok(FitText::new(document, form, images, after, limit)?)
    }

    /// Builds the document of the normal text of the updated tree. The text may be longer than the
    /// limit. Requires: `digests` are those that `new_digests` returns for these changes. Unless
    /// the form is Embedded, the payloads end within the longest text.
    ///
    /// Errors: TooLarge at `limits.file()`, only if the text is longer than that; OutOfMemory.
    fn build_updated_doc<'b>(
        &self,
        alloc: Global,
        changes: Changes,
        digests: &'b [u8],
        form: Form,
        limits: Limits,
    ) -> Result<Doc<'b>, Error>
    where
        'a: 'b,
        requires digests { digests.now ≡ new_digests changes (tree_of self.now) }
        requires within { AreWithin form 0 (tree_of self.now).payloads }
        ensures document { IfOk result (λ doc. HaveSameContent doc
            (document_of form (with_changes changes (tree_of self.now)))) }
        ensures closed { IfOk result (λ doc. stage_of_events doc.events ≡ AfterRoot) }
        ensures failed { IfErr result (IsFaultOrNoMemory
            (IsTextFault limits form (with_changes changes (tree_of self.now)))) }
    {
        self.give_invariant();
        let blob: &Blob<'b> = self.blob();
        let images: &[Image<'b>] = self.images();
        let order = NameOrder::new(alloc, blob, limits.file())?;
        let names = order.names.to_vec(alloc)?;
        let mut doc = Doc::with_names(alloc, blob.boot_cpu(), names)?;
        add_reservations(&mut doc, blob)?;
        let parts = TextParts {
            order: &order,
            images,
            images_position: self.images_position(),
            form,
            changes,
            digests,
        };
        add_tree(alloc, &mut doc, blob.root(), parts)?;
        Ok(doc)
    }
}

/// Fails with TooLarge at the limit if the text of a document with this alignment and `after` more
/// bytes are longer than that. Requires: the document is closed, and `after` is at most the limit,
/// which is at most 0x7fffffff.
fn check_length(document: &Doc<'_>, align: Align, after: u32, limit: u32) -> Result<(), Fault>
    requires closed { stage_of_events document.now.events ≡ AfterRoot }
    requires within { after ≤ limit }
    requires small { limit ≤ longest_text }
    ensures ok { OnOk result (length (text_of (align_bytes align) document.now) + after ≤ limit) }
    ensures fault { IfErr result (λ fault. (fault ≡ too_large limit)
        × (limit < length (text_of (align_bytes align) document.now) + after)) }
{
    match document.aligned_size(align) {
        Some(size) if size <= limit - after => Ok(()),
        _ => refuse(Cause::TooLarge, limit),
    }
}

/// Adds the memory reservations of a blob. Requires: each reservation is one that the block can
/// hold: not both of its numbers are zero.
fn add_reservations(doc: &mut Doc<'_>, blob: &Blob<'_>) -> Result<(), AllocError>
    requires { AllByRecursion IsReservation blob.now.reservations }
    ensures added { OnOk result (doc.new ≡ with_reservations doc.old blob.now.reservations) }
{
    for index in 0..blob.reservation_count() {
        let Some((address, size)) = blob.reservation(index) else {
            unreachable!();
        };
        only_memory(doc.reserve(address, size))?;
    }
    Ok(())
}

//! The document of a tree to be built.
//!
//! Each function that adds to a document fails if memory runs out. What the document then has is
//! not specified.

ghost use Rattle.std.specs.Prelude.{◌≡◌, OnOk, IfOk};
ghost use Rattle.bi_blob.specs.Events.{events};
ghost use Rattle.bi_blob.specs.Following.{stage_of_events};
ghost use Rattle.bi_blob.specs.Stages.{AfterRoot};
ghost use Rattle.bi_lay.specs.Contents.{HaveSameContent};
ghost use Rattle.bi_fit.specs.NormalNodes.{MayAdd, with_events, AreWithin};
ghost use Rattle.bi_fit.specs.Documents.{document_of};
ghost use Rattle.bi_fit.specs.Building.{built_tree};
ghost use Rattle.bi_fit.specs.NamedImages.{head_model, named_models, plan_model};
ghost use Rattle.bi_fit.specs.BuiltNodes.{built_image_nodes, built_images_node};
ghost use Rattle.bi_fit.specs.BuiltNodes.{built_configurations_node, built_payloads};
ghost use Rattle.bi_fit.specs.BuiltNodes.{ArePrepared};
ghost use Rattle.bi_fit.specs.BuiltNames.{built_names as built_names_of};

use crate::building::configurations::configuration_leaves;
use crate::building::hash_nodes::hash_leaves;
use crate::building::lists::ListValues;
use crate::building::names::built_names;
use crate::building::properties::{default_properties, image_properties, root_properties};
use crate::building::{Head, NamedImage, Plan};
use crate::document::{
    ImageChildren, ImageNode, PropertyMap, add_image_node, add_leaves, begin_with,
};
use crate::form::Form;
use crate::memory::only_memory;
use crate::payload_area::PayloadArea;
use crate::property_names::PropertyNames;
use bi_lay::Doc;
use std::alloc::{AllocError, Global};

/// What the document of a tree to be built borrows.
#[derive(Clone, Copy)]
pub(super) struct BuiltParts<'a> {
    pub(super) head: Head<'a>,
    pub(super) images: &'a [NamedImage<'a>],
    pub(super) plan: Plan<'a>,
    /// The digests of the payload of each image with the algorithms of the plan, one after another.
    pub(super) digests: &'a [Vec<u8>],
    /// The names of the hash nodes of an image.
    pub(super) hash_names: &'a [String],
    /// The values of each configuration that list texts.
    pub(super) lists: &'a [ListValues],
}

/// Returns the document of a tree to be built in a form, however long its text is. The document
/// borrows names, payloads and digests, and copies none. Fails if memory runs out. Requires: the
/// tree can be built, and the parts have the digests, the names of hash nodes and the lists of its
/// images and its plan. Unless the form is Embedded, the payloads end within the longest text.
pub(super) fn build_doc<'a>(
    alloc: Global,
    parts: BuiltParts<'a>,
    form: Form,
) -> Result<Doc<'a>, AllocError>
    requires prepared { ArePrepared parts }
    requires within { AreWithin form 0 (built_payloads (named_models parts.images.now)) }
    ensures document { let images = named_models parts.entry.images.now in
        let plan = plan_model parts.entry.plan in
        IfOk result (λ doc. HaveSameContent doc
        (document_of form (built_tree (head_model parts.entry.head) plan images))) }
    ensures closed { IfOk result (λ doc. stage_of_events doc.events ≡ AfterRoot) }
{
    let names = built_names(alloc)?;
    let properties = root_properties(alloc, &names, parts.head)?;
    let by_rank = names.to_vec(alloc)?;
    let mut doc = only_memory(Doc::with_names(alloc, 0, by_rank))?;
    begin_with(&mut doc, b"", &properties)?;
    add_built_images(alloc, &mut doc, &names, parts, form)?;
    add_configurations(alloc, &mut doc, &names, parts)?;
    doc.end();
    Ok(doc)
}

/// Adds the node of the images, with all nodes below it. Requires: the tree can be built, and the
/// parts have the digests, the names of hash nodes and the lists of its images and its plan; the
/// names, also those of the document, are those of a built tree; and the nodes may come next in the
/// document. Unless the form is Embedded, the payloads end within the longest text.
fn add_built_images<'a>(
    alloc: Global,
    doc: &mut Doc<'a>,
    names: &PropertyNames<'a>,
    parts: BuiltParts<'a>,
    form: Form,
) -> Result<(), AllocError>
    requires prepared { ArePrepared parts }
    requires within { AreWithin form 0 (built_payloads (named_models parts.images.now)) }
    requires names { names.now ≡ built_names_of }
    requires doc_names { doc.old.names ≡ built_names_of }
    requires may { let images = named_models parts.images.now in
        let algorithms = parts.plan.algorithms.now in
        MayAdd doc.old
        (events (built_images_node form (head_model parts.head) algorithms images)) }
    ensures added { let images = named_models parts.entry.images.now in
        let algorithms = parts.entry.plan.algorithms.now in
        OnOk result (doc.new ≡ with_events doc.old
        (events (built_images_node form (head_model parts.entry.head) algorithms images))) }
{
    let properties = PropertyMap::new(alloc, names);
    begin_with(doc, b"images", &properties)?;
    add_built_image_nodes(alloc, doc, names, parts, form)?;
    doc.end();
    Ok(())
}

/// Adds the image nodes. Requires: the tree can be built, and the parts have the digests, the names
/// of hash nodes and the lists of its images and its plan; the names, also those of the document,
/// are those of a built tree; and the nodes may come next in the document. Unless the form is
/// Embedded, the payloads end within the longest text.
fn add_built_image_nodes<'a>(
    alloc: Global,
    doc: &mut Doc<'a>,
    names: &PropertyNames<'a>,
    parts: BuiltParts<'a>,
    form: Form,
) -> Result<(), AllocError>
    requires prepared { ArePrepared parts }
    requires within { AreWithin form 0 (built_payloads (named_models parts.images.now)) }
    requires names { names.now ≡ built_names_of }
    requires doc_names { doc.old.names ≡ built_names_of }
    requires may { let images = named_models parts.images.now in
        let algorithms = parts.plan.algorithms.now in
        MayAdd doc.old
        (events (built_image_nodes form 0 (head_model parts.head) algorithms images)) }
    ensures added { let images = named_models parts.entry.images.now in
        let algorithms = parts.entry.plan.algorithms.now in
        OnOk result (doc.new ≡ with_events doc.old
        (events (built_image_nodes form 0 (head_model parts.entry.head) algorithms images))) }
{
    let mut area = PayloadArea::new(form);
    for (index, image) in parts.images.iter().enumerate() {
        let digests = &parts.digests[index];
        let hashes = hash_leaves(
            alloc,
            names,
            parts.hash_names,
            parts.plan.algorithms,
            digests,
        )?;
        let added = ImageNode {
            name: image.name,
            properties: image_properties(alloc, names, parts.head, image)?,
            payload: Some(image.payload),
            children: ImageChildren::Leaves(&hashes),
        };
        add_image_node(alloc, doc, &mut area, added)?;
    }
    Ok(())
}

/// Adds the node `configurations`, with the configuration nodes. Requires: the tree can be built,
/// and the parts have the digests, the names of hash nodes and the lists of its images and its
/// plan; the names, also those of the document, are those of a built tree; and the nodes may come
/// next in the document.
fn add_configurations<'a>(
    alloc: Global,
    doc: &mut Doc<'a>,
    names: &PropertyNames<'a>,
    parts: BuiltParts<'a>,
) -> Result<(), AllocError>
    requires prepared { ArePrepared parts }
    requires names { names.now ≡ built_names_of }
    requires doc_names { doc.old.names ≡ built_names_of }
    requires may { let plan = plan_model parts.plan in
        MayAdd doc.old (events (built_configurations_node (head_model parts.head) plan)) }
    ensures added { let plan = plan_model parts.entry.plan in
        OnOk result (doc.new ≡ with_events doc.old
        (events (built_configurations_node (head_model parts.entry.head) plan))) }
{
    let plan = parts.plan;
    let properties = default_properties(alloc, names, plan.default)?;
    begin_with(doc, b"configurations", &properties)?;
    let leaves = configuration_leaves(alloc, names, parts.head, plan.configurations, parts.lists)?;
    add_leaves(doc, &leaves)?;
    doc.end();
    Ok(())
}

//! The devicetrees inside the payloads of a boot image.

ghost use Rattle.std.specs.Prelude.{◌≡◌, ◌↔◌, ◌+◌, ◌<◌, ◌≤◌, IfErr, IfOk, IsTrue, OnOk};
ghost use Rattle.std.specs.Prelude.{Option, Some, is_some, length, map, option_map, take};
ghost use Rattle.std.specs.List.{AllByRecursion};
ghost use Rattle.bi_base.specs.declared.fault.Error.TheVariants.{OutOfMemory};
ghost use Rattle.bi_base.specs.Reading.{too_large};
ghost use Rattle.bi_fit.specs.Content.{image_model, payloads_of_models};
ghost use Rattle.bi_norm.specs.Reading.{meaning_of};
ghost use Rattle.bi_common.specs.declared.format.Format.{Format};
ghost use Rattle.bi_common.specs.HeldImages.{IsHeldImage};
ghost use Rattle.bi_common.specs.JsonTokens.{member_tokens};
ghost use Rattle.bi_common.specs.LineTokens.{tokens_of_lines};
ghost use Rattle.bi_common.specs.PayloadBounds.{IsOverPayloadBound};
ghost use Rattle.bi_describe.specs.DeepDescribing.{IsDeepImageError};
ghost use Rattle.bi_describe.specs.DeepDescriptions.{lines_at, whole_devicetree};
ghost use Rattle.bi_describe.specs.DeepJson.{inside_members};
ghost use Rattle.bi_describe.specs.Devicetrees.{Devicetree, Insides as Trees};
ghost use Rattle.bi_describe.specs.IgnoredWords.{payload_path};
ghost use Rattle.bi_describe.specs.Ignoring.{OfImageNamed, OfPart, PayloadPlace as Place};
ghost use Rattle.bi_describe.specs.InsideTrees.{IsNamesError, devicetree_of, long_names};
ghost use Rattle.bi_describe.specs.MadeInsides.{AreBlobsInside, HasBlob, HoldBlobs, HoldInsides};
ghost use Rattle.bi_describe.specs.MadeInsides.{HoldsAt, HoldsBlob, IsBlobOrNone, IsReadInside};
ghost use Rattle.bi_describe.specs.MadeInsides.{long_names_in, payloads_in};
ghost use Rattle.bi_describe.specs.MadeInsides.{payload_index_in, trees_after, with_tree_at};
ghost use Rattle.bi_describe.specs.MadeInsides.{is_one_of_places, made_tree_at, tree_with_index};
ghost use Rattle.bi_describe.specs.MadeInsides.{whole_devicetrees};
ghost use Rattle.bi_describe.specs.MadeWords.{ignored_words, place_of_payload};
ghost use Rattle.bi_describe.specs.OpenedPayloads.{tree_at_without, tree_without};
ghost use Rattle.bi_describe.specs.ReducedMeanings.{ReducedTree};

use super::deep_pen::DeepPen;
use super::inside::{InsideTree, read_blob};
use crate::ignored::{Ignored, PayloadPlace, is_payload_of_one, payload_of_word, words_inside};
use bi_base::{Error, Fault, Limits, MemoryPen, Pen};
use bi_common::fields::{Field, put_decimal, put_field};
use bi_common::json_writer::JsonPen;
use bi_common::payload_bounds::BoundedFit;
use bi_fdt::Blob;
use bi_fit::{Fit, Image};
use bi_legacy::Legacy;
use bi_norm::BootImage;
use std::alloc::{AllocError, Global};

/// Where the payloads are that trees are inside.
#[derive(Drop)]
enum PayloadIndex<'a, 'b> {
    /// In a legacy image: the index of a part is that of its tree.
    Parts,
    /// In the images of this tree: the index of an image is that of the tree in its payload.
    Images(&'b Fit<'a>),
}

impl<'a, 'b> PayloadIndex<'a, 'b> {
    ghost use Rattle.bi_describe.specs.MadeInsides.{IsIndexOf, place_at};

    /// Returns where the payloads of an image are.
    ///
    /// Error: TooLarge at the limit, if the payloads are longer.
    fn new(image: &'b BootImage<'a>, limits: Limits) -> Result<PayloadIndex<'a, 'b>, Fault>
        ensures index { IfOk result (IsIndexOf image.entry.now) }
        ensures within { OnOk result (¬ (IsOverPayloadBound limits (meaning_of image.now))) }
        ensures fault { IfErr result (λ fault. IsOverPayloadBound limits (meaning_of image.now)
            × (fault ≡ too_large limits.file)) }
    {
        match image {
            BootImage::Legacy(_) => Ok(PayloadIndex::Parts),
            BootImage::Fit(fit) => {
                let bounded = BoundedFit::new(fit, limits)?;
                Ok(PayloadIndex::Images(bounded.fit()))
            }
        }
    }

    /// Returns the path of the payload with this index. Fails if memory runs out.
    fn path(&self, alloc: Global, index: usize) -> Result<Vec<u8>, Error>
        ensures path { IfOk result (λ path. path.items
            ≡ payload_path (place_at self.now index)) }
        ensures failed { IfErr result (λ error. error ≡ OutOfMemory) }
    {
        match self {
            PayloadIndex::Parts => path_of_part(alloc, index),
            PayloadIndex::Images(fit) => {
                path_of_image(alloc, fit.image_name(index).unwrap_or_default())
            }
        }
    }

    /// Returns the index of the payload of the image with this name, if there is such an image.
    fn of_image(&self, name: &[u8]) -> Option<usize>
        ensures { result ≡ payload_index_in self.now (OfImageNamed name.now) }
    {
        match self {
            PayloadIndex::Images(fit) => fit.image(name),
            PayloadIndex::Parts => None,
        }
    }

    /// Returns the index of the payload that is the part with this index, if this is a legacy
    /// image.
    fn of_part(&self, part: usize) -> Option<usize>
        ensures { result ≡ payload_index_in self.now (OfPart part) }
    {
        match self {
            PayloadIndex::Parts => Some(part),
            PayloadIndex::Images(_) => None,
        }
    }
}

/// The devicetrees inside the payloads of a boot image.
#[derive(Drop)]
pub(crate) struct Insides<'a, 'b> {
    /// What is inside each part, or inside the payload of each image.
    trees: Vec<Option<InsideTree<'a>>>,
    index: PayloadIndex<'a, 'b>,
}

impl<'a, 'b> Insides<'a, 'b> {
    /// Reads the payloads of an image that are devicetrees. Requires: the image was read.
    ///
    /// Errors: TooLarge at the limit, if the payloads are longer, or if the deep description is,
    /// for which the names of properties in the devicetrees are enough; OutOfMemory.
    pub(crate) fn read(
        alloc: Global,
        image: &'b BootImage<'a>,
        limits: Limits,
    ) -> Result<Insides<'a, 'b>, Error>
        requires held { IsHeldImage image.now }
        ensures within { OnOk result (¬ (IsOverPayloadBound limits (meaning_of image.now))) }
        ensures read { IfOk result (IsReadInside limits (meaning_of image.entry.now)) }
        ensures failed { IfErr result (λ error. (format : Format)
            → IsDeepImageError format limits (meaning_of image.now) error) }
    {
        let index = PayloadIndex::new(image, limits)?;
        let blobs = blobs_of_image(alloc, image, limits)?;
        let trees = trees_of_blobs(alloc, blobs, &index, limits)?;
        Ok(Insides { trees, index })
    }

    /// Returns the index of a payload, if there is an image or a part at this place.
    fn index_of(&self, place: &PayloadPlace) -> Option<usize>
        ensures { result ≡ payload_index_in self.now.index (place_of_payload place.now) }
    {
        match place {
            PayloadPlace::Image(name) => self.index.of_image(name),
            PayloadPlace::Part(part) => match usize::try_from(*part) {
                Ok(part) => self.index.of_part(part),
                Err(_) => None,
            },
        }
    }

    /// Returns the devicetree inside the payload at a place, if there is one.
    fn tree_at(&self, place: &PayloadPlace) -> Option<&InsideTree<'a>>
        ensures { option_map (λ tree. tree.now) result
            ≡ made_tree_at self.now (place_of_payload place.now) }
    {
        match self.index_of(place) {
            Some(index) => self.tree(index),
            None => None,
        }
    }

    /// Returns the devicetree inside the payload with this index, if there is one.
    fn tree(&self, index: usize) -> Option<&InsideTree<'a>>
        ensures { option_map (λ tree. tree.now) result
            ≡ tree_with_index self.now.trees.items (Some index) }
    {
        match self.trees.get(index) {
            Some(tree) => tree.as_ref(),
            None => None,
        }
    }

    /// Returns whether the payload at a place is a devicetree.
    pub(crate) fn has_tree_at(&self, place: &PayloadPlace) -> bool
        ensures { result ≡ is_some (made_tree_at self.now (place_of_payload place.now)) }
    {
        self.tree_at(place).is_some()
    }

    /// Leaves these words out of the trees.
    ///
    /// Fails only if memory runs out.
    pub(crate) fn leave_out(&mut self, alloc: Global, words: &[Ignored]) -> Result<(), AllocError>
        ensures { OnOk result ((insides : Trees) → HoldInsides (whole_devicetrees insides) self.old
            → HoldInsides (tree_at_without (ignored_words words.now) insides) self.new) }
    {
        for index in 0..words.len() {
            self.leave_out_word(alloc, words, index)?;
        }
        Ok(())
    }

    /// Leaves these words out of the tree that the word with this index is for something inside of,
    /// unless a word before it is. Requires: there is such a word.
    ///
    /// Fails only if memory runs out.
    fn leave_out_word(
        &mut self,
        alloc: Global,
        words: &[Ignored],
        index: usize,
    ) -> Result<(), AllocError>
        requires { index < length words.now }
        ensures { let words_are = ignored_words words.now in OnOk result ((insides : Trees)
            → HoldInsides (trees_after words_are (take index words_are) insides) self.old
            → HoldInsides (trees_after words_are (take (index + 1) words_are) insides) self.new) }
    {
        let Some(place) = payload_of_word(&words[index]) else {
            return Ok(());
        };
        if is_payload_of_one(&words[..index], place) {
            return Ok(());
        }
        self.leave_out_at(alloc, place, words)
    }

    /// Leaves these words out of the tree inside the payload at a place, if there is one.
    ///
    /// Fails only if memory runs out.
    fn leave_out_at(
        &mut self,
        alloc: Global,
        place: &PayloadPlace,
        words: &[Ignored],
    ) -> Result<(), AllocError>
        ensures { OnOk result ((insides : Trees) (trees : Place → Option ReducedTree)
            → trees (place_of_payload place.now)
            ≡ whole_devicetrees insides (place_of_payload place.now)
            → HoldInsides trees self.old → HoldInsides (with_tree_at (place_of_payload place.now)
            (tree_at_without (ignored_words words.now) insides (place_of_payload place.now)) trees)
            self.new) }
    {
        let Some(index) = self.index_of(place) else {
            return Ok(());
        };
        if index < self.trees.len() {
            leave_out_of(alloc, &mut self.trees[index], place, words)?;
        }
        Ok(())
    }

    /// Returns whether the trees inside the payloads at these places are the same.
    pub(crate) fn are_same_at(&self, other: &Insides<'_, '_>, opened: &[&PayloadPlace]) -> bool
        ensures { (trees others : Place → Option ReducedTree) → HoldInsides trees self.now
            → HoldInsides others other.now → IsTrue result
            ↔ ((place : Place) → IsTrue (is_one_of_places opened.now place)
            → trees place ≡ others place) }
    {
        for place in opened {
            if !self.is_same_at(other, place) {
                return false;
            }
        }
        true
    }

    /// Returns whether the trees inside the payloads at a place are the same, or there is none in
    /// both.
    fn is_same_at(&self, other: &Insides<'_, '_>, place: &PayloadPlace) -> bool
        ensures { (trees others : Place → Option ReducedTree) → HoldInsides trees self.now
            → HoldInsides others other.now → IsTrue result
            ↔ (trees (place_of_payload place.now) ≡ others (place_of_payload place.now)) }
    {
        match (self.tree_at(place), other.tree_at(place)) {
            (Some(tree), Some(other)) => tree.is_same(other),
            (None, None) => true,
            _ => false,
        }
    }

    /// Puts the lines of the devicetree inside the payload of the image with this name, if there is
    /// one.
    pub(crate) fn put_lines_of_image<L: DeepPen>(&mut self, name: &[u8], pen: &mut L)
        ensures put { (trees : Place → Option ReducedTree) → HoldInsides trees self.old
            → L.puts pen.old (tokens_of_lines
            (lines_at (OfImageNamed name.now) (trees (OfImageNamed name.now)))) pen.new }
        ensures same { (trees : Place → Option ReducedTree) → HoldInsides trees self.old
            → HoldInsides trees self.new }
    {
        if let Some(index) = self.index.of_image(name) {
            self.put_lines(index, pen);
        }
    }

    /// Puts the lines of the devicetree inside the payload with this index, if there is one.
    fn put_lines<L: DeepPen>(&mut self, index: usize, pen: &mut L)
        ensures put { (trees : Place → Option ReducedTree) (place : Place)
            → HoldInsides trees self.old
            → made_tree_at self.old place ≡ tree_with_index self.old.trees.items (Some index)
            → L.puts pen.old (tokens_of_lines (lines_at place (trees place))) pen.new }
        ensures same { (trees : Place → Option ReducedTree) → HoldInsides trees self.old
            → HoldInsides trees self.new }
    {
        if index < self.trees.len() {
            put_lines_of_tree(&mut self.trees[index], pen);
        }
    }

    /// Puts the member of the devicetree inside the payload of the image with this name, if there
    /// is one.
    pub(super) fn put_member_of_image<J: JsonPen>(&self, name: &[u8], json: &mut J)
        ensures { (insides : Trees) → HoldInsides (whole_devicetrees insides) self.now
            → J.puts json.old
            (member_tokens (inside_members (insides (OfImageNamed name.now)))) json.new }
    {
        if let Some(index) = self.index.of_image(name) {
            self.put_member(index, json);
        }
    }

    /// Puts the lines of the devicetree inside the part with this index, if there is one.
    pub(crate) fn put_lines_of_part<L: DeepPen>(&mut self, part: usize, pen: &mut L)
        ensures put { (trees : Place → Option ReducedTree) → HoldInsides trees self.old
            → L.puts pen.old (tokens_of_lines (lines_at (OfPart part) (trees (OfPart part))))
            pen.new }
        ensures same { (trees : Place → Option ReducedTree) → HoldInsides trees self.old
            → HoldInsides trees self.new }
    {
        if let Some(index) = self.index.of_part(part) {
            self.put_lines(index, pen);
        }
    }

    /// Puts the member of the devicetree inside the part with this index, if there is one.
    pub(super) fn put_member_of_part<J: JsonPen>(&self, part: usize, json: &mut J)
        ensures { (insides : Trees) → HoldInsides (whole_devicetrees insides) self.now
            → J.puts json.old
            (member_tokens (inside_members (insides (OfPart part)))) json.new }
    {
        if let Some(index) = self.index.of_part(part) {
            self.put_member(index, json);
        }
    }

    /// Puts the member of the devicetree inside the payload with this index, if there is one.
    fn put_member<J: JsonPen>(&self, index: usize, json: &mut J)
        ensures { (insides : Trees) (place : Place)
            → HoldInsides (whole_devicetrees insides) self.now
            → made_tree_at self.now place ≡ tree_with_index self.now.trees.items (Some index)
            → J.puts json.old (member_tokens (inside_members (insides place))) json.new }
    {
        if let Some(tree) = self.tree(index) {
            tree.put_member(json);
        }
    }
}

/// Leaves these words out of the tree inside the payload at a place, if there is one.
///
/// Fails only if memory runs out.
fn leave_out_of(
    alloc: Global,
    tree: &mut Option<InsideTree<'_>>,
    place: &PayloadPlace,
    words: &[Ignored],
) -> Result<(), AllocError>
    ensures { let place_is = place_of_payload place.now in OnOk result ((found : Option Devicetree)
        → HoldsAt place_is (option_map whole_devicetree found) tree.old → HoldsAt place_is
        (option_map (tree_without (ignored_words words.now) place_is) found) tree.new) }
{
    if let Some(tree) = tree {
        let inside = words_inside(alloc, place, words)?;
        tree.leave_out(alloc, &inside)?;
    }
    Ok(())
}

/// Puts the lines of a devicetree, if there is one.
fn put_lines_of_tree<L: DeepPen>(tree: &mut Option<InsideTree<'_>>, pen: &mut L)
    ensures put { (place : Place) (found : Option ReducedTree) → HoldsAt place found tree.old
        → L.puts pen.old (tokens_of_lines (lines_at place found)) pen.new }
    ensures same { (place : Place) (found : Option ReducedTree) → HoldsAt place found tree.old
        → HoldsAt place found tree.new }
{
    if let Some(tree) = tree {
        tree.put_lines(pen);
    }
}

/// Returns the blob in each payload of an image that is a devicetree.
///
/// Fails only if memory runs out.
fn blobs_of_image<'a>(
    alloc: Global,
    image: &BootImage<'a>,
    limits: Limits,
) -> Result<Vec<Option<Blob<'a>>>, AllocError>
    ensures { IfOk result (λ blobs.
        AreBlobsInside limits (payloads_in (meaning_of image.now)) blobs.items) }
{
    match image {
        BootImage::Legacy(image) => blobs_of_parts(alloc, image, limits),
        BootImage::Fit(fit) => blobs_of_images(alloc, fit.images(), limits),
    }
}

/// Returns the blob in each part that is a devicetree.
///
/// Fails only if memory runs out.
fn blobs_of_parts<'a>(
    alloc: Global,
    image: &Legacy<'a>,
    limits: Limits,
) -> Result<Vec<Option<Blob<'a>>>, AllocError>
    ensures { IfOk result (λ blobs.
        AreBlobsInside limits (map Some image.now.image.parts) blobs.items) }
{
    let mut blobs = Vec::with_capacity(alloc, image.part_count())?;
    for part in image.parts() {
        blobs.push(read_blob(alloc, part.bytes, limits)?)?;
    }
    Ok(blobs)
}

/// Returns the blob in the payload of each image, if it is a devicetree.
///
/// Fails only if memory runs out.
fn blobs_of_images<'a>(
    alloc: Global,
    images: &[Image<'a>],
    limits: Limits,
) -> Result<Vec<Option<Blob<'a>>>, AllocError>
    ensures { IfOk result (λ blobs. AreBlobsInside limits
        (payloads_of_models (map image_model images.now)) blobs.items) }
{
    let mut blobs = Vec::with_capacity(alloc, images.len())?;
    for image in images {
        blobs.push(blob_of_image(alloc, image.payload, limits)?)?;
    }
    Ok(blobs)
}

/// Returns the blob in the payload of an image, if there is one that is a devicetree.
///
/// Fails only if memory runs out.
fn blob_of_image<'a>(
    alloc: Global,
    payload: Option<&'a [u8]>,
    limits: Limits,
) -> Result<Option<Blob<'a>>, AllocError>
    ensures { IfOk result (HasBlob limits (option_map (λ bytes. bytes.now) payload.entry)) }
{
    match payload {
        Some(payload) => read_blob(alloc, payload, limits),
        None => Ok(None),
    }
}

/// Returns the devicetrees that are these blobs, inside the payloads with their indices.
///
/// Errors: TooLarge at the limit, if the long names of properties in all of them together are
/// longer than that; OutOfMemory.
fn trees_of_blobs<'a>(
    alloc: Global,
    blobs: Vec<Option<Blob<'a>>>,
    index: &PayloadIndex,
    limits: Limits,
) -> Result<Vec<Option<InsideTree<'a>>>, Error>
    requires { AllByRecursion (IsBlobOrNone limits) blobs.items }
    ensures held { IfOk result (λ trees.
        HoldBlobs index.now 0 blobs.entry.items trees.items) }
    ensures failed { IfErr result
        (IsNamesError limits.file limits.file (long_names_in blobs.entry.items)) }
{
    let mut trees = Vec::with_capacity(alloc, blobs.len())?;
    let mut room = limits.file() as usize;
    for blob in blobs {
        let path = index.path(alloc, trees.len())?;
        trees.push(tree_of(alloc, path, blob, &mut room, limits)?)?;
    }
    Ok(trees)
}

/// Returns the devicetree that is this blob, if there is one, inside the payload with this path.
/// There is room for so many bytes of long names of properties, and less after the call.
///
/// Errors: TooLarge at the limit, if they are longer; OutOfMemory.
fn tree_of<'a>(
    alloc: Global,
    path: Vec<u8>,
    blob: Option<Blob<'a>>,
    room: &mut usize,
    limits: Limits,
) -> Result<Option<InsideTree<'a>>, Error>
    requires { IsBlobOrNone limits blob }
    ensures held { IfOk result (HoldsBlob path.items blob.entry) }
    ensures room { OnOk result
        (room.old ≤ room.new + long_names (option_map devicetree_of blob.entry)) }
    ensures failed { IfErr result
        (IsNamesError limits.file room.old
        (long_names (option_map devicetree_of blob.entry))) }
{
    match blob {
        Some(blob) => Ok(Some(InsideTree::new(alloc, path, blob, room, limits)?)),
        None => Ok(None),
    }
}

/// Returns the path of the payload of the image with this name. Fails if memory runs out.
fn path_of_image(alloc: Global, name: &[u8]) -> Result<Vec<u8>, Error>
    ensures path { IfOk result (λ path. path.items ≡ payload_path (OfImageNamed name.now)) }
    ensures failed { IfErr result (λ error. error ≡ OutOfMemory) }
{
    let mut pen = MemoryPen::new(alloc);
    put_field(Field::Path(&[b"images".as_slice(), name]), &mut pen);
    pen.into_vec()
}

/// Returns the path of the part with this index. Fails if memory runs out.
fn path_of_part(alloc: Global, index: usize) -> Result<Vec<u8>, Error>
    ensures path { IfOk result (λ path. path.items ≡ payload_path (OfPart index)) }
    ensures failed { IfErr result (λ error. error ≡ OutOfMemory) }
{
    let mut pen = MemoryPen::new(alloc);
    pen.put(b"part-");
    put_decimal(index as u64, &mut pen);
    pen.into_vec()
}

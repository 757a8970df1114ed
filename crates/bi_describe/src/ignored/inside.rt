//! Words for what is inside payloads.

ghost use Rattle.std.specs.Prelude.{◌≡◌, ◌++◌, IfOk, OnOk};
ghost use Rattle.std.specs.List.{list_any};
ghost use Rattle.bi_describe.specs.Ignoring.{OfImageNamed, OfPart, PayloadPlace as Place};
ghost use Rattle.bi_describe.specs.MadeInsides.{has_place, is_one_of_places};
ghost use Rattle.bi_describe.specs.MadeWords.{ignored_word, ignored_words, node_place};
ghost use Rattle.bi_describe.specs.MadeWords.{place_of_payload};
ghost use Rattle.bi_describe.specs.OpenedPayloads.{as_own_word, own_place as place_in_own};
ghost use Rattle.bi_describe.specs.OpenedPayloads.{is_payload_ignored as is_payload_out};
ghost use Rattle.bi_describe.specs.OpenedPayloads.{is_same_payload as is_same};
ghost use Rattle.bi_describe.specs.OpenedPayloads.{is_word_inside as word_is_inside};
ghost use Rattle.bi_describe.specs.OpenedPayloads.{word_inside as inner_word};
ghost use Rattle.bi_describe.specs.OpenedPayloads.{words_inside as inner_words};

use super::{Ignored, NodePlace, PayloadPlace, TreePlace, is_node_ignored, is_part_ignored};
use std::alloc::{AllocError, Global};

/// Returns whether the payload of the image with this name is among those at these places.
pub(crate) fn has_image(places: &[&PayloadPlace], name: &[u8]) -> bool
    ensures { result ≡ is_one_of_places places.now (OfImageNamed name.now) }
{
    for place in places {
        if is_place_of_image(place, name) {
            return true;
        }
    }
    false
}

/// Returns whether the part with this index is among those at these places.
pub(crate) fn has_part(places: &[&PayloadPlace], index: usize) -> bool
    ensures { result ≡ is_one_of_places places.now (OfPart index) }
{
    for place in places {
        if is_place_of_part(place, index) {
            return true;
        }
    }
    false
}

/// Returns whether a place is that of the payload of the image with this name.
fn is_place_of_image(place: &PayloadPlace, name: &[u8]) -> bool
    ensures { result ≡ is_same (OfImageNamed name.now) (place_of_payload place.now) }
{
    match place {
        PayloadPlace::Image(other) => other.as_slice() == name,
        PayloadPlace::Part(_) => false,
    }
}

/// Returns whether a place is that of the part with this index.
fn is_place_of_part(place: &PayloadPlace, index: usize) -> bool
    ensures { result ≡ is_same (OfPart index) (place_of_payload place.now) }
{
    match place {
        PayloadPlace::Image(_) => false,
        PayloadPlace::Part(other) => index as u64 == *other,
    }
}

/// Returns whether two places are the same.
fn is_same_payload(one: &PayloadPlace, other: &PayloadPlace) -> bool
    ensures { result ≡ is_same (place_of_payload one.now) (place_of_payload other.now) }
{
    match (one, other) {
        (PayloadPlace::Image(name), PayloadPlace::Image(other)) => {
            name.as_slice() == other.as_slice()
        }
        (PayloadPlace::Part(index), PayloadPlace::Part(other)) => index == other,
        _ => false,
    }
}

/// Returns the payload that a word is for something inside of, if it is.
pub(crate) fn payload_of_word(word: &Ignored) -> Option<&PayloadPlace>
    ensures { (payload : Place) → has_place payload result
        ≡ word_is_inside payload (ignored_word word.now) }
{
    match word {
        Ignored::Node(place) | Ignored::Property(place, _) => match &place.tree {
            TreePlace::Inside(payload) => Some(payload),
            TreePlace::Itself => None,
        },
        _ => None,
    }
}

/// Returns whether one of these words is for something inside the payload at a place.
pub(crate) fn is_payload_of_one(words: &[Ignored], payload: &PayloadPlace) -> bool
    ensures { result ≡ list_any (word_is_inside (place_of_payload payload.now))
        (ignored_words words.now) }
{
    for word in words {
        if is_word_inside(payload, word) {
            return true;
        }
    }
    false
}

/// Returns whether a word is for something inside the payload at a place.
fn is_word_inside(payload: &PayloadPlace, word: &Ignored) -> bool
    ensures { result ≡ word_is_inside (place_of_payload payload.now) (ignored_word word.now) }
{
    match payload_of_word(word) {
        Some(other) => is_same_payload(payload, other),
        None => false,
    }
}

/// Returns whether the payload at a place is left out as a whole.
pub(crate) fn is_payload_ignored(words: &[Ignored], payload: &PayloadPlace) -> bool
    ensures { result ≡ is_payload_out (ignored_words words.now) (place_of_payload payload.now) }
{
    match payload {
        PayloadPlace::Image(name) => {
            is_node_ignored(words, &[])
                || is_node_ignored(words, &[b"images".as_slice()])
                || is_node_ignored(words, &[b"images".as_slice(), name.as_slice()])
        }
        PayloadPlace::Part(index) => match usize::try_from(*index) {
            Ok(index) => is_part_ignored(words, index),
            Err(_) => false,
        },
    }
}

/// Returns what words leave out of the tree inside the payload at this place, as words for that
/// tree.
///
/// Fails only if memory runs out.
pub(crate) fn words_inside(
    alloc: Global,
    payload: &PayloadPlace,
    words: &[Ignored],
) -> Result<Vec<Ignored>, AllocError>
    ensures { IfOk result (λ inside. ignored_words inside.items
        ≡ inner_words (place_of_payload payload.now) (ignored_words words.now)) }
{
    let mut inside = Vec::new(alloc);
    for word in words {
        push_if_inside(alloc, &mut inside, payload, word)?;
    }
    Ok(inside)
}

/// Appends a word as one for the tree inside the payload at this place, if it is for something
/// there.
///
/// Fails only if memory runs out.
fn push_if_inside(
    alloc: Global,
    inside: &mut Vec<Ignored>,
    payload: &PayloadPlace,
    word: &Ignored,
) -> Result<(), AllocError>
    ensures { OnOk result (ignored_words inside.new.items ≡ ignored_words inside.old.items
        ++ inner_word (place_of_payload payload.now) (ignored_word word.now)) }
{
    if is_word_inside(payload, word) {
        inside.push(own_word(alloc, word)?)?;
    }
    Ok(())
}

/// Returns a word for something inside a payload as one for the tree that is there.
///
/// Fails only if memory runs out.
fn own_word(alloc: Global, word: &Ignored) -> Result<Ignored, AllocError>
    ensures { IfOk result (λ own. ignored_word own ≡ as_own_word (ignored_word word.now)) }
{
    Ok(match word {
        Ignored::Node(place) => Ignored::Node(own_place(alloc, place)?),
        Ignored::Property(place, name) => {
            Ignored::Property(own_place(alloc, place)?, copy_of(alloc, name)?)
        }
        Ignored::Time => Ignored::Time,
        Ignored::Signatures => Ignored::Signatures,
        Ignored::Part(index) => Ignored::Part(*index),
    })
}

/// Returns the node with the same path in its own tree.
///
/// Fails only if memory runs out.
fn own_place(alloc: Global, place: &NodePlace) -> Result<NodePlace, AllocError>
    ensures { IfOk result (λ own. node_place own ≡ place_in_own (node_place place.now)) }
{
    let mut names = Vec::with_capacity(alloc, place.names.len())?;
    for name in &place.names {
        names.push(copy_of(alloc, name)?)?;
    }
    Ok(NodePlace {
        tree: TreePlace::Itself,
        names,
    })
}

/// Returns a copy of a name.
///
/// Fails only if memory runs out.
fn copy_of(alloc: Global, name: &[u8]) -> Result<Vec<u8>, AllocError>
    ensures { IfOk result (λ copy. copy.items ≡ name.now) }
{
    let mut copy = Vec::with_capacity(alloc, name.len())?;
    copy.extend_from_slice(name)?;
    Ok(copy)
}

//! The words for edits on the command line.

ghost use Rattle.std.specs.Prelude.{◌≡◌, ◌≢◌, ◌≤◌, ◌++◌, ℕ, List, codes, length};
ghost use Rattle.std.specs.Prelude.{IfOk, IfErr, IfSome, IfNone};
ghost use Rattle.std.specs.Option.{option_map};
ghost use Rattle.bi_base.specs.declared.fault.Error.TheVariants.{OutOfMemory};
ghost use Rattle.bi_edit.specs.declared.edit.Edit.{Edit};
ghost use Rattle.bi_edit.specs.declared.edit.Edit.TheVariants.{RemoveNode};
ghost use Rattle.bi_edit.specs.Places.{IsRemovable, PropertyPlaceModel};
ghost use Rattle.bi_edit.specs.EditWords.{IsPayloadWord, IsRemovalWord, IsSettingWord};
ghost use Rattle.bi_edit.specs.EditWords.{IsValueAfter};

mod cut;
mod names;
mod paths;
mod values;

use crate::edit::Edit;
use crate::places::{ImageName, NodePath, NodePlace, PropertyPlace};
use bi_base::Error;
use cut::cut;
pub use names::{child_name, property_name};
pub use paths::node_path;
use std::alloc::Global;
pub use values::parse_value;

/// Parses the word for a removal: the path of a node, or the path and the name of a property with a
/// space between them, each as it is printed. Returns None exactly for any other word, for the root
/// and the node `images` below it, and for a property of an image node that holds its payload or
/// names its region.
///
/// Fails only with OutOfMemory.
pub fn parse_removal<'a>(alloc: Global, word: &[u8]) -> Result<Option<Edit<'a>>, Error>
    ensures some { IfOk result (λ found. IfSome found (λ edit. IsRemovalWord word.now edit)) }
    ensures none { IfOk result (λ found. IfNone found
        ((edit : Edit) → IsRemovalWord word.now edit → ⊥)) }
    ensures failed { IfErr result (λ error. error ≡ OutOfMemory) }
{
    let (first, name) = cut(word, b' ');
    let Some(path) = node_path(alloc, first)? else {
        return Ok(None);
    };
    let Some(name) = name else {
        return Ok(removed_node(path));
    };
    let Some(name) = property_name(alloc, name)? else {
        return Ok(None);
    };
    match PropertyPlace::new(path, name) {
        Some(place) => Ok(Some(Edit::RemoveProperty(place))),
        None => Ok(None),
    }
}

/// Returns the edit that removes the node at a path. Returns None if and only if it cannot be
/// removed.
fn removed_node<'a>(path: NodePath) -> Option<Edit<'a>>
    ensures some { IfSome result (λ edit. (edit ≡ RemoveNode path) × IsRemovable path) }
    ensures none { IfNone result (IsRemovable path → ⊥) }
{
    match NodePlace::new(path) {
        Some(place) => Some(Edit::RemoveNode(place)),
        None => None,
    }
}

/// A new value of a property.
#[derive(Drop)]
pub struct Setting {
    /// The property.
    pub place: PropertyPlace,
    /// The value.
    pub value: Vec<u8>,
}

/// Parses the word for a new value of a property: the path of its node, its name, and the value
/// unless it is empty, with a space between each two. Path and name are as they are printed. So is
/// the value; or it is `0x` and an even number of hexadecimal digits of either case. Returns None
/// exactly for any other word, and for a property of an image node that holds its payload or names
/// its region.
///
/// Fails only with OutOfMemory.
pub fn parse_setting(alloc: Global, word: &[u8]) -> Result<Option<Setting>, Error>
    ensures some { IfOk result (λ found. IfSome found (λ setting.
        IsSettingWord word.now setting.place setting.value.items)) }
    ensures none { IfOk result (λ found. IfNone found
        ((place : PropertyPlaceModel) (value : List ℕ) → IsSettingWord word.now place value → ⊥)) }
    ensures failed { IfErr result (λ error. error ≡ OutOfMemory) }
{
    let (first, rest) = cut(word, b' ');
    let Some(rest) = rest else {
        return Ok(None);
    };
    let (second, text) = cut(rest, b' ');
    let Some(path) = node_path(alloc, first)? else {
        return Ok(None);
    };
    let Some(name) = property_name(alloc, second)? else {
        return Ok(None);
    };
    let Some(place) = PropertyPlace::new(path, name) else {
        return Ok(None);
    };
    let Some(value) = value_after(alloc, text)? else {
        return Ok(None);
    };
    Ok(Some(Setting { place, value }))
}

/// Parses the text for a value, if there is one. Without a text the value is empty.
fn value_after(alloc: Global, text: Option<&[u8]>) -> Result<Option<Vec<u8>>, Error>
    ensures some { let after = option_map (λ text. text.now) text.entry in
        IfOk result (λ found. IfSome found (λ value. IsValueAfter after value.items)) }
    ensures none { let after = option_map (λ text. text.now) text.entry in
        IfOk result (λ found. IfNone found ((value : List ℕ) → IsValueAfter after value → ⊥)) }
    ensures failed { IfErr result (λ error. error ≡ OutOfMemory) }
{
    let Some(text) = text else {
        return Ok(Some(Vec::new(alloc)));
    };
    if text.is_empty() {
        return Ok(None);
    }
    parse_value(alloc, text)
}

/// Where the payload of an image comes from.
#[derive(Drop)]
pub struct PayloadWord<'a> {
    /// The name of the image.
    pub image: ImageName,
    /// The name of the file that has the payload.
    pub file: &'a str,
}

/// Parses the word for a new payload: the name of an image as it is printed, `=@`, and the name of
/// a file. The name of the image ends at the first `=@`. Returns None for any other word, and
/// for one with an empty name of the file.
///
/// Fails only with OutOfMemory.
pub fn parse_payload<'a>(alloc: Global, word: &'a str) -> Result<Option<PayloadWord<'a>>, Error>
    ensures some { IfOk result (λ found. IfSome found (λ payload.
        IsPayloadWord word.entry.now payload.image payload.file.now)) }
    ensures none { IfOk result (λ found. IfNone found
        ((image file : List ℕ) → IsPayloadWord word.entry.now image file → ⊥)) }
    ensures failed { IfErr result (λ error. error ≡ OutOfMemory) }
{
    let Some((shown, file)) = split_word(word) else {
        return Ok(None);
    };
    if file.is_empty() {
        return Ok(None);
    }
    let Some(name) = child_name(alloc, shown.as_bytes())? else {
        return Ok(None);
    };
    let Some(image) = ImageName::new(name) else {
        return Ok(None);
    };
    Ok(Some(PayloadWord { image, file }))
}

/// Returns what is before the first `=@` of a word, and what is after it. Returns None if there is
/// none.
fn split_word(word: &str) -> Option<(&str, &str)>
    ensures some { IfSome result (λ parts.
        word.entry.now ≡ parts.0.now ++ (codes "=@" ++ parts.1.now)) }
    ensures first { IfSome result (λ parts. (before after : List ℕ)
        → word.entry.now ≡ before ++ (codes "=@" ++ after) → length parts.0.now ≤ length before) }
    ensures none { IfNone result ((before after : List ℕ)
        → word.entry.now ≢ before ++ (codes "=@" ++ after)) }
{
    word.split_once("=@")
}

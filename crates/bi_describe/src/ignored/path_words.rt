//! Words with a path, for what is ignored.

ghost use Rattle.std.specs.Prelude.{◌≡◌, ◌≢◌, ◌==◌, ◌&&◌, ◌++◌, ◌∷◌, IfOk, IfErr, IfSome, IfNone};
ghost use Rattle.std.specs.Prelude.{ℕ, None, false};
ghost use Rattle.std.specs.Fmt.{decimal};
ghost use Rattle.std.specs.List.{AllByRecursion, position};
ghost use Rattle.bi_base.specs.declared.fault.Error.TheVariants.{OutOfMemory};
ghost use Rattle.bi_describe.specs.IgnoredWords.{IsNoWordWithPath, IsWordWithPath};
ghost use Rattle.bi_describe.specs.MadeWords.{ignored_word, node_place, place_of_payload};
ghost use Rattle.bi_describe.specs.WordParts.{IsNoNumber, IsNoPart, IsNoPayload, IsNoPlace};
ghost use Rattle.bi_describe.specs.WordParts.{IsShownNumber, IsShownPart, IsPayloadPath};
ghost use Rattle.bi_describe.specs.WordParts.{IsShownPlace, IsSplit, has_two_slashes};

use super::{Ignored, NodePlace, PayloadPlace, TreePlace};
use bi_base::Error;
use bi_values::paths::{child_name_shown_as, path_shown_as, property_name_shown_as};
use itoa::Buffer;
use std::alloc::Global;

/// Returns what a word with a path leaves out. Returns None if the text is no such word. Fails if
/// memory runs out.
pub(super) fn path_word(alloc: Global, text: &[u8]) -> Result<Option<Ignored>, Error>
    ensures some { IfOk result (λ found. IfSome found (λ word.
        IsWordWithPath text.now (ignored_word word))) }
    ensures none { IfOk result (λ found. IfNone found (IsNoWordWithPath text.now)) }
    ensures failed { IfErr result (λ error. error ≡ OutOfMemory) }
{
    match position_of_space(text) {
        Some(space) => property_word(alloc, &text[..space], &text[space + 1..]),
        None => node_word(alloc, text),
    }
}

/// Returns what a word leaves out: a part, or a node. Returns None if the text is no word with a
/// path. Fails if memory runs out. Requires: it has no space.
fn node_word(alloc: Global, text: &[u8]) -> Result<Option<Ignored>, Error>
    requires { position (λ byte. byte == 32) text.now ≡ None }
    ensures some { IfOk result (λ found. IfSome found (λ word.
        IsWordWithPath text.now (ignored_word word))) }
    ensures none { IfOk result (λ found. IfNone found (IsNoWordWithPath text.now)) }
    ensures failed { IfErr result (λ error. error ≡ OutOfMemory) }
{
    if let Some(index) = part_shown_as(text) {
        return Ok(Some(Ignored::Part(index)));
    }
    match node_shown_as(alloc, text)? {
        Some(place) => Ok(Some(Ignored::Node(place))),
        None => Ok(None),
    }
}

/// Returns what the word leaves out that consists of these texts with a space between them: a
/// property. Returns None if that is no word with a path. Fails if memory runs out. Requires: the
/// first text has no space.
fn property_word(alloc: Global, path: &[u8], name: &[u8]) -> Result<Option<Ignored>, Error>
    requires { AllByRecursion (λ byte. byte ≢ 32) path.now }
    ensures some { IfOk result (λ found. IfSome found (λ word.
        IsWordWithPath (path.now ++ (32 ∷ name.now)) (ignored_word word))) }
    ensures none { IfOk result (λ found. IfNone found
        (IsNoWordWithPath (path.now ++ (32 ∷ name.now)))) }
    ensures failed { IfErr result (λ error. error ≡ OutOfMemory) }
{
    let Some(place) = node_shown_as(alloc, path)? else {
        return Ok(None);
    };
    match property_name_shown_as(alloc, name)? {
        Some(name) => Ok(Some(Ignored::Property(place, name))),
        None => Ok(None),
    }
}

/// Returns the index of the first space, if there is one.
fn position_of_space(text: &[u8]) -> Option<usize>
    ensures { result ≡ position (λ byte. byte == 32) text.now }
{
    text.iter().position(|&byte| byte == b' ')
}

/// Returns the node with this path as it is printed. Returns None if the text is the path of no
/// node. Fails if memory runs out.
fn node_shown_as(alloc: Global, text: &[u8]) -> Result<Option<NodePlace>, Error>
    ensures some { IfOk result (λ found. IfSome found (λ place.
        IsShownPlace text.now (node_place place))) }
    ensures none { IfOk result (λ found. IfNone found (IsNoPlace text.now)) }
    ensures failed { IfErr result (λ error. error ≡ OutOfMemory) }
{
    match split_at_two_slashes(text) {
        Some((payload, path)) => inner_node(alloc, payload, path),
        None => own_node(alloc, text),
    }
}

/// Returns the node of the image itself with this path. Returns None if the text is the path of no
/// node. Fails if memory runs out. Requires: it has no two slashes one after the other.
fn own_node(alloc: Global, path: &[u8]) -> Result<Option<NodePlace>, Error>
    requires { has_two_slashes path.now ≡ false }
    ensures some { IfOk result (λ found. IfSome found (λ place.
        IsShownPlace path.now (node_place place))) }
    ensures none { IfOk result (λ found. IfNone found (IsNoPlace path.now)) }
    ensures failed { IfErr result (λ error. error ≡ OutOfMemory) }
{
    match path_shown_as(alloc, path)? {
        Some(names) => Ok(Some(NodePlace {
            tree: TreePlace::Itself,
            names,
        })),
        None => Ok(None),
    }
}

/// Returns the node with this path, inside the payload with that path. Returns None if there is no
/// such node. Fails if memory runs out. Requires: these are the parts of a text that is split at
/// its first two slashes one after the other.
fn inner_node(alloc: Global, payload: &[u8], path: &[u8]) -> Result<Option<NodePlace>, Error>
    requires { IsSplit (payload.now ++ (47 ∷ path.now)) payload.now path.now }
    ensures some { IfOk result (λ found. IfSome found (λ place.
        IsShownPlace (payload.now ++ (47 ∷ path.now)) (node_place place))) }
    ensures none { IfOk result (λ found. IfNone found
        (IsNoPlace (payload.now ++ (47 ∷ path.now)))) }
    ensures failed { IfErr result (λ error. error ≡ OutOfMemory) }
{
    let Some(payload) = payload_shown_as(alloc, payload)? else {
        return Ok(None);
    };
    match path_shown_as(alloc, path)? {
        Some(names) => Ok(Some(NodePlace {
            tree: TreePlace::Inside(payload),
            names,
        })),
        None => Ok(None),
    }
}

/// Returns the payload with this path as it is printed. Returns None if the text is the path of no
/// payload. Fails if memory runs out.
fn payload_shown_as(alloc: Global, text: &[u8]) -> Result<Option<PayloadPlace>, Error>
    ensures some { IfOk result (λ found. IfSome found (λ payload.
        IsPayloadPath text.now (place_of_payload payload))) }
    ensures none { IfOk result (λ found. IfNone found (IsNoPayload text.now)) }
    ensures failed { IfErr result (λ error. error ≡ OutOfMemory) }
{
    if let Some(index) = part_shown_as(text) {
        return Ok(Some(PayloadPlace::Part(index)));
    }
    let Some(name) = text.strip_prefix(b"/images/".as_slice()) else {
        return Ok(None);
    };
    match child_name_shown_as(alloc, name)? {
        Some(name) => Ok(Some(PayloadPlace::Image(name))),
        None => Ok(None),
    }
}

/// Returns what is before the first two slashes one after the other, and the text from the second
/// of them on. Returns None if there are no such slashes.
fn split_at_two_slashes(text: &[u8]) -> Option<(&[u8], &[u8])>
    ensures some { IfSome result (λ split. IsSplit text.now split.0.now split.1.now) }
    ensures none { IfNone result (has_two_slashes text.now ≡ false) }
{
    let mut end = 0;
    while end + 1 < text.len() {
        if are_slashes(text[end], text[end + 1]) {
            return Some((&text[..end], &text[end + 1..]));
        }
        end += 1;
    }
    None
}

/// Returns whether both bytes are slashes.
fn are_slashes(one: u8, other: u8) -> bool
    ensures { result ≡ (one == 47 && other == 47) }
{
    one == b'/' && other == b'/'
}

/// Returns the index of the part with this path: `part-` and the index in decimal digits. Returns
/// None if the text is the path of no part.
fn part_shown_as(text: &[u8]) -> Option<u64>
    ensures some { IfSome result (IsShownPart text.now) }
    ensures none { IfNone result (IsNoPart text.now) }
{
    match text.strip_prefix(b"part-".as_slice()) {
        Some(digits) => number_shown_as(digits),
        None => None,
    }
}

/// Returns the number below 2^64 that is printed as these decimal digits. Returns None if none is.
fn number_shown_as(digits: &[u8]) -> Option<u64>
    ensures some { IfSome result (IsShownNumber digits.now) }
    ensures none { IfNone result (IsNoNumber digits.now) }
{
    match str::from_utf8(digits) {
        Ok(digits) => number_of_text(digits),
        Err(_) => None,
    }
}

/// Returns the number below 2^64 that is printed as this text. Returns None if none is: for example
/// for `01` and `+1`.
fn number_of_text(text: &str) -> Option<u64>
    ensures some { IfSome result (IsShownNumber text.now) }
    ensures none { IfNone result (IsNoNumber text.now) }
{
    match text.parse::<u64>() {
        Ok(number) => number_if_shown(number, text),
        Err(_) => None,
    }
}

/// Returns the number, if it is printed as this text.
fn number_if_shown(number: u64, text: &str) -> Option<u64>
    ensures some { IfSome result (IsShownNumber text.now) }
    ensures same { IfSome result (λ found. found ≡ number) }
    ensures none { IfNone result (decimal number ≢ text.now) }
{
    if Buffer::new().format(number) == text {
        Some(number)
    } else {
        None
    }
}

//! The entries of a tree that stay.

ghost use Rattle.std.specs.Prelude.{◌≡◌, ◌↔◌, ◌<◌, ◌≤◌, ◌+◌, ◌++◌, ◌^◌, IfOk, IsTrue, OnOk, []};
ghost use Rattle.std.specs.Prelude.{length, map};
ghost use Rattle.bi_common.specs.MadeFields.{bytes_of_names};
ghost use Rattle.bi_describe.specs.DeepEntries.{last_begun as last_begun_of};
ghost use Rattle.bi_describe.specs.ImagePayloads.{bytes_of_payload};
ghost use Rattle.bi_describe.specs.KeptEntries.{is_entry_ignored as is_ignored_entry};
ghost use Rattle.bi_describe.specs.KeptEntries.{is_entry_kept as is_kept_entry};
ghost use Rattle.bi_describe.specs.KeptEntries.{kept_entries as kept_entries_of, kept_entry};
ghost use Rattle.bi_describe.specs.KeptEntries.{skipped_after as skipped_after_of};
ghost use Rattle.bi_describe.specs.MadeInsides.{is_one_of_places};
ghost use Rattle.bi_describe.specs.MadeWords.{ignored_words};
ghost use Rattle.bi_describe.specs.OpenedEntries.{entries_unless_opened, entry_unless_opened};
ghost use Rattle.bi_describe.specs.TreeEntries.{as_entry, most_open as most_open_of};

use crate::describe::entries::Entry;
use crate::describe::image_payload::ImagePayload;
use crate::describe::lines::{most_open, open_after};
use crate::ignored::{Ignored, PayloadPlace, has_image, is_node_ignored, is_property_ignored};
use std::alloc::{AllocError, Global};

/// Returns the entries of a tree that stay.
///
/// Fails only if memory runs out.
pub(super) fn kept_entries<'a>(
    alloc: Global,
    entries: &[Entry<'a>],
    words: &[Ignored],
) -> Result<Vec<Entry<'a>>, AllocError>
    ensures { IfOk result (λ kept. map as_entry kept.items
        ≡ kept_entries_of (ignored_words words.now) [] 0 (map as_entry entries.now)) }
{
    let mut names = vec![in alloc; b"".as_slice(); most_open(entries)]?;
    let mut kept = Vec::new(alloc);
    keep_entries(&mut kept, entries, words, &mut names)?;
    Ok(kept)
}

/// Appends the entries of a tree that stay. Requires: `names` has room for the names of all nodes
/// that are open at once.
///
/// Fails only if memory runs out.
fn keep_entries<'a>(
    kept: &mut Vec<Entry<'a>>,
    entries: &[Entry<'a>],
    words: &[Ignored],
    names: &mut [&'a [u8]],
) -> Result<(), AllocError>
    requires { most_open_of 0 (map as_entry entries.now) ≤ length names.old }
    ensures { OnOk result (map as_entry kept.new.items ≡ map as_entry kept.old.items
        ++ kept_entries_of (ignored_words words.now) [] 0 (map as_entry entries.now)) }
{
    let mut open = 0;
    let mut skipped = 0;
    for entry in entries {
        open = open_after(*entry, names, open);
        let now = &names[..open];
        push_if_kept(kept, *entry, words, now, skipped)?;
        skipped = skipped_after(words, now, skipped, *entry);
    }
    Ok(())
}

/// Appends an entry, if it stays. These nodes are open after it, and so many are open before it
/// from the one on that is left out.
///
/// Fails only if memory runs out.
fn push_if_kept<'a>(
    kept: &mut Vec<Entry<'a>>,
    entry: Entry<'a>,
    words: &[Ignored],
    names: &[&[u8]],
    skipped: usize,
) -> Result<(), AllocError>
    ensures { OnOk result (map as_entry kept.new.items ≡ map as_entry kept.old.items
        ++ kept_entry (ignored_words words.now) (bytes_of_names names.now) skipped
        (as_entry entry.entry)) }
{
    if is_entry_kept(words, names, skipped, entry) {
        kept.push(entry)?;
        return Ok(());
    }
    Ok(())
}

/// Returns whether an entry stays. These nodes are open after it, and so many are open before it
/// from the one on that is left out.
fn is_entry_kept(words: &[Ignored], names: &[&[u8]], skipped: usize, entry: Entry) -> bool
    ensures { result ≡ is_kept_entry (ignored_words words.now) (bytes_of_names names.now) skipped
        (as_entry entry.entry) }
{
    skipped == 0 && !is_entry_ignored(words, names, entry)
}

/// Returns whether an entry is about a node or a property that is left out, and not only because a
/// node above it is. These nodes are open after it.
fn is_entry_ignored(words: &[Ignored], names: &[&[u8]], entry: Entry) -> bool
    ensures { result ≡ is_ignored_entry (ignored_words words.now) (bytes_of_names names.now)
        (as_entry entry.entry) }
{
    match entry {
        Entry::Begin(_) => is_node_ignored(words, names),
        Entry::Property { name, .. } => is_property_ignored(words, names, name),
        _ => false,
    }
}

/// Returns how many nodes are open after an entry from the one on that is left out, if so many were
/// before it. Requires: fewer than the greatest `usize` were.
fn skipped_after(words: &[Ignored], names: &[&[u8]], skipped: usize, entry: Entry) -> usize
    requires { skipped + 1 < 2 ^ 64 }
    ensures { result ≡ skipped_after_of (ignored_words words.now) (bytes_of_names names.now)
        skipped (as_entry entry.entry) }
{
    match entry {
        Entry::Begin(_) => {
            if is_entry_kept(words, names, skipped, entry) {
                0
            } else {
                skipped + 1
            }
        }
        Entry::End => skipped.saturating_sub(1),
        _ => skipped,
    }
}

/// Returns whether these are the same entries.
pub(in crate::describe) fn are_same_entries(one: &[Entry], other: &[Entry]) -> bool
    ensures { IsTrue result ↔ (map as_entry one.now ≡ map as_entry other.now) }
{
    if one.len() != other.len() {
        return false;
    }
    for index in 0..one.len() {
        if !is_same_entry(one[index], other[index]) {
            return false;
        }
    }
    true
}

/// Returns whether these are the same entries but for these payloads. The others are compared byte
/// by byte.
pub(super) fn are_same_unless_opened(
    one: &[Entry],
    other: &[Entry],
    opened: &[&PayloadPlace],
) -> bool
    ensures { IsTrue result
        ↔ (entries_unless_opened (is_one_of_places opened.now) [] (map as_entry one.now)
        ≡ entries_unless_opened (is_one_of_places opened.now) [] (map as_entry other.now)) }
{
    if one.len() != other.len() {
        return false;
    }
    let mut last: &[u8] = b"";
    for index in 0..one.len() {
        if !is_same_unless_opened(one[index], other[index], last, opened) {
            return false;
        }
        last = last_begun(one[index], last);
    }
    true
}

/// Returns the name of the last node that began after an entry. Before it, that was this name.
fn last_begun<'a>(entry: Entry<'a>, last: &'a [u8]) -> &'a [u8]
    ensures { result.now ≡ last_begun_of last.entry.now (as_entry entry.entry) }
{
    match entry {
        Entry::Begin(name) => name,
        _ => last,
    }
}

/// Returns whether two entries are the same, or both are the payload of the image with this name,
/// and that is one of these.
fn is_same_unless_opened(one: Entry, other: Entry, name: &[u8], opened: &[&PayloadPlace]) -> bool
    ensures { IsTrue result
        ↔ (entry_unless_opened (is_one_of_places opened.now) name.now (as_entry one.entry)
        ≡ entry_unless_opened (is_one_of_places opened.now) name.now (as_entry other.entry)) }
{
    match (one, other) {
        (Entry::Payload(_), Entry::Payload(_)) if has_image(opened, name) => true,
        _ => is_same_entry(one, other),
    }
}

/// Returns whether two entries are the same. Payloads are compared byte by byte.
fn is_same_entry(one: Entry, other: Entry) -> bool
    ensures { IsTrue result ↔ (as_entry one.entry ≡ as_entry other.entry) }
{
    match (one, other) {
        (Entry::Begin(name), Entry::Begin(other)) => name == other,
        (Entry::Payload(payload), Entry::Payload(other)) => is_same_payload(payload, other),
        (
            Entry::Property { name, value },
            Entry::Property {
                name: other_name,
                value: other_value,
            },
        ) => name == other_name && value == other_value,
        (Entry::Properties, Entry::Properties)
        | (Entry::Children, Entry::Children)
        | (Entry::End, Entry::End) => true,
        _ => false,
    }
}

/// Returns whether two payloads have the same bytes, or there is none of both.
fn is_same_payload(one: ImagePayload, other: ImagePayload) -> bool
    ensures { IsTrue result ↔ (bytes_of_payload one.entry ≡ bytes_of_payload other.entry) }
{
    one.bytes == other.bytes
}

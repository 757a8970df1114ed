//! The lines of a tree, put to a pen.

ghost use Rattle.std.specs.Prelude.{◌≡◌, ◌≤◌, ◌<◌, ◌+◌, ◌^◌, [], length, map, max, take};
ghost use Rattle.bi_common.specs.LineTokens.{line_tokens, tokens_of_lines};
ghost use Rattle.bi_common.specs.MadeFields.{bytes_of_names};
ghost use Rattle.bi_describe.specs.ReadDescription.{root_lines};
ghost use Rattle.std.specs.Option.{option_map};
ghost use Rattle.bi_describe.specs.ComparedNodes.{ImageWith, described_payload};
ghost use Rattle.bi_describe.specs.Descriptions.{OfImage, node_line, payload_lines, property_line};
ghost use Rattle.bi_describe.specs.ImagePayloads.{bytes_of_payload};
ghost use Rattle.bi_describe.specs.MadeDigests.{digest_made};
ghost use Rattle.bi_describe.specs.TreeEntries.{entry_lines, lines_of_entry, as_entry};
ghost use Rattle.bi_describe.specs.TreeEntries.{count_after as count_after_of};
ghost use Rattle.bi_describe.specs.TreeEntries.{most_open as most_open_of};
ghost use Rattle.bi_describe.specs.TreeEntries.{open_after as open_after_of};

use super::entries::{Entry, PayloadDigest};
use super::image_payload::ImagePayload;
use bi_common::fields::Field;
use bi_common::lines::{LinePen, put_line};

/// Returns how many nodes are open at most.
pub(super) fn most_open(entries: &[Entry]) -> usize
    ensures { result ≡ most_open_of 0 (map as_entry entries.now) }
{
    let mut most = 0;
    let mut open = 0;
    for entry in entries {
        open = count_after(open, entry);
        most = greater(most, open);
    }
    most
}

/// Returns the greater of two numbers.
pub(super) fn greater(one: usize, other: usize) -> usize
    ensures { result ≡ max one other }
{
    if one < other { other } else { one }
}

/// Returns how many nodes are open after an entry, if so many are open before it. An end without a
/// node has no effect. Requires: fewer nodes than the greatest `usize` are open before it.
fn count_after(count: usize, entry: &Entry) -> usize
    requires { count + 1 < 2 ^ 64 }
    ensures { result ≡ count_after_of count (as_entry entry.now) }
{
    match entry {
        Entry::Begin(_) => count + 1,
        Entry::End => count.saturating_sub(1),
        _ => count,
    }
}

/// Puts the lines of a tree with these entries. Requires: `names` has room for the names of all
/// nodes that are open at once.
pub(super) fn put_tree<'a, L: LinePen>(entries: &[Entry<'a>], names: &mut [&'a [u8]], pen: &mut L)
    requires { most_open_of 0 (map as_entry entries.now) ≤ length names.old }
    ensures put { L.puts pen.old (tokens_of_lines (root_lines (map as_entry entries.now))) pen.new }
    ensures room { length names.new ≡ length names.old }
{
    put_node(&[], pen);
    put_entries(entries, names, pen);
}

/// Puts the lines of these entries. Requires: `names` has room for the names of all nodes that are
/// open at once.
fn put_entries<'a, L: LinePen>(entries: &[Entry<'a>], names: &mut [&'a [u8]], pen: &mut L)
    requires { most_open_of 0 (map as_entry entries.now) ≤ length names.old }
    ensures put { L.puts pen.old (tokens_of_lines (entry_lines [] (map as_entry entries.now)))
        pen.new }
    ensures room { length names.new ≡ length names.old }
{
    let mut open = 0;
    for entry in entries {
        open = open_after(*entry, names, open);
        put_entry(*entry, &names[..open], pen);
    }
}

/// Returns how many nodes are open after an entry, if `count` are open before it. Their names are
/// the first of `names`, before the call and after it. Requires: `names` has room for all of them.
pub(super) fn open_after<'a>(entry: Entry<'a>, names: &mut [&'a [u8]], count: usize) -> usize
    requires fits { count ≤ length names.old }
    requires room { count_after_of count (as_entry entry) ≤ length names.old }
    ensures names { bytes_of_names (take result names.new)
        ≡ open_after_of (bytes_of_names (take count names.old)) (as_entry entry.entry) }
    ensures counted { result ≡ count_after_of count (as_entry entry.entry) }
    ensures room { length names.new ≡ length names.old }
{
    match entry {
        Entry::Begin(name) => {
            names[count] = name;
            count + 1
        }
        Entry::End => count.saturating_sub(1),
        _ => count,
    }
}

/// Puts the line of an entry, if it has one. These are the names of the open nodes.
pub(super) fn put_entry<'a, L: LinePen>(entry: Entry<'a>, names: &[&'a [u8]], pen: &mut L)
    ensures { L.puts pen.old (tokens_of_lines
        (lines_of_entry (bytes_of_names names.now) (as_entry entry.entry))) pen.new }
{
    match entry {
        Entry::Begin(_) => put_node(names, pen),
        Entry::Payload(payload) => put_payload(names, payload, pen),
        Entry::Property { name, value } => put_property(names, name, value, pen),
        _ => {}
    }
}

/// Puts the line of a node.
pub(super) fn put_node<L: LinePen>(names: &[&[u8]], pen: &mut L)
    ensures { L.puts pen.old (line_tokens (node_line (bytes_of_names names.now))) pen.new }
{
    put_line(&[Field::Text(b"node"), Field::Path(names)], pen);
}

/// Puts the line of a property.
fn put_property<'a, L: LinePen>(names: &[&'a [u8]], name: &'a [u8], value: &'a [u8], pen: &mut L)
    ensures { L.puts pen.old (line_tokens
        (property_line (bytes_of_names names.now) (name.entry.now, value.entry.now))) pen.new }
{
    put_line(
        &[
            Field::Text(b"property"),
            Field::Path(names),
            Field::Shown(name),
            Field::Value(value),
        ],
        pen,
    );
}

/// Puts the line of a payload.
fn put_payload<L: LinePen>(names: &[&[u8]], payload: ImagePayload, pen: &mut L)
    ensures { L.puts pen.old (tokens_of_lines (payload_lines (bytes_of_names names.now)
        (described_payload (ImageWith (bytes_of_payload payload.entry))))) pen.new }
{
    put_digest(names, payload.digest, pen);
}

/// Puts the line of a payload of this size and SHA-256.
fn put_digest<L: LinePen>(names: &[&[u8]], digest: Option<PayloadDigest>, pen: &mut L)
    ensures { L.puts pen.old (tokens_of_lines
        (payload_lines (bytes_of_names names.now) (OfImage (option_map digest_made digest))))
        pen.new }
{
    let payload = Field::Text(b"payload");
    let path = Field::Path(names);
    match digest {
        Some(digest) => {
            let words = [
                payload,
                path,
                Field::Text(b"size"),
                Field::Decimal(digest.size as u64),
                Field::Text(b"sha256"),
                Field::Sha256(digest.sha256),
            ];
            put_line(&words, pen);
        }
        None => put_line(&[payload, path, Field::Text(b"none")], pen),
    }
}

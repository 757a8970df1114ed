//! What words leave out.

ghost use Rattle.std.specs.Prelude.{◌≡◌};
ghost use Rattle.bi_common.specs.MadeFields.{bytes_of_names};
ghost use Rattle.bi_values.specs.ValueNames.{names_of_path};
ghost use Rattle.bi_describe.specs.Ignoring.{are_names_equal as are_equal};
ghost use Rattle.bi_describe.specs.Ignoring.{may_have_signatures};
ghost use Rattle.bi_describe.specs.Ignoring.{is_node_ignored as is_node_out};
ghost use Rattle.bi_describe.specs.Ignoring.{is_part_ignored as is_part_out};
ghost use Rattle.bi_describe.specs.Ignoring.{is_place_of as is_place};
ghost use Rattle.bi_describe.specs.Ignoring.{is_property_ignored as is_property_out};
ghost use Rattle.bi_describe.specs.Ignoring.{is_signature as is_signature_node};
ghost use Rattle.bi_describe.specs.Ignoring.{is_time_ignored as is_time_out};
ghost use Rattle.bi_describe.specs.Ignoring.{is_timestamp as is_time_of};
ghost use Rattle.bi_describe.specs.Ignoring.{names_node as names_node_of};
ghost use Rattle.bi_describe.specs.Ignoring.{names_part as names_part_of};
ghost use Rattle.bi_describe.specs.Ignoring.{names_property as names_property_of};
ghost use Rattle.bi_describe.specs.Ignoring.{names_time as names_time_of};
ghost use Rattle.bi_describe.specs.MadeWords.{ignored_word, ignored_words, node_place};

use super::{Ignored, NodePlace, TreePlace};

/// Returns whether the node with these names is left out, and not only because one above it is.
pub(crate) fn is_node_ignored(words: &[Ignored], names: &[&[u8]]) -> bool
    ensures { result ≡ is_node_out (ignored_words words.now) (bytes_of_names names.now) }
{
    for word in words {
        if names_node(names, word) {
            return true;
        }
    }
    false
}

/// Returns whether the property with this name of the node with these names is left out.
pub(crate) fn is_property_ignored(words: &[Ignored], names: &[&[u8]], name: &[u8]) -> bool
    ensures { result
        ≡ is_property_out (ignored_words words.now) (bytes_of_names names.now) name.now }
{
    for word in words {
        if names_property(names, name, word) {
            return true;
        }
    }
    false
}

/// Returns whether the time of a legacy image is left out.
pub(crate) fn is_time_ignored(words: &[Ignored]) -> bool
    ensures { result ≡ is_time_out (ignored_words words.now) }
{
    for word in words {
        if names_time(word) {
            return true;
        }
    }
    false
}

/// Returns whether the part with this index is left out.
pub(crate) fn is_part_ignored(words: &[Ignored], index: usize) -> bool
    ensures { result ≡ is_part_out (ignored_words words.now) index }
{
    for word in words {
        if names_part(index, word) {
            return true;
        }
    }
    false
}

/// Returns whether a word leaves out the node with these names, and not only because it leaves out
/// one above it.
fn names_node(names: &[&[u8]], word: &Ignored) -> bool
    ensures { result ≡ names_node_of (bytes_of_names names.now) (ignored_word word.now) }
{
    match word {
        Ignored::Signatures => is_signature(names),
        Ignored::Node(place) => is_place_of(place, names),
        _ => false,
    }
}

/// Returns whether a word leaves out the property with this name of the node with these names.
fn names_property(names: &[&[u8]], name: &[u8], word: &Ignored) -> bool
    ensures { result
        ≡ names_property_of (bytes_of_names names.now) name.now (ignored_word word.now) }
{
    match word {
        Ignored::Time => is_timestamp(names, name),
        Ignored::Property(place, property) => {
            is_place_of(place, names) && property.as_slice() == name
        }
        _ => false,
    }
}

/// Returns whether a word leaves out the time of a legacy image.
fn names_time(word: &Ignored) -> bool
    ensures { result ≡ names_time_of (ignored_word word.now) }
{
    match word {
        Ignored::Time => true,
        _ => false,
    }
}

/// Returns whether a word leaves out the part with this index.
fn names_part(index: usize, word: &Ignored) -> bool
    ensures { result ≡ names_part_of index (ignored_word word.now) }
{
    match word {
        Ignored::Part(other) => index as u64 == *other,
        _ => false,
    }
}

/// Returns whether a place is that of the node with these names, of the tree of the image itself.
fn is_place_of(place: &NodePlace, names: &[&[u8]]) -> bool
    ensures { result ≡ is_place (node_place place.now) (bytes_of_names names.now) }
{
    match &place.tree {
        TreePlace::Itself => are_names_equal(&place.names, names),
        TreePlace::Inside(_) => false,
    }
}

/// Returns whether these are the same names.
fn are_names_equal(one: &[Vec<u8>], other: &[&[u8]]) -> bool
    ensures { result ≡ are_equal (names_of_path one.now) (bytes_of_names other.now) }
{
    let mut left = other;
    for name in one {
        let [first, later @ ..] = left else {
            return false;
        };
        if name.as_slice() != *first {
            return false;
        }
        left = later;
    }
    left.is_empty()
}

/// Returns whether a node is a child of an image or of a configuration, and its name begins with
/// `signature`.
fn is_signature(names: &[&[u8]]) -> bool
    ensures { result ≡ is_signature_node (bytes_of_names names.now) }
{
    let [top, _, name] = names else {
        return false;
    };
    has_signatures(top) && name.starts_with(b"signature")
}

/// Returns whether the child of the root with this name has images or configurations.
fn has_signatures(name: &[u8]) -> bool
    ensures { result ≡ may_have_signatures name.now }
{
    name == b"images".as_slice() || name == b"configurations".as_slice()
}

/// Returns whether a property of a node is the time of a flattened image tree.
fn is_timestamp(names: &[&[u8]], name: &[u8]) -> bool
    ensures { result ≡ is_time_of (bytes_of_names names.now) name.now }
{
    names.is_empty() && name == b"timestamp".as_slice()
}

//! What a configuration lists, read from its node, so that no list is made in memory.

ghost use Rattle.std.specs.Prelude.{◌≡◌};
ghost use Rattle.bi_fdt.specs.Views.{node_of};
ghost use Rattle.bi_fit.specs.HashNodes.{file_listed, file_listed_in};
ghost use Rattle.bi_fit.specs.Judgement.{listed_names};
ghost use Rattle.bi_report.specs.Listed.{IsListed};
ghost use Rattle.bi_report.specs.Listed.{first_missing as first_missing_of};

use bi_fdt::NodeRef;
use bi_fit::{Fit, Key, split_name};

/// What a configuration lists under a key, or why it lists no images.
#[derive(Clone, Copy)]
pub(crate) enum KeyList<'a> {
    /// The configuration has no such key.
    NoKey,
    /// The value of the key is not a list of names.
    BadList,
    /// No image has the name at this index of the list, counted from 0. It is the first such name.
    Missing(usize),
    /// The images of the names that this value lists, each of which is followed by a zero.
    Images(&'a [u8]),
}

/// Returns what the configuration of a node lists under a key.
pub(crate) fn listed_under<'a>(fit: &Fit<'a>, node: NodeRef<'a, '_>, key: Key) -> KeyList<'a>
    ensures { IsListed (file_listed fit.now.images (node_of node.entry) key) result }
{
    match node.property(key.name().as_bytes()) {
        Some(value) => listed_in(fit, value),
        None => KeyList::NoKey,
    }
}

/// Returns what the value of a key lists.
fn listed_in<'a>(fit: &Fit<'a>, value: &'a [u8]) -> KeyList<'a>
    ensures { IsListed (file_listed_in fit.now.images value.entry.now) result }
{
    if !value.ends_with(b"\0") {
        return KeyList::BadList;
    }
    match first_missing(fit, value) {
        Some(index) => KeyList::Missing(index),
        None => KeyList::Images(value),
    }
}

/// Returns the index of the first name that a value lists and that no image has. Returns None if
/// and only if there is no such name.
fn first_missing(fit: &Fit, value: &[u8]) -> Option<usize>
    ensures { result ≡ first_missing_of fit.now.images 0 (listed_names value.now) }
{
    let mut rest = value;
    let mut index = 0;
    while let Some((name, later)) = split_name(rest) {
        if fit.image(name).is_none() {
            return Some(index);
        }
        index += 1;
        rest = later;
    }
    None
}

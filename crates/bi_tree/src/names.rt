//! The names of the properties of a tree, each once.

ghost use Rattle.std.specs.Prelude.{◌≡◌, ◌≤◌, length, IfOk, OnErr};
ghost use Rattle.bi_base.specs.Slices.{bytes_of};
ghost use Rattle.bi_blob.specs.Tree.{AreDistinct};
ghost use Rattle.bi_fdt.specs.Numbers.{BeginsWith, IsNumberOf};
ghost use Rattle.bi_tree.specs.TreeNodes.{index_named};

use std::alloc::AllocError;

/// Returns the number of a name: its index among these names. If it is none of them, it is added as
/// the last. Fails if memory runs out, and then changes nothing.
pub fn number_name<'a>(names: &mut Vec<&'a [u8]>, name: &'a [u8]) -> Result<usize, AllocError>
    ensures number { IfOk result (IsNumberOf (bytes_of names.new.items) name.entry.now) }
    ensures more { BeginsWith (bytes_of names.new.items) (bytes_of names.old.items) }
    ensures distinct { AreDistinct (bytes_of names.old.items)
        → AreDistinct (bytes_of names.new.items) }
    ensures failed { OnErr result (names.new.items ≡ names.old.items) }
{
    let number = find_name(names, name);
    if number == names.len() {
        names.push(name)?;
    }
    Ok(number)
}

/// Returns the index of a name among these, or their number if it is none of them.
fn find_name(names: &[&[u8]], name: &[u8]) -> usize
    ensures index { result ≡ index_named name.now (bytes_of names.now) }
    ensures within { result ≤ length names.now }
{
    for (index, other) in names.iter().enumerate() {
        if *other == name {
            return index;
        }
    }
    names.len()
}

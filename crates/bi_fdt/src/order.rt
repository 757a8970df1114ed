//! The properties of each node of a blob, in an order that is made once.

ghost use Rattle.std.specs.Prelude.{◌≡◌, ℕ, length, map, IfOk};
ghost use Rattle.std.specs.Iterator.{at_most};
ghost use Rattle.bi_fdt.specs.Order.{with_indices_from, pairs_of_node, AreInOrder};
ghost use Rattle.bi_fdt.specs.Order.{IsPropertyOrder, keyed_properties, GivesKeyedProperty};
ghost use Rattle.bi_fdt.specs.Table.{item_in};
ghost use Rattle.bi_fdt.specs.Views.{HasNodeAt};

use crate::blob::Blob;
use crate::table::{Entry, Property};
use std::alloc::{AllocError, Global};
use std::marker::Model;

/// The properties of each node of a blob, in the order of keys, such as the numbers of their names.
#[derive(Drop)]
pub struct PropertyOrder {
    // The key and the index of each entry of the table of the blob. The pairs of the properties of
    // each node are sorted.
    pairs: Vec<(usize, usize)>,
}

impl Model for PropertyOrder {
    ghost use Rattle.std.specs.Prelude.{ℕ, List};

    ghost Value = { List (ℕ × ℕ) };

    ghost view = { λ order. order.pairs.items };
}

impl PropertyOrder {
    /// Returns the order of the properties of each node of a blob by these keys. Each node and
    /// property of the blob has a key, in the order of the file; the keys of nodes may be any
    /// numbers. Properties of a node that have the same key keep their order. Requires: there are
    /// as many keys as nodes and properties. Takes n log n comparisons of numbers for n properties.
    /// Fails if memory runs out.
    pub fn new(alloc: Global, blob: &Blob<'_>, keys: &[usize]) -> Result<PropertyOrder, AllocError>
        requires { length keys.now ≡ length blob.now.table }
        ensures { IfOk result (IsPropertyOrder blob.now.table keys.now) }
    {
        let mut pairs = pair_keys(alloc, keys)?;
        sort_properties(blob, &mut pairs);
        Ok(PropertyOrder { pairs })
    }

    /// Returns the key of each entry with its index.
    pub(crate) fn pairs(&self) -> &[(usize, usize)]
        ensures { result.now ≡ self.now }
    {
        &self.pairs
    }
}

/// Returns these keys, each before its index. Fails if memory runs out.
fn pair_keys(alloc: Global, keys: &[usize]) -> Result<Vec<(usize, usize)>, AllocError>
    ensures { IfOk result (λ pairs. pairs.items ≡ with_indices_from 0 keys.now) }
{
    let mut pairs = Vec::with_capacity(alloc, keys.len())?;
    for (index, key) in keys.iter().enumerate() {
        pairs.push((*key, index))?;
    }
    Ok(pairs)
}

/// Sorts the pairs of the properties of each node of a blob. Requires: each entry of its table has
/// a pair.
fn sort_properties(blob: &Blob<'_>, pairs: &mut [(usize, usize)])
    requires { length pairs.old ≡ length blob.now.table }
    ensures count { length pairs.new ≡ length pairs.old }
    ensures each { (index : ℕ) → HasNodeAt blob.now.table index → AreInOrder
        (pairs_of_node blob.now.table index pairs.old)
        (pairs_of_node blob.now.table index pairs.new) }
{
    for (index, entry) in blob.entries().iter().enumerate() {
        if let Entry::Node(node) = entry {
            let begin = index + 1;
            let end = begin + node.property_count as usize;
            pairs[begin..end].sort_unstable();
        }
    }
}

/// An iterator over the properties of a node, in an order by keys, each after its key.
#[derive(Drop)]
pub struct OrderedProperties<'a, 'b, 'n> {
    file: &'a [u8],
    entries: &'b [Entry],
    pairs: &'n [(usize, usize)],
    index: usize,
}

impl<'a, 'b, 'n> Model for OrderedProperties<'a, 'b, 'n> {
    ghost use Rattle.std.specs.Prelude.{List, drop, map};
    ghost use Rattle.bi_fdt.specs.Order.{KeyedProperty, keyed_properties};
    ghost use Rattle.bi_fdt.specs.Table.{item_in};

    ghost Value = { List KeyedProperty };

    ghost view = { λ properties. keyed_properties
        (map (item_in properties.file.now) properties.entries.now)
        (drop properties.index properties.pairs.now) };
}

impl<'a, 'b, 'n> OrderedProperties<'a, 'b, 'n> {
    /// Returns the properties that have entries of a file at the indices in these pairs.
    pub(crate) fn new(
        file: &'a [u8],
        entries: &'b [Entry],
        pairs: &'n [(usize, usize)],
    ) -> OrderedProperties<'a, 'b, 'n>
        ensures { result ≡ keyed_properties
            (map (item_in file.entry.now) entries.entry.now) pairs.entry.now }
    {
        OrderedProperties {
            file,
            entries,
            pairs,
            index: 0,
        }
    }
}

impl<'a, 'b, 'n> Iterator for OrderedProperties<'a, 'b, 'n> {
    type Item = (usize, Property<'a>);

    ghost next_gives = { GivesKeyedProperty };

    ghost remaining = { λ properties. at_most (length properties) };

    fn next(&mut self) -> Option<(usize, Property<'a>)> {
        let (key, index) = *self.pairs.get(self.index)?;
        let entry = *self.entries.get(index)?;
        match entry {
            Entry::Property(property, _) => {
                self.index += 1;
                Some((key, property.property_in(self.file)))
            }
            Entry::Node(_) => None,
        }
    }
}

//! The nodes of a blob.

ghost use Rattle.std.specs.Prelude.{◌≡◌, ◌<◌, ◌^◌, ℕ, List, drop, length, slice_get, IsTrue};
ghost use Rattle.std.specs.Prelude.{IfSome, Some, map};
ghost use Rattle.std.specs.Cmp.Lexicographic.{slice_cmp};
ghost use Rattle.std.specs.List.Sorted.{IsStrictlySortedBy};
ghost use Rattle.std.specs.Option.{option_map};
ghost use Rattle.std.specs.Ordering.{nat_cmp};
ghost use Rattle.bi_blob.specs.Tree.{AreDistinct, properties_of, property_of};
ghost use Rattle.bi_blob.specs.Lookups.{siblings, root_node, node_at, node_named, value_named};
ghost use Rattle.bi_blob.specs.Lookups.{property_named};
ghost use Rattle.bi_fdt.specs.Properties.{file_property_of};
ghost use Rattle.bi_fdt.specs.Content.{root_of, begins_with_node};

use crate::blob::Blob;
use crate::order::{OrderedProperties, PropertyOrder};
use crate::properties::Properties;
use crate::table::{Entry, NodeEntry, Property};

/// A node of a blob that was read: a borrow of the blob, and the index of the node in its table.
#[derive(Clone, Copy)]
pub struct NodeRef<'a, 'b> {
    blob: &'b Blob<'a>,
    index: usize,
    // The entry at the index is a node's, so that `entry` finds no property there.
    ghost is_node: { IsTrue (begins_with_node (drop index blob.now.table)) },
    // The table is short enough that no sum of indices overflows.
    ghost small: { length blob.now.table < 2 ^ 63 },
}

impl<'a, 'b> NodeRef<'a, 'b> {
    ghost use Rattle.bi_fdt.specs.Views.{HasNodeAt, node_in, node_of, table_of_node};
    ghost use Rattle.bi_fdt.specs.Fields.{IsNodeOf};
    ghost use Rattle.bi_fdt.specs.Order.{IsPropertyOrder, IsNumberOrder, AreByNumber};
    ghost use Rattle.bi_fdt.specs.Order.{sorted_properties};

    /// Returns the root of a blob.
    pub(crate) fn new(blob: &'b Blob<'a>) -> NodeRef<'a, 'b>
        ensures root { node_of result ≡ root_node (root_of blob.entry.now) }
        ensures same_table { table_of_node result ≡ blob.entry.now.table }
    {
        // The call gives the invariant of the blob to the proof: its table begins with the root.
        let _ = blob.entries();
        NodeRef { blob, index: 0 }
    }

    /// Returns the node at an index of the table of a blob. Requires: the index is that of a node
    /// in the table.
    pub(crate) fn at(blob: &'b Blob<'a>, index: usize) -> NodeRef<'a, 'b>
        requires { HasNodeAt blob.now.table index }
        ensures node { node_of result ≡ node_in blob.entry.now.table index }
        ensures same_table { table_of_node result ≡ blob.entry.now.table }
    {
        // The call gives the invariant of the blob to the proof: its table is short.
        let _ = blob.entries();
        NodeRef { blob, index }
    }

    /// Returns the index of the node in the table of its blob. `Blob::node` returns the same node
    /// for it. Takes constant time.
    pub fn index(self) -> usize
        ensures there { HasNodeAt (table_of_node self.entry) result }
        ensures node { node_in (table_of_node self.entry) result ≡ node_of self.entry }
    {
        self.index
    }

    /// Returns the node's entry.
    fn entry(self) -> NodeEntry
        ensures { IsNodeOf self.entry.blob.now.file self.entry.blob.now.table self.entry.index
            result }
    {
        let entry = self.blob.entries()[self.index];
        match entry {
            Entry::Node(node) => node,
            Entry::Property(_, _) => unreachable!(),
        }
    }

    /// Returns the name. The name of the root is empty.
    pub fn name(self) -> &'a [u8]
        ensures { result.now ≡ (node_of self.entry).name }
    {
        self.entry().name_in(self.blob.file())
    }

    /// Returns the offset in the file of the token that begins the node.
    pub fn place(self) -> u32
        ensures { result ≡ (node_of self.entry).own.place }
    {
        self.entry().place
    }

    /// Returns the number of properties.
    pub fn property_count(self) -> usize
        ensures { result ≡ length (node_of self.entry).own.properties }
    {
        self.entry().property_count as usize
    }

    /// Returns the properties in their order in the file. Iterating over all of them takes time
    /// linear in their number.
    pub fn properties(self) -> Properties<'a, 'b>
        ensures { result ≡ (node_of self.entry).own.properties }
    {
        let entries = self.blob.entries();
        let begin = self.index + 1;
        let end = begin + self.entry().property_count as usize;
        Properties::new(self.blob.file(), &entries[begin..end])
    }

    /// Returns the properties in the given order, each after its key. Iterating over all of them
    /// takes time linear in their number. If the keys are numbers of names, the properties come in
    /// ascending order of these numbers. If the numbers are ranks, they come in byte order of their
    /// names. Requires: the order is one of the properties of this blob.
    pub fn properties_in<'n>(self, order: &'n PropertyOrder) -> OrderedProperties<'a, 'b, 'n>
        requires { (keys : List ℕ) × IsPropertyOrder (table_of_node self) keys order.now }
        ensures by_number { let own = (node_of self.entry).own in (names : List (List ℕ))
            → IsNumberOrder names (table_of_node self.entry) order.entry.now
            → AreDistinct (map (λ property. property.0) (properties_of own))
            → AreByNumber names own.properties result }
        ensures by_name { let own = (node_of self.entry).own in (names : List (List ℕ))
            → IsNumberOrder names (table_of_node self.entry) order.entry.now
            → AreDistinct (map (λ property. property.0) (properties_of own))
            → IsStrictlySortedBy (slice_cmp nat_cmp) names
            → map (λ keyed. property_of keyed.1) result ≡ sorted_properties (properties_of own) }
    {
        let begin = self.index + 1;
        let end = begin + self.entry().property_count as usize;
        OrderedProperties::new(
            self.blob.file(),
            self.blob.entries(),
            &order.pairs()[begin..end],
        )
    }

    /// Returns the name and value of property `index`, counted from 0, in the order of the file.
    /// Returns None if there is no such property. Takes constant time.
    pub fn property_at(self, index: usize) -> Option<(&'a [u8], &'a [u8])>
        ensures { option_map (λ property. (property.0.now, property.1.now)) result
            ≡ slice_get (properties_of (node_of self.entry).own) index }
    {
        let node = self.entry();
        if index >= node.property_count as usize {
            return None;
        }
        let entry = self.blob.entries()[self.index + 1 + index];
        match entry {
            Entry::Property(property, _) => {
                let property = property.property_in(self.blob.file());
                Some((property.name, property.value))
            }
            Entry::Node(_) => unreachable!(),
        }
    }

    /// Returns the value of the property with the given name. Returns None if there is no such
    /// property. Takes time linear in the number of properties before it.
    pub fn property(self, name: &[u8]) -> Option<&'a [u8]>
        ensures { option_map (λ value. value.now) result
            ≡ value_named (properties_of (node_of self.entry).own) name.now }
    {
        Some(self.find_property(name)?.value)
    }

    /// Returns the offset in the file of the token of the property with the given name. Returns
    /// None if there is no such property. Takes time linear in the number of properties before it.
    pub fn property_place(self, name: &[u8]) -> Option<u32>
        ensures { result ≡ option_map
            (λ property. property.place)
            (property_named (node_of self.entry).own.properties name.now) }
    {
        Some(self.find_property(name)?.place)
    }

    /// Returns the property with the given name. Returns None if there is no such property. Takes
    /// time linear in the number of properties before it.
    pub fn find_property(self, name: &[u8]) -> Option<Property<'a>>
        ensures { option_map file_property_of result
            ≡ property_named (node_of self.entry).own.properties name.now }
    {
        for property in self.properties() {
            if property.name == name {
                return Some(property);
            }
        }
        None
    }

    /// Returns the first child. Returns None if the node has no child.
    pub fn first_child(self) -> Option<NodeRef<'a, 'b>>
        ensures child { option_map node_of result ≡ node_at (node_of self.entry).children 0 }
        ensures same_table { IfSome result
            (λ child. table_of_node child ≡ table_of_node self.entry) }
    {
        let node = self.entry();
        let index = self.index + 1 + node.property_count as usize;
        if index == node.after as usize {
            return None;
        }
        Some(NodeRef {
            blob: self.blob,
            index,
        })
    }

    /// Returns the next child of the node's parent. Returns None for the last child and for the
    /// root.
    pub fn next_sibling(self) -> Option<NodeRef<'a, 'b>>
        ensures sibling { option_map node_of result ≡ node_at (node_of self.entry).later 0 }
        ensures same_table { IfSome result
            (λ sibling. table_of_node sibling ≡ table_of_node self.entry) }
    {
        let node = self.entry();
        let after = node.after as usize;
        let entry = *self.blob.entries().get(after)?;
        match entry {
            Entry::Node(next) => {
                // A node of less depth is a sibling of an ancestor.
                if next.depth != node.depth {
                    return None;
                }
                Some(NodeRef {
                    blob: self.blob,
                    index: after,
                })
            }
            Entry::Property(_, _) => None,
        }
    }

    /// Returns the number of children. Takes time linear in it.
    pub fn child_count(self) -> usize
        ensures { result ≡ length (siblings (node_of self.entry).children) }
    {
        let mut count = 0;
        let mut next = self.first_child();
        while let Some(child) = next {
            count += 1;
            next = child.next_sibling();
        }
        count
    }

    /// Returns child `index`, counted from 0, in the order of the file. Returns None if there is no
    /// such child. Takes time linear in the number of children before it.
    pub fn child_at(self, index: usize) -> Option<NodeRef<'a, 'b>>
        ensures { option_map node_of result ≡ node_at (node_of self.entry).children index }
    {
        let mut child = self.first_child()?;
        for _ in 0..index {
            child = child.next_sibling()?;
        }
        Some(child)
    }

    /// Returns the child with the given name. Returns None if there is no such child. Takes time
    /// linear in the number of children before it.
    pub fn child(self, name: &[u8]) -> Option<NodeRef<'a, 'b>>
        ensures child { option_map node_of result
            ≡ node_named (node_of self.entry).children name.now }
        ensures same_table { IfSome result
            (λ child. table_of_node child ≡ table_of_node self.entry) }
    {
        let (_, child) = self.find_child(name)?;
        Some(child)
    }

    /// Returns the child with the given name, after its position among the children, counted from
    /// 0. Returns None if there is no such child. Takes time linear in the number of children
    /// before it.
    pub fn find_child(self, name: &[u8]) -> Option<(usize, NodeRef<'a, 'b>)>
        ensures child { option_map (λ found. node_of found.1) result
            ≡ node_named (node_of self.entry).children name.now }
        ensures position { IfSome result
            (λ found. node_at (node_of self.entry).children found.0 ≡ Some (node_of found.1)) }
        ensures same_table { IfSome result
            (λ found. table_of_node found.1 ≡ table_of_node self.entry) }
    {
        let mut position = 0;
        let mut next = self.first_child();
        while let Some(child) = next {
            if child.name() == name {
                return Some((position, child));
            }
            position += 1;
            next = child.next_sibling();
        }
        None
    }
}

//! The table of a tree: one entry for each node and each property, in the order of their tokens in
//! the file. An entry has numbers only: the names and the values are in the file.

ghost use Rattle.std.specs.Prelude.{◌≡◌, ◌+◌, ◌<◌, ◌^◌, length, map, slice_get, slice_set, IfOk};
ghost use Rattle.bi_base.specs.Cells.{slice};
ghost use Rattle.bi_fdt.specs.declared.table.NodeEntry.{NodeEntry};
ghost use Rattle.bi_fdt.specs.declared.table.Entry.TheVariants as entry;
ghost use Rattle.bi_fdt.specs.Properties.{file_property_of};
ghost use Rattle.bi_fdt.specs.Table.{node_name_in, property_in};
ghost use Rattle.bi_fdt.specs.TableNames.{name_number_of};

use std::alloc::{AllocError, Global};

/// A node: its token FDT_BEGIN_NODE (Devicetree Specification, 5.4.1), and where its entries are in
/// the table. The name is in the file, after the number of the token.
#[derive(Clone, Copy, Debug, Drop)]
pub(crate) struct NodeEntry {
    /// The offset of the token in the file.
    pub(crate) place: u32,
    /// The length of the name, without the zero byte that ends it.
    pub(crate) name_length: u32,
    /// How many nodes contain the node.
    pub(crate) depth: u32,
    /// The number of the properties. Their entries follow.
    pub(crate) property_count: u32,
    /// The index of the entry after the last descendant. It is zero while the node is open.
    pub(crate) after: u32,
}

impl NodeEntry {
    /// Returns the name, in the file that the entry is of.
    pub(crate) fn name_in(self, file: &[u8]) -> &[u8]
        ensures { result.now ≡ node_name_in file.entry.now self }
    {
        slice_at(file, self.place as usize + 4, self.name_length as usize)
    }
}

/// A property: its token FDT_PROP (Devicetree Specification, 5.4.1). The value is in the file,
/// after the number of the token and two cells.
#[derive(Clone, Copy, Debug, Drop)]
pub(crate) struct PropertyEntry {
    /// The offset of the token in the file.
    pub(crate) place: u32,
    /// The offset of the name in the file.
    pub(crate) name_begin: u32,
    /// The length of the name, without the zero byte that ends it.
    pub(crate) name_length: u32,
    /// The length of the value.
    pub(crate) value_length: u32,
}

impl PropertyEntry {
    /// Returns the name, in the file that the entry is of.
    pub(crate) fn name_in(self, file: &[u8]) -> &[u8]
        ensures { result.now ≡ (property_in file.entry.now self).name }
    {
        slice_at(file, self.name_begin as usize, self.name_length as usize)
    }

    /// Returns the property, in the file that the entry is of.
    pub(crate) fn property_in(self, file: &[u8]) -> Property<'_>
        ensures { file_property_of result ≡ property_in file.entry.now self }
    {
        Property {
            name: self.name_in(file),
            value: slice_at(file, self.place as usize + 12, self.value_length as usize),
            place: self.place,
        }
    }
}

/// A property: its token FDT_PROP (Devicetree Specification, 5.4.1).
#[derive(Clone, Copy, Debug, PartialEq, Eq)]
pub struct Property<'a> {
    /// The name, without the zero byte that ends it.
    pub name: &'a [u8],
    /// The value.
    pub value: &'a [u8],
    /// The offset of the token in the file.
    pub place: u32,
}

/// An entry of a table. It has 24 bytes.
#[derive(Clone, Copy, Debug)]
pub(crate) enum Entry {
    Node(NodeEntry),
    /// A property, and the number of its name among the names of the properties of the blob.
    Property(PropertyEntry, u32),
}

impl Entry {
    /// Returns the number of the name of a property, and 0 for a node.
    pub(crate) fn name_number(self) -> usize
        ensures { result ≡ name_number_of self }
    {
        match self {
            Entry::Property(_, number) => number as usize,
            Entry::Node(_) => 0,
        }
    }
}

/// Returns the numbers of the names of these entries. Fails if memory runs out.
pub(crate) fn name_numbers(alloc: Global, entries: &[Entry]) -> Result<Vec<usize>, AllocError>
    ensures { IfOk result (λ numbers. numbers.items ≡ map name_number_of entries.now) }
{
    entries
        .iter()
        .map(|entry| entry.name_number())
        .collect(alloc)
}

/// Returns the `length` bytes of a file from offset `at`, or as many of them as it has. Requires:
/// `at` and `length` together are less than 2^64.
fn slice_at(file: &[u8], at: usize, length: usize) -> &[u8]
    requires { at + length < 2 ^ 64 }
    ensures { result.now ≡ slice file.entry.now at length }
{
    let begin = at.min(file.len());
    let end = (at + length).min(file.len());
    &file[begin..end]
}

/// Sets the number of the properties of the node whose entry is at `index`. Requires: there is an
/// entry at `index`.
pub(crate) fn set_property_count(entries: &mut [Entry], index: usize, property_count: u32)
    requires { index < length entries.old }
    ensures { (node_entry : NodeEntry) → slice_get entries.old index ≡ Some (entry.Node node_entry)
        → entries.new ≡ slice_set entries.old index (entry.Node
        (record node_entry { property_count = property_count })) }
{
    if let Entry::Node(node) = entries[index] {
        entries[index] = Entry::Node(NodeEntry {
            property_count,
            ..node
        });
    }
}

/// Sets the index of the entry after the last descendant of the node whose entry is at `index`.
/// Requires: there is an entry at `index`.
pub(crate) fn set_after(entries: &mut [Entry], index: usize, after: u32)
    requires { index < length entries.old }
    ensures { (node_entry : NodeEntry) → slice_get entries.old index ≡ Some (entry.Node node_entry)
        → entries.new ≡ slice_set entries.old index (entry.Node
        (record node_entry { after = after })) }
{
    if let Entry::Node(node) = entries[index] {
        entries[index] = Entry::Node(NodeEntry { after, ..node });
    }
}

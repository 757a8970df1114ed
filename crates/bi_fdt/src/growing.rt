//! A tree while its tokens are read.

ghost use Rattle.std.specs.Prelude.{◌≡◌, ℕ, ◌+◌, ◌<◌, ◌≤◌, ◌^◌, List, [], ◌↔◌, length};
ghost use Rattle.std.specs.Prelude.{IsTrue, IfOk, IfErr, OnOk};
ghost use Rattle.bi_base.specs.Errors.{IsFaultOrNoMemory};
ghost use Rattle.bi_blob.specs.Tokens.{name_from};
ghost use Rattle.bi_blob.specs.Tree.{names};
ghost use Rattle.bi_blob.specs.BlobFaults.{HasName};
ghost use Rattle.bi_blob.specs.OpenNodes.{OpenFileNode};
ghost use Rattle.bi_fdt.specs.Growth.{IsGrowing, IsGrown, BeginsRoot, BeginsChild, IsChildTaken};
ghost use Rattle.bi_fdt.specs.Growth.{AddsProperty, IsPropertyTaken, IsEnding};

use crate::marked_names::MarkedNames;
use crate::strings::Strings;
use crate::table::{Entry, NodeEntry, PropertyEntry, set_after, set_property_count};
use crate::used_names::UsedNames;
use arrayvec::ArrayVec;
use bi_base::{Cause, Error, refuse};
use std::alloc::{AllocError, Global};
use std::collections::BTreeSet;
use std::default::MadeWith;
use std::mem;

/// The most nodes that contain another node. Limits allow at most 64 open nodes.
const MOST_OUTER_NODES: usize = 63;

/// A node that has started and has not ended.
#[derive(Drop)]
pub(crate) struct OpenNode<'a> {
    /// The index of its entry in the table.
    entry: usize,
    /// The names of its children so far.
    children: BTreeSet<&'a [u8]>,
}

impl<'a> MadeWith<Global> for OpenNode<'a> {
    fn made_with(alloc: Global) -> OpenNode<'a> {
        OpenNode {
            entry: 0,
            children: BTreeSet::new(alloc),
        }
    }
}

/// The table of a tree whose root has started.
#[derive(Drop)]
pub(crate) struct Growing<'a> {
    entries: Vec<Entry>,
    /// The names of the properties. The mark of a name is the index of the entry of the last node
    /// that has a property with that name.
    names: MarkedNames<'a>,
    innermost: OpenNode<'a>,
    /// The nodes that contain the innermost open node, the root first.
    outer: ArrayVec<OpenNode<'a>, MOST_OUTER_NODES, Global>,
}

impl<'a> Growing<'a> {
    /// Returns a tree whose root has started at `place`. Requires: the name has fewer than 2^32
    /// bytes.
    pub(crate) fn new(
        alloc: Global,
        strings: &Strings<'a>,
        name: &'a [u8],
        place: u32,
    ) -> Result<Growing<'a>, AllocError>
        requires { length name.now < 2 ^ 32 }
        ensures { IfOk result (BeginsRoot strings.now name.entry.now place) }
    {
        let mut entries = Vec::new(alloc);
        entries.push(Entry::Node(NodeEntry {
            place,
            name_length: name.len() as u32,
            depth: 0,
            property_count: 0,
            after: 0,
        }))?;
        Ok(Growing {
            entries,
            names: MarkedNames::new(alloc, strings)?,
            innermost: OpenNode {
                entry: 0,
                children: BTreeSet::new(alloc),
            },
            outer: ArrayVec::new_in(alloc),
        })
    }

    /// Returns the number of the open nodes.
    pub(crate) fn depth(&self) -> usize
        ensures { (file : List ℕ) (innermost : OpenFileNode) (outer : List OpenFileNode)
            → IsGrowing file self.now innermost outer → result ≡ length outer + 1 }
    {
        self.outer.len() + 1
    }

    /// Returns whether the innermost open node has no child yet.
    pub(crate) fn is_childless(&self) -> bool
        ensures { (file : List ℕ) (innermost : OpenFileNode) (outer : List OpenFileNode)
            → IsGrowing file self.now innermost outer
            → (IsTrue result ↔ (names innermost.children ≡ [])) }
    {
        self.innermost.children.is_empty()
    }

    /// Begins a child of the innermost open node, at `place`. Fails with DuplicateNode if a child
    /// already has the name. After an error, the tree is not usable. Requires: fewer than 64 nodes
    /// are open.
    pub(crate) fn begin_node(
        &mut self,
        alloc: Global,
        name: &'a [u8],
        place: u32,
    ) -> Result<(), Error>
        requires grown { IsGrown self.old }
        requires few { length self.old.entries.items ≤ place }
        requires name { length name.now < 2 ^ 32 }
        requires room { length self.old.outer.items < 63 }
        ensures ok { OnOk result (BeginsChild self.old name.entry.now place self.new) }
        ensures failed { IfErr result (IsFaultOrNoMemory
            (IsChildTaken self.old name.entry.now place)) }
    {
        if !self.innermost.children.insert(name)? {
            return refuse(Cause::DuplicateNode, place).map_err(Error::from);
        }
        let child = OpenNode {
            entry: self.entries.len(),
            children: BTreeSet::new(alloc),
        };
        self.entries.push(Entry::Node(NodeEntry {
            place,
            name_length: name.len() as u32,
            depth: self.outer.len() as u32 + 1,
            property_count: 0,
            after: 0,
        }))?;
        self.outer.push(mem::replace(&mut self.innermost, child));
        Ok(())
    }

    /// Adds a property to the innermost open node, which has no child yet. Its name is at offset
    /// `at` of the strings block. Fails with DuplicateProperty if a property already has the name.
    /// After an error, the tree is not usable. Requires: the name in the property is that at offset
    /// `at`, which a zero byte ends, and the tree has no more entries than there are bytes before
    /// the property.
    pub(crate) fn add_property(
        &mut self,
        property: PropertyEntry,
        at: usize,
        name: &'a [u8],
    ) -> Result<(), Error>
        requires grown { IsGrown self.old }
        requires few { length self.old.entries.items ≤ property.place }
        requires there { HasName self.old.names.strings at (length self.old.names.strings) }
        requires name { name.now ≡ name_from self.old.names.strings at }
        ensures added { OnOk result (AddsProperty self.old name.entry.now property self.new) }
        ensures failed { IfErr result (IsFaultOrNoMemory
            (IsPropertyTaken self.old name.entry.now property.place)) }
    {
        let node = self.innermost.entry;
        let Some(number) = self.names.insert(at, name, node as u32)? else {
            return refuse(Cause::DuplicateProperty, property.place).map_err(Error::from);
        };
        self.entries.push(Entry::Property(property, number as u32))?;
        let property_count = self.entries.len() - node - 1;
        set_property_count(&mut self.entries, node, property_count as u32);
        Ok(())
    }

    /// Ends the innermost open node. Returns whether it was the root. Requires: the tree has fewer
    /// than 2^31 entries.
    pub(crate) fn end_node(&mut self) -> bool
        requires grown { IsGrown self.old }
        requires few { length self.old.entries.items < 2 ^ 31 }
        ensures { IsEnding self.old result self.new }
    {
        let after = self.entries.len();
        set_after(&mut self.entries, self.innermost.entry, after as u32);
        match self.outer.pop() {
            Some(parent) => {
                self.innermost = parent;
                false
            }
            None => true,
        }
    }

    /// Returns the table and the names of the properties.
    pub(crate) fn into_table(self) -> (Vec<Entry>, UsedNames<'a>)
        ensures entries { result.0 ≡ self.entry.entries }
        ensures names { result.1.used ≡ self.entry.names.used }
    {
        let Growing {
            entries,
            names,
            innermost: _,
            outer: _,
        } = self;
        (entries, names.into_names())
    }
}

//! The properties of a node, by name.

ghost use Rattle.std.specs.Prelude.{◌≡◌, ◌≤◌, ◌+◌, ℕ, List, map, slice_get, OnOk, IfOk};
ghost use Rattle.std.specs.FinMap.{empty, entries};
ghost use Rattle.std.specs.List.{AllZip};
ghost use Rattle.std.specs.Option.{option_map};
ghost use Rattle.bi_blob.specs.Events.{NodeProperty};
ghost use Rattle.bi_blob.specs.Following.{stage_of_events, MayHaveNextProperty};
ghost use Rattle.bi_lay.specs.Contents.{with_event, name_numbered};
ghost use Rattle.bi_lay.specs.Values.{value_bytes};
ghost use Rattle.bi_fdt.specs.Numbers.{IsNumberOf};
ghost use Rattle.bi_fdt.specs.Views.{node_of, table_of_node};
ghost use Rattle.bi_fit.specs.ImageTree.{without_payload};
ghost use Rattle.bi_fit.specs.Text.{alignment_of, with_payload};
ghost use Rattle.bi_fit.specs.Updating.{with_time};
ghost use Rattle.bi_fit.specs.TakenDigests.{HasDigest, with_first_digest, after_digest};
ghost use Rattle.bi_fit.specs.NormalNodes.{MayAdd, with_events, HasDistinctNames, HasCellSize};
ghost use Rattle.bi_fit.specs.NormalNodes.{properties_by_name};
ghost use Rattle.bi_fit.specs.NameOrders.{IsNameOrder};
ghost use Rattle.bi_fit.specs.PropertyMapModels.{among, with_property_value};
ghost use Rattle.bi_fit.specs.PropertyMaps.{IsEntryOf, index_of_rank, is_entry_ranked};

use crate::form::Form;
use crate::memory::only_memory;
use crate::name_order::NameOrder;
use crate::property_names::PropertyNames;
use bi_fdt::{NodeRef, OrderedProperties};
use bi_hash::Algo;
use bi_lay::{Doc, Value};
use std::alloc::{AllocError, Global};
use std::marker::Model;

/// The properties of a node, by name. Names and values are borrowed, not copied.
#[derive(Drop)]
pub(crate) struct PropertyMap<'a, 'b> {
    names: &'b PropertyNames<'a>,
    // The rank of each name among the names, and the value, in ascending order of ranks.
    entries: Vec<(usize, Value<'a>)>,
}

impl<'a, 'b> Model for PropertyMap<'a, 'b> {
    ghost use Rattle.bi_fit.specs.PropertyMapModels.{PropertyMapModel, model_code};

    ghost Value = { PropertyMapModel };

    ghost coded = { model_code };

    ghost use Rattle.bi_fit.specs.PropertyMaps.{property_map_model, IsConsistentMap};

    ghost view = { property_map_model };

    ghost invariant = { IsConsistentMap };
}

impl<'a, 'b> PropertyMap<'a, 'b> {
    /// Returns an empty map for properties with these names. Allocates nothing.
    pub(crate) fn new(alloc: Global, names: &'b PropertyNames<'a>) -> PropertyMap<'a, 'b>
        ensures { result ≡ among names.entry.now empty }
    {
        // The call tells the proof that the names are in byte order.
        let _ = names.ranks();
        PropertyMap {
            names,
            entries: Vec::new(alloc),
        }
    }

    /// Returns the properties of a node, by an order of names. Compares no names. Fails if memory
    /// runs out. Requires: the order is that of the blob of the node, and no two of its properties
    /// have the same name.
    pub(super) fn from_node(
        alloc: Global,
        node: NodeRef<'a, '_>,
        order: &'b NameOrder<'a>,
    ) -> Result<PropertyMap<'a, 'b>, AllocError>
        requires order { IsNameOrder (table_of_node node) order.now }
        requires distinct { HasDistinctNames (node_of node).own }
        ensures { IfOk result (λ properties. properties
            ≡ among order.entry.now.names (properties_by_name (node_of node.entry).own)) }
    {
        let properties = node.properties_in(&order.properties);
        let entries = entries_of(alloc, node.property_count(), properties)?;
        Ok(PropertyMap {
            names: &order.names,
            entries,
        })
    }

    /// Returns the names that the properties may have.
    pub(crate) fn names(&self) -> &'b PropertyNames<'a>
        ensures { result.now ≡ self.now.names }
    {
        self.names
    }

    /// Adds a property, or sets the value of the property with this name. The name is given by its
    /// rank. Compares the rank with those before it. Requires: the names of the map have a name
    /// with this rank.
    ///
    /// Fails if memory runs out. Which properties the map then has is not specified.
    pub(crate) fn insert(&mut self, rank: usize, value: Value<'a>) -> Result<(), AllocError>
        requires { (name : List ℕ) × IsNumberOf self.old.names name rank }
        ensures inserted { (name : List ℕ) → IsNumberOf self.old.names name rank → OnOk result
            (self.new ≡ with_property_value name (value_bytes value.entry) self.old) }
        ensures same_names { OnOk result (self.new.names ≡ self.old.names) }
    {
        let index = find_index(&self.entries, rank);
        if has_rank_at(&self.entries, index, rank) {
            self.entries[index] = (rank, value);
            return Ok(());
        }
        self.entries.insert(index, (rank, value))?;
        Ok(())
    }

    /// Gives an image node this payload instead of any other, or none. Removes `data`,
    /// `data-offset`, `data-position` and `data-size`, and adds the properties of the payload. In
    /// the form Embedded, that is `data`, which has its bytes. In the other forms, these are
    /// `data-offset`, which is `begin`, and `data-size`. `begin` is the offset of an external
    /// payload in bytes from the end of the blob. Requires: unless the form is Embedded, the
    /// payload has fewer than 2^32 bytes.
    ///
    /// Fails if memory runs out. Which properties the map then has is not specified.
    pub(super) fn set_payload(
        &mut self,
        form: Form,
        begin: u32,
        payload: Option<&'a [u8]>,
    ) -> Result<(), AllocError>
        requires { HasCellSize form (option_map (λ payload. payload.now) payload) }
        ensures set { let given = option_map (λ payload. payload.now) payload.entry in
            OnOk result (self.new.by_name
            ≡ with_payload (alignment_of form) begin given (without_payload self.old.by_name)) }
        ensures same_names { OnOk result (self.new.names ≡ self.old.names) }
    {
        self.remove_payload();
        let Some(payload) = payload else {
            return Ok(());
        };
        let ranks = self.names.ranks();
        match form {
            Form::Embedded => self.insert(ranks.payload, Value::Slice(payload)),
            Form::External | Form::Aligned(_) => {
                self.insert(ranks.offset, Value::Cell(begin))?;
                self.insert(ranks.size, Value::Cell(payload.len() as u32))
            }
        }
    }

    /// Sets the time of creation of a root, if a time is given: the value of the property
    /// `timestamp`.
    ///
    /// Fails if memory runs out. Which properties the map then has is not specified.
    pub(super) fn set_time(&mut self, time: Option<u32>) -> Result<(), AllocError>
        ensures set { OnOk result (self.new.by_name ≡ with_time time self.old.by_name) }
        ensures same_names { OnOk result (self.new.names ≡ self.old.names) }
    {
        if let Some(time) = time {
            let ranks = self.names.ranks();
            self.insert(ranks.time, Value::Cell(time))?;
        }
        Ok(())
    }

    /// Sets the value of a hash node to the first of these digests, if there is an algorithm.
    /// Returns the bytes after that digest. Requires: if there is an algorithm, the digests have at
    /// least as many bytes as a digest with it.
    ///
    /// Fails if memory runs out. Which properties the map then has is not specified.
    pub(super) fn set_digest(
        &mut self,
        algo: Option<Algo>,
        digests: &'a [u8],
    ) -> Result<&'a [u8], AllocError>
        requires { HasDigest algo digests.now }
        ensures set { OnOk result (self.new.by_name
            ≡ with_first_digest algo digests.entry.now self.old.by_name) }
        ensures same_names { OnOk result (self.new.names ≡ self.old.names) }
        ensures left { IfOk result (λ left. left.now ≡ after_digest algo digests.entry.now) }
    {
        let Some(algo) = algo else {
            return Ok(digests);
        };
        let (digest, left) = digests.split_at(algo.digest_size());
        let ranks = self.names.ranks();
        self.insert(ranks.digest, Value::Slice(digest))?;
        Ok(left)
    }

    /// Removes the four properties that hold a payload or name its region. Compares no names.
    fn remove_payload(&mut self)
        ensures { self.new ≡ among self.old.names (without_payload self.old.by_name) }
    {
        let ranks = self.names.ranks();
        self.entries.retain(|entry| !ranks.is_payload(entry.0));
    }

    /// Adds the properties to the innermost open node, in byte order of their names.
    ///
    /// Requires: the names of the document are those of the map, and these events may come next in
    /// the document. That is, for each property in turn, `Doc::may_property` is true for its name
    /// once the properties before it are added.
    ///
    /// Fails if memory runs out. Which of the properties the document then has is not specified.
    pub(super) fn add_to(&self, doc: &mut Doc<'a>) -> Result<(), AllocError>
        requires names { doc.old.names ≡ self.now.names }
        requires may { MayAdd doc.old (map NodeProperty (entries self.now.by_name)) }
        ensures added { OnOk result (doc.new ≡ with_events doc.old
            (map NodeProperty (entries self.now.by_name))) }
    {
        for entry in &self.entries {
            add_entry(doc, *entry)?;
        }
        Ok(())
    }
}

/// Returns these properties, each by the rank that is its key. `count` is their number. Fails if
/// memory runs out.
fn entries_of<'a>(
    alloc: Global,
    count: usize,
    properties: OrderedProperties<'a, '_, '_>,
) -> Result<Vec<(usize, Value<'a>)>, AllocError>
    ensures { IfOk result (λ entries. AllZip IsEntryOf properties.entry entries.items) }
{
    let mut entries = Vec::with_capacity(alloc, count)?;
    for (rank, property) in properties {
        entries.push((rank, Value::Slice(property.value)))?;
    }
    Ok(entries)
}

/// Adds a property to the innermost open node. The name is given by its rank. Fails if memory runs
/// out. Requires: the node may have a property with this name next.
fn add_entry<'a>(doc: &mut Doc<'a>, entry: (usize, Value<'a>)) -> Result<(), AllocError>
    requires { let name = name_numbered doc.old.names entry.0 in
        MayHaveNextProperty name (stage_of_events doc.old.events) }
    ensures { let name = name_numbered doc.old.names entry.entry.0 in
        OnOk result (doc.new
        ≡ with_event doc.old (NodeProperty (name, value_bytes entry.entry.1))) }
{
    only_memory(doc.property_numbered(entry.0, entry.1))
}

/// Returns the index of the first entry with a rank that is not less than the given rank. Returns
/// the number of entries if there is none. The entries are in ascending order of ranks.
fn find_index(entries: &[(usize, Value<'_>)], rank: usize) -> usize
    ensures { result ≡ index_of_rank entries.now rank }
{
    for (index, entry) in entries.iter().enumerate() {
        if rank <= entry.0 {
            return index;
        }
    }
    entries.len()
}

/// Returns whether there is an entry at the given index, and it has the given rank.
fn has_rank_at(entries: &[(usize, Value<'_>)], index: usize, rank: usize) -> bool
    ensures { result ≡ is_entry_ranked (slice_get entries.now index) rank }
{
    match entries.get(index) {
        Some(entry) => entry.0 == rank,
        None => false,
    }
}

//! A document: a devicetree blob in the making.

ghost use Rattle.std.specs.Prelude.{◌≡◌, ◌+◌, ◌<◌, ◌≤◌, ◌↔◌, length, IsTrue, OnOk, IfOk};
ghost use Rattle.std.specs.Prelude.{IfErr, MatchOption};
ghost use Rattle.bi_base.specs.Sinks.{Wrote};
ghost use Rattle.bi_base.specs.declared.fault.Error.TheVariants.{OutOfMemory};

use crate::items::{Item, Property, Value};
use crate::numbered_names::NumberedNames;
use crate::siblings::is_new_child;
use crate::sizes::BlockSizes;
use crate::text::{BlobParts, put_text};
use bi_base::{Align, Error, Pen, Sink, SinkPen};
use bi_blob::{is_child_name, is_property_name};
use std::alloc::Global;
use std::marker::Model;

/// The most nodes that can be open at once, the root included.
const MAX_DEPTH: usize = 64;

/// A devicetree blob in the making: the boot processor, the memory reservations, and the events of
/// a tree, which come in the order of the structure block (Devicetree Specification, 5.4.2). Names
/// and values are borrowed, not copied.
///
/// Unless its description says otherwise, each call takes time linear in the length of its name, if
/// it has one, apart from allocations. `property` looks its name up in a table of hashes.
/// `property_numbered` does so at the first use of a number, and takes constant time at each later
/// one.
///
/// The key of the hashes depends on all names that `with_names` was given. So a file cannot choose
/// such names with equal hashes, which a look-up would compare one by one. Names that only
/// `property` gets are not in the key, so give names that come from a file to `with_names`.
#[derive(Drop)]
pub struct Doc<'a> {
    boot_cpu: u32,
    reservations: Vec<(u64, u64)>,
    items: Vec<Item<'a>>,
    depth: usize,
    names: NumberedNames<'a>,
}

impl<'a> Model for Doc<'a> {
    ghost use Rattle.bi_lay.specs.Contents.{Doc};

    ghost Value = { Doc };

    ghost use Rattle.bi_lay.specs.Documents.{doc_model, IsConsistentDocument};

    ghost view = { doc_model };

    ghost invariant = { IsConsistentDocument };
}

impl<'a> Doc<'a> {
    ghost use Rattle.bi_blob.specs.Events.{NodeStart, NodeProperty, NodeEnd};
    ghost use Rattle.bi_blob.specs.Stages.{AfterRoot};
    ghost use Rattle.bi_blob.specs.Following.{stage_of_events, most_open_nodes};
    ghost use Rattle.bi_blob.specs.Following.{MayBegin, MayHaveNextProperty, MayEnd};
    ghost use Rattle.bi_blob.specs.Layout.{longest_text};
    ghost use Rattle.bi_blob.specs.TextLaws.{HasOneNormalTree};
    ghost use Rattle.bi_base.specs.Aligns.{align_bytes};
    ghost use Rattle.bi_base.specs.Slices.{bytes_of};
    ghost use Rattle.bi_lay.specs.Contents.{empty_content, empty_with_names, name_numbered};
    ghost use Rattle.bi_lay.specs.Contents.{text_of, with_reservation, with_event};
    ghost use Rattle.bi_lay.specs.Sizes.{AreBlockSizes};
    ghost use Rattle.bi_lay.specs.Values.{value_bytes};

    /// Returns a document for this boot processor, without reservations and with no node begun. The
    /// only error is `OutOfMemory`.
    pub fn new(alloc: Global, boot_cpu: u32) -> Result<Doc<'a>, Error>
        ensures empty { IfOk result (λ doc. doc ≡ empty_content boot_cpu) }
        ensures failed { IfErr result (λ error. error ≡ OutOfMemory) }
    {
        Doc::with_names(alloc, boot_cpu, Vec::new(alloc))
    }

    /// Returns a document for this boot processor, without reservations and with no node begun. The
    /// name of a property may be given by its number: its index in `names`. The names need not be
    /// distinct, nor in byte order. Takes time linear in their number and their total length. The
    /// only error is `OutOfMemory`.
    pub fn with_names(alloc: Global, boot_cpu: u32, names: Vec<&'a [u8]>) -> Result<Doc<'a>, Error>
        ensures empty { IfOk result (λ doc.
            doc ≡ empty_with_names boot_cpu (bytes_of names.entry.items)) }
        ensures failed { IfErr result (λ error. error ≡ OutOfMemory) }
    {
        Ok(Doc {
            boot_cpu,
            reservations: Vec::new(alloc),
            items: Vec::new(alloc),
            depth: 0,
            names: NumberedNames::new(alloc, names)?,
        })
    }

    /// Adds a memory reservation (Devicetree Specification, 5.3): `size` bytes from `address` on.
    /// Requires: `address` and `size` are not both 0.
    ///
    /// The only error is `OutOfMemory`. The document is then unchanged.
    pub fn reserve(&mut self, address: u64, size: u64) -> Result<(), Error>
        requires { 0 < address + size }
        ensures reserved { OnOk result (self.new ≡ with_reservation self.old address size) }
        ensures failed { IfErr result (λ error. (error ≡ OutOfMemory) × (self.new ≡ self.old)) }
    {
        self.reservations.push((address, size))?;
        Ok(())
    }

    /// Begins a node with the given name: a child of the innermost open node, or the root, which
    /// has an empty name. Requires: `may_begin` is true for this name.
    ///
    /// The only error is `OutOfMemory`. The document is then unchanged.
    pub fn begin(&mut self, name: &'a [u8]) -> Result<(), Error>
        requires { MayBegin most_open_nodes name.now (stage_of_events self.old.events) }
        ensures begun { OnOk result (self.new ≡ with_event self.old (NodeStart name.entry.now)) }
        ensures failed { IfErr result (λ error. (error ≡ OutOfMemory) × (self.new ≡ self.old)) }
    {
        self.items.reserve(self.depth + 2)?;
        self.items.push(Item::Begin(name)).unwrap();
        self.depth += 1;
        Ok(())
    }

    /// Adds a property to the innermost open node. Requires: `may_property` is true for this name.
    ///
    /// The only error is `OutOfMemory`. The document is then unchanged.
    pub fn property(&mut self, name: &'a [u8], value: Value<'a>) -> Result<(), Error>
        requires { MayHaveNextProperty name.now (stage_of_events self.old.events) }
        ensures added { let event = NodeProperty (name.entry.now, value_bytes value.entry) in
            OnOk result (self.new ≡ with_event self.old event) }
        ensures failed { IfErr result (λ error. (error ≡ OutOfMemory) × (self.new ≡ self.old)) }
    {
        self.items.reserve(self.depth + 1)?;
        let name_offset = self.names.add(name)?;
        let property = Property {
            name,
            name_offset,
            value,
        };
        self.items.push(Item::Property(property)).unwrap();
        Ok(())
    }

    /// Adds a property to the innermost open node, by the number of its name: the index among the
    /// names that were given to `with_names`. Takes constant time apart from allocations, except at
    /// the first use of a number, which looks the name up by its bytes. Requires: `may_property` is
    /// true for this name.
    ///
    /// The only error is `OutOfMemory`. The document is then unchanged.
    pub fn property_numbered(&mut self, number: usize, value: Value<'a>) -> Result<(), Error>
        requires { let name = name_numbered self.old.names number in
            MayHaveNextProperty name (stage_of_events self.old.events) }
        ensures added { let name = name_numbered self.old.names number in
            let event = NodeProperty (name, value_bytes value.entry) in
            OnOk result (self.new ≡ with_event self.old event) }
        ensures failed { IfErr result (λ error. (error ≡ OutOfMemory) × (self.new ≡ self.old)) }
    {
        self.items.reserve(self.depth + 1)?;
        let name = self.names.name(number);
        let name_offset = self.names.add_numbered(number)?;
        let property = Property {
            name,
            name_offset,
            value,
        };
        self.items.push(Item::Property(property)).unwrap();
        Ok(())
    }

    /// Ends the innermost open node. Allocates nothing. Requires: `may_end` is true.
    pub fn end(&mut self)
        requires { MayEnd (stage_of_events self.old.events) }
        ensures { self.new ≡ with_event self.old NodeEnd }
    {
        self.items.push(Item::End).unwrap();
        self.depth -= 1;
    }

    /// Returns whether `begin` may be called with this name: no node was begun and the name is
    /// empty; or 1 to 63 nodes are open, the name is not empty and has neither a zero nor a `/`,
    /// and no child of the innermost open node has it.
    ///
    /// Takes time linear in the number of events, since it looks for a child with the same name.
    /// `begin` itself does not look, so a caller that knows that the names of children differ need
    /// not call this.
    pub fn may_begin(&self, name: &[u8]) -> bool
        ensures { let stage = stage_of_events self.now.events in
            IsTrue result ↔ MayBegin most_open_nodes name.now stage }
    {
        if self.depth == 0 {
            return self.items.is_empty() && name.is_empty();
        }
        if self.depth == MAX_DEPTH {
            return false;
        }
        is_child_name(name) && is_new_child(&self.items, self.depth, name)
    }

    /// Returns whether `property` may be called with this name: a node is open and has no child
    /// yet, the name is not empty and has no zero, and it is greater in byte order than the name of
    /// the node's last property.
    pub fn may_property(&self, name: &[u8]) -> bool
        ensures { IsTrue result ↔ MayHaveNextProperty name.now (stage_of_events self.now.events) }
    {
        match self.items.last() {
            Some(Item::Begin(_)) => is_property_name(name),
            Some(Item::Property(last)) => is_property_name(name) && last.name.cmp(&name).is_lt(),
            Some(Item::End) | None => false,
        }
    }

    /// Returns whether `end` may be called: a node is open.
    pub fn may_end(&self) -> bool
        ensures { IsTrue result ↔ MayEnd (stage_of_events self.now.events) }
    {
        self.depth != 0
    }

    /// Returns whether the root was begun and ended. The events are then those of exactly one tree
    /// that a blob can hold, and the properties of each node come in byte order.
    pub fn is_closed(&self) -> bool
        ensures ended { IsTrue result ↔ (stage_of_events self.now.events ≡ AfterRoot) }
        ensures tree { IsTrue result → HasOneNormalTree self.now.events }
    {
        self.depth == 0 && !self.items.is_empty()
    }

    /// Returns the length of the document's text in bytes, or None if the text has more than
    /// 0x7fffffff bytes. Takes time linear in the number of events; `close` measures the text once
    /// for `size` and `emit` together. Requires: `is_closed` is true.
    pub fn size(&self) -> Option<u32>
        requires { stage_of_events self.now.events ≡ AfterRoot }
        ensures { MatchOption result (longest_text < length (text_of 4 self.now))
            (λ size. size ≡ length (text_of 4 self.now)) }
    {
        self.aligned_size(Align::four())
    }

    /// Returns the length in bytes of the document's text with this alignment, as `close_aligned`
    /// measures it, or None if that text has more than 0x7fffffff bytes. Takes time linear in the
    /// number of events. Requires: `is_closed` is true.
    pub fn aligned_size(&self, align: Align) -> Option<u32>
        requires { stage_of_events self.now.events ≡ AfterRoot }
        ensures { let text = text_of (align_bytes align) self.now in
            MatchOption result (longest_text < length text) (λ size. size ≡ length text) }
    {
        let sizes = self.block_sizes(align)?;
        Some(self.total_size(sizes))
    }

    /// Appends the document's text: the header, the memory reservation block, the structure block,
    /// the strings block, and zeros up to a multiple of four. Requires: `is_closed` is true and
    /// `size` is not None.
    ///
    /// The only errors are those of the sink. After one, the sink is as a failed `put` of the whole
    /// text leaves it.
    ///
    /// Takes time linear in the number of events and in the length of the text, and allocates
    /// nothing itself.
    pub fn emit<S: Sink>(&self, sink: &mut S) -> Result<(), Error>
        requires closed { stage_of_events self.now.events ≡ AfterRoot }
        requires small { length (text_of 4 self.now) ≤ longest_text }
        ensures { Wrote S.appends S.fails sink.old (text_of 4 self.now) result sink.new }
    {
        let Some(sizes) = self.block_sizes(Align::four()) else {
            unreachable!();
        };
        let mut pen = SinkPen::new(sink);
        self.put(sizes, &mut pen);
        pen.result()
    }

    /// Returns the sizes of the blocks of the document's text with this alignment, or None if the
    /// text has more than 0x7fffffff bytes. Takes time linear in the number of events.
    pub(crate) fn block_sizes(&self, align: Align) -> Option<BlockSizes>
        ensures { MatchOption result (longest_text < length (text_of (align_bytes align) self.now))
            (λ sizes. AreBlockSizes self.now sizes × (sizes.align ≡ align)) }
    {
        BlockSizes::measure(
            align,
            self.reservations.len(),
            &self.items,
            self.names.block_length(),
        )
    }

    /// Returns the length of the document's text in bytes, given the sizes of its blocks and its
    /// alignment. Requires: these are the sizes of the document's blocks.
    pub(crate) fn total_size(&self, sizes: BlockSizes) -> u32
        requires { AreBlockSizes self.now sizes }
        ensures size { result ≡ length (text_of (align_bytes sizes.align) self.now) }
        ensures small { result ≤ longest_text }
    {
        sizes.total()
    }

    /// Puts the document's text, given the sizes of its blocks and its alignment: the header, the
    /// memory reservation block, the structure block, the strings block, and zeros up to a multiple
    /// of the alignment.
    ///
    /// Takes time linear in the length of the text, and allocates nothing itself.
    /// Requires: these are the sizes of the document's blocks.
    pub(crate) fn put<P: Pen>(&self, sizes: BlockSizes, pen: &mut P)
        requires { AreBlockSizes self.now sizes }
        ensures { P.puts pen.old (text_of (align_bytes sizes.align) self.now) pen.new }
    {
        let parts = BlobParts {
            boot_cpu: self.boot_cpu,
            reservations: &self.reservations,
            items: &self.items,
            names: self.names.block_names(),
        };
        put_text(parts, sizes, pen)
    }
}

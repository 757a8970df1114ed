//! Reading a devicetree blob.

ghost use Rattle.std.specs.Prelude.{◌≡◌, ◌<◌, ◌≤◌, ◌^◌, length, map, slice_get, IfOk};
ghost use Rattle.std.specs.Prelude.{IfErr, OnOk};
ghost use Rattle.bi_base.specs.declared.fault.Fault.{Fault};
ghost use Rattle.bi_blob.specs.Blob as header;
ghost use Rattle.bi_blob.specs.Blob.{tree_blocks as tree_blocks_of, Header};
ghost use Rattle.bi_blob.specs.BlobFaults.{HasNoHeaderFault, HasReservations};
ghost use Rattle.bi_blob.specs.BlobFaults.{IsFaultBeforeTree};
ghost use Rattle.bi_fdt.specs.Blocks.{blocks_of};
ghost use Rattle.std.specs.List.{AllZip};
ghost use Rattle.bi_base.specs.Slices.{bytes_of};
ghost use Rattle.bi_blob.specs.Tree.{AreDistinct};
ghost use Rattle.bi_blob.specs.Lookups.{root_node};
ghost use Rattle.bi_fdt.specs.Table.{item_in};
ghost use Rattle.bi_fdt.specs.Reading.{IsTable};
ghost use Rattle.bi_fdt.specs.Content.{root_of};
ghost use Rattle.bi_fdt.specs.Numbers.{AreNumbered, FindsNumber, names_of_table};
ghost use Rattle.bi_fdt.specs.TreeNames.{AreNamesIn};
ghost use Rattle.bi_fdt.specs.ReadBlobs.{IsReadBlob, IsBlobReadError};

use crate::blocks::Blocks;
use crate::fields::{
    boot_cpuid_phys, off_dt_strings, off_dt_struct, off_mem_rsvmap, size_dt_strings, totalsize,
};
use crate::header::{check_header, structure_end};
use crate::kept_names::KeptNames;
use crate::node::NodeRef;
use crate::reservations::{PAIR_SIZE, count_reservations};
use crate::strings::Strings;
use crate::structure::read_tree;
use crate::table::{Entry, name_numbers};
use bi_base::{Error, Fault, Limits, two_cells_at};
use std::alloc::{AllocError, Global};
use std::marker::Model;

/// A devicetree blob that was read (Devicetree Specification, chapter 5). It has slices of its
/// file, one table of the nodes and properties of its tree, and the names of the properties.
#[derive(Drop)]
pub struct Blob<'a> {
    file: &'a [u8],
    reservation_count: usize,
    entries: Vec<Entry>,
    names: KeptNames<'a>,
}

impl<'a> Model for Blob<'a> {
    ghost use Rattle.std.specs.Prelude.{map};
    ghost use Rattle.bi_blob.specs.Blob as header;
    ghost use Rattle.bi_blob.specs.Blob.{reservations_at};
    ghost use Rattle.bi_fdt.specs.Table.{item_in};
    ghost use Rattle.bi_fdt.specs.Content.{Blob};
    ghost use Rattle.bi_fdt.specs.Fields.{IsBlobHeld};
    ghost use Rattle.bi_fdt.specs.TableNames.{AreTableNames};

    ghost Value = { Blob };

    ghost view = { λ blob. record {
      file = blob.file.now;
      cpu = header.boot_cpuid_phys blob.file.now;
      total_size = header.totalsize blob.file.now;
      reservations = reservations_at blob.file.now (header.off_mem_rsvmap blob.file.now)
          blob.reservation_count;
      table = map (item_in blob.file.now) blob.entries.items;
    } };

    ghost invariant = { λ blob.
        IsBlobHeld blob.file.now blob.reservation_count blob.entries.items
        × AreTableNames blob.file.now blob.entries.items blob.names };
}

impl<'a> Blob<'a> {
    ghost use Rattle.bi_fdt.specs.Views.{HasNodeAt, node_in, node_of, table_of_node};

    /// Reads a blob of version 16 or 17, or of a later version that is compatible with 17. The file
    /// may be longer than the blob.
    ///
    /// Succeeds if the file is a blob within the limits, unless memory runs out. Otherwise it fails
    /// with the fault of the first check that fails:
    ///
    /// - in the header: TooLarge at the limit; Truncated at 0, if the file has fewer than four
    ///   bytes; BadMagic at 0; Truncated at 0, if the file ends before the header does; BadVersion
    ///   at 20 and at 24; BadTotalSize at 4; Truncated at 4 if `totalsize` is greater than the
    ///   file's length; BadOffset at 16, 8 and 12 for the memory reservation block, the structure
    ///   block and the strings block;
    /// - in the memory reservation block: Truncated at the first pair that ends after `totalsize`;
    /// - in the structure block, at the token: Truncated if the block ends inside it; BadToken;
    ///   TooDeep, BadName and DuplicateNode for a node; PropertyAfterChild, BadNameOffset, BadName
    ///   and DuplicateProperty for a property.
    ///
    /// OutOfMemory occurs only if the header and the memory reservation block have no fault.
    pub fn read(alloc: Global, file: &'a [u8], limits: Limits) -> Result<Blob<'a>, Error>
        ensures read { IfOk result (IsReadBlob limits file.entry.now) }
        ensures failed { IfErr result (IsBlobReadError limits file.entry.now) }
    {
        let reservation_count = check_before_tree(file, limits)?;
        let strings = Strings::new(alloc, strings_block(file))?;
        let blocks = tree_blocks(file, &strings);
        let (entries, names) = read_tree(alloc, blocks, usize::from(limits.depth()))?;
        Ok(Blob {
            file,
            reservation_count,
            entries,
            names: names.into_kept(),
        })
    }

    /// Returns the file, which may be longer than the blob.
    pub fn file(&self) -> &'a [u8]
        ensures { result.now ≡ self.now.file }
    {
        self.file
    }

    /// Returns the physical number of the boot processor (Devicetree Specification, 5.2:
    /// boot_cpuid_phys).
    pub fn boot_cpu(&self) -> u32
        ensures { result ≡ self.now.cpu }
    {
        boot_cpuid_phys(self.file)
    }

    /// Returns the length of the blob in bytes (Devicetree Specification, 5.2: totalsize).
    pub fn total_size(&self) -> u32
        ensures { result ≡ self.now.total_size }
    {
        totalsize(self.file)
    }

    /// Returns the number of the memory reservations (Devicetree Specification, 5.3).
    pub fn reservation_count(&self) -> usize
        ensures { result ≡ length self.now.reservations }
    {
        self.reservation_count
    }

    /// Returns the address and the size of memory reservation `index`, counted from 0. Returns None
    /// if there is no such reservation.
    pub fn reservation(&self, index: usize) -> Option<(u64, u64)>
        ensures { result ≡ slice_get (map
            (λ reservation. (reservation.address, reservation.size)) self.now.reservations) index }
    {
        if index >= self.reservation_count {
            return None;
        }
        let place = off_mem_rsvmap(self.file) as usize + PAIR_SIZE * index;
        Some((
            two_cells_at(self.file, place),
            two_cells_at(self.file, place + 8),
        ))
    }

    /// Returns the root of the tree.
    pub fn root<'b>(&'b self) -> NodeRef<'a, 'b>
        ensures root { node_of result ≡ root_node (root_of self.now) }
        ensures same_table { table_of_node result ≡ self.now.table }
    {
        NodeRef::new(self)
    }

    /// Returns the node at an index in the table. Takes constant time. Requires: the index is that
    /// of a node of this blob, as `NodeRef::index` returns it.
    pub fn node<'b>(&'b self, index: usize) -> NodeRef<'a, 'b>
        requires { HasNodeAt self.now.table index }
        ensures node { node_of result ≡ node_in self.now.table index }
        ensures same_table { table_of_node result ≡ self.now.table }
    {
        NodeRef::at(self, index)
    }

    /// Returns the names of the properties, each once, in the order of their first use in the file.
    /// The number of a name is its index.
    pub fn names(&self) -> &[&'a [u8]]
        ensures names { bytes_of result.now ≡ names_of_table self.now.table }
        ensures distinct { AreDistinct (names_of_table self.now.table) }
        ensures in_tree { AreNamesIn (names_of_table self.now.table) (root_of self.now) }
    {
        self.names.names()
    }

    /// Returns a number for each node and property, in the order of the file: for a property the
    /// number of its name, and for a node any number. Fails if memory runs out.
    pub fn name_numbers(&self, alloc: Global) -> Result<Vec<usize>, AllocError>
        ensures { IfOk result (λ numbers.
            AreNumbered (names_of_table self.now.table) self.now.table numbers.items) }
    {
        name_numbers(alloc, &self.entries)
    }

    /// Returns the number of the given name. Returns None if no property has this name. Takes time
    /// linear in the number of the names.
    pub fn name_number(&self, name: &[u8]) -> Option<usize>
        ensures { FindsNumber (names_of_table self.now.table) name.now result }
    {
        self.names.find(name)
    }

    /// Returns, for each name in the order of `names`, the number of the same name in another blob,
    /// or None if no property of that blob has the name. Takes n log n time in the lengths of the
    /// strings blocks and the number of names, however long the names are and however many of them
    /// share bytes. Fails if memory runs out.
    pub fn names_in_terms_of(
        &self,
        alloc: Global,
        other: &Blob<'a>,
    ) -> Result<Vec<Option<usize>>, AllocError>
        ensures { IfOk result (λ numbers. AllZip (FindsNumber (names_of_table other.now.table))
            (names_of_table self.now.table) numbers.items) }
    {
        self.names.in_terms_of(alloc, &other.names)
    }

    /// Returns the table of the tree.
    pub(crate) fn entries(&self) -> &[Entry]
        ensures items { map (item_in self.now.file) result.now ≡ self.now.table }
        ensures is_table { IsTable self.now.file result.now (root_of self.now) }
        ensures small { length self.now.table < 2 ^ 63 }
    {
        &self.entries
    }
}

/// Makes the checks of the header and of the memory reservation block, and counts the reservations.
fn check_before_tree(file: &[u8], limits: Limits) -> Result<usize, Fault>
    ensures header { OnOk result (HasNoHeaderFault limits file.now) }
    ensures reservations { IfOk result (HasReservations file.now
        (header.off_mem_rsvmap file.now) (header.totalsize file.now)) }
    ensures fault { IfErr result (IsFaultBeforeTree limits file.now) }
{
    check_header(file, limits)?;
    count_reservations(
        file,
        off_mem_rsvmap(file) as usize,
        totalsize(file) as usize,
    )
}

/// Returns the bytes of the strings block of a file. Requires: the file has the first 36 bytes of
/// its header, and the whole block.
fn strings_block(file: &[u8]) -> &[u8]
    requires header { 36 ≤ length file.now }
    requires strings { header.strings_end file.now ≤ length file.now }
    ensures { result.now ≡ (tree_blocks_of file.entry.now).strings }
{
    let strings = off_dt_strings(file) as usize;
    &file[strings..strings + size_dt_strings(file) as usize]
}

/// Returns the blocks that hold the tree of a file. Requires: its header was checked, and `strings`
/// are the bytes of its strings block.
fn tree_blocks<'a, 's>(file: &'a [u8], strings: &'s Strings<'a>) -> Blocks<'a, 's>
    requires header { Header file.now }
    requires strings { strings.now ≡ (tree_blocks_of file.now).strings }
    ensures blocks { blocks_of result ≡ tree_blocks_of file.entry.now }
    ensures strings_begin { result.strings_begin ≡ header.off_dt_strings file.entry.now }
{
    Blocks {
        file,
        begin: off_dt_struct(file) as usize,
        end: structure_end(file),
        strings,
        strings_begin: off_dt_strings(file) as usize,
    }
}

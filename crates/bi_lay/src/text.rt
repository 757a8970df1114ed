//! Writing a text: its header, memory reservation block, structure block and strings block
//! (Devicetree Specification, chapter 5).

ghost use Rattle.std.specs.Prelude.{◌≡◌, ◌++◌, length};
ghost use Rattle.bi_base.specs.Aligns.{align_bytes};
ghost use Rattle.bi_base.specs.Cells.{cell8};
ghost use Rattle.bi_blob.specs.Blob.{reservation_block};
ghost use Rattle.bi_blob.specs.Layout.{blob_header, text_length, text_of_blocks, strings_of};
ghost use Rattle.bi_base.specs.Slices.{bytes_of};
ghost use Rattle.bi_lay.specs.Items.{structure_of_items, reservations_of};

use crate::items::Item;
use crate::sizes::BlockSizes;
use crate::structure::{put_cell, put_string, put_structure};
use bi_base::{Pen, PenSink, put_zeros};
use bi_blob::format::MAGIC;

/// The offset of the memory reservation block, after the header (Devicetree Specification, 5.2).
const RESERVATIONS_OFFSET: u32 = 40;

/// The version of the text, and the least version whose readers can read it (Devicetree
/// Specification, 5.2).
const VERSION: u32 = 17;

const LAST_COMPATIBLE_VERSION: u32 = 16;

/// What the text of a document is made from.
#[derive(Clone, Copy)]
pub(crate) struct BlobParts<'a> {
    pub(crate) boot_cpu: u32,
    pub(crate) reservations: &'a [(u64, u64)],
    pub(crate) items: &'a [Item<'a>],
    pub(crate) names: &'a [&'a [u8]],
}

/// Puts the text of these parts, given the sizes of its blocks and its alignment. Requires: the
/// sizes are those of the blocks of these parts.
#[tactic(auto, unfolding(bi_blob::specs::Layout::text_of_blocks))]
pub(crate) fn put_text<P: Pen>(parts: BlobParts<'_>, sizes: BlockSizes, pen: &mut P)
    requires reservations { let reservations = reservations_of parts.reservations.now in
        sizes.reservations ≡ length (reservation_block reservations) }
    requires structure { sizes.structure ≡ length (structure_of_items parts.items.now) }
    requires strings { sizes.strings ≡ length (strings_of (bytes_of parts.names.now)) }
    ensures { let parts = parts.entry in
        P.puts pen.old
        (text_of_blocks (align_bytes sizes.align) parts.boot_cpu
        (reservation_block (reservations_of parts.reservations.now))
        (structure_of_items parts.items.now) (strings_of (bytes_of parts.names.now))) pen.new }
{
    put_header(parts.boot_cpu, sizes, pen);
    put_reservations(parts.reservations, pen);
    put_structure(parts.items, pen);
    put_names(parts.names, pen);
    let padding = sizes.total() - sizes.before_padding();
    let _ = put_zeros(padding as usize, &mut PenSink::new(pen));
}

/// Puts the header of a text, given the sizes of its blocks.
fn put_header<P: Pen>(boot_cpu: u32, sizes: BlockSizes, pen: &mut P)
    ensures { P.puts pen.old
        (blob_header boot_cpu
        (text_length (align_bytes sizes.align) sizes.reservations sizes.structure sizes.strings)
        sizes.reservations sizes.structure sizes.strings) pen.new }
{
    put_cell(MAGIC, pen);
    put_cell(sizes.total(), pen);
    put_cell(sizes.structure_offset(), pen);
    put_cell(sizes.strings_offset(), pen);
    put_cell(RESERVATIONS_OFFSET, pen);
    put_cell(VERSION, pen);
    put_cell(LAST_COMPATIBLE_VERSION, pen);
    put_cell(boot_cpu, pen);
    put_cell(sizes.strings, pen);
    put_cell(sizes.structure, pen);
}

/// Puts the memory reservation block (Devicetree Specification, 5.3).
fn put_reservations<P: Pen>(reservations: &[(u64, u64)], pen: &mut P)
    ensures { P.puts pen.old (reservation_block (reservations_of reservations.now)) pen.new }
{
    for &(address, size) in reservations {
        put_pair(address, size, pen);
    }
    put_pair(0, 0, pen);
}

/// Puts a pair of the memory reservation block (Devicetree Specification, 5.3.2).
fn put_pair<P: Pen>(address: u64, size: u64, pen: &mut P)
    ensures { P.puts pen.old (cell8 address ++ cell8 size) pen.new }
{
    put_two_cells(address, pen);
    put_two_cells(size, pen);
}

/// Puts the eight bytes of a number, the highest first (Devicetree Specification, 2.2.4.2: u64).
#[tactic(auto, unfolding(bi_base::specs::Cells::cell8))]
fn put_two_cells<P: Pen>(number: u64, pen: &mut P)
    ensures { P.puts pen.old (cell8 number) pen.new }
{
    pen.put(&number.to_be_bytes());
}

/// Puts the strings block of these names (Devicetree Specification, 5.5).
fn put_names<P: Pen>(names: &[&[u8]], pen: &mut P)
    ensures { P.puts pen.old (strings_of (bytes_of names.now)) pen.new }
{
    for name in names {
        put_string(name, pen);
    }
}

//! The sizes of the blocks of a text.

ghost use Rattle.std.specs.Prelude.{◌≡◌, ◌+◌, ◌-◌, ◌*◌, ◌<◌, ◌≤◌, length, MatchOption};
ghost use Rattle.bi_base.specs.Aligns.{align_bytes};
ghost use Rattle.bi_blob.specs.Layout.{length_before_padding, text_length, longest_text};
ghost use Rattle.bi_lay.specs.Items.{structure_of_items};

use crate::items::Item;
use crate::structure::structure_size;
use bi_base::Align;

/// The greatest length of a text in bytes.
const LONGEST_TEXT: u64 = 0x7fff_ffff;

/// The header's size in bytes (Devicetree Specification, 5.2).
const HEADER_SIZE: u32 = 40;

/// The sizes in bytes of the blocks of a text, and the alignment of its length. The text is not too
/// long.
#[derive(Clone, Copy)]
pub(crate) struct BlockSizes {
    pub(crate) align: Align,
    pub(crate) reservations: u32,
    pub(crate) structure: u32,
    pub(crate) strings: u32,
    ghost small: { length_before_padding reservations structure strings ≤ longest_text },
    ghost fits: { text_length (align_bytes align) reservations structure strings ≤ longest_text },
}

impl BlockSizes {
    /// Returns the sizes of the blocks with this many reservations, these items and a strings block
    /// of this many bytes. Returns None if the text with this alignment would have more than
    /// 0x7fffffff bytes.
    pub(crate) fn measure(
        align: Align,
        reservation_count: usize,
        items: &[Item<'_>],
        strings: usize,
    ) -> Option<BlockSizes>
        ensures { let structure = length (structure_of_items items.now) in
            let reserved = 16 * reservation_count + 16 in
            MatchOption result
            (longest_text < text_length (align_bytes align) reserved structure strings)
            (λ sizes. (sizes.reservations ≡ reserved) × (sizes.structure ≡ structure)
            × (sizes.strings ≡ strings) × (sizes.align ≡ align)) }
    {
        let most = LONGEST_TEXT;
        let pairs = (reservation_count as u64).saturating_add(1);
        let structure = structure_size(items);
        let strings = strings as u64;
        if pairs > most || structure > most || strings > most {
            return None;
        }
        let before_padding = 40 + 16 * pairs + structure + strings;
        if align.up_to(before_padding as usize) as u64 > most {
            return None;
        }
        Some(BlockSizes {
            align,
            reservations: (16 * pairs) as u32,
            structure: structure as u32,
            strings: strings as u32,
        })
    }

    /// Returns the offset of the structure block.
    pub(crate) fn structure_offset(&self) -> u32
        ensures { result ≡ 40 + self.now.reservations }
    {
        HEADER_SIZE + self.reservations
    }

    /// Returns the offset of the strings block.
    pub(crate) fn strings_offset(&self) -> u32
        ensures { result ≡ 40 + self.now.reservations + self.now.structure }
    {
        self.structure_offset() + self.structure
    }

    /// Returns the length of the text before its padding.
    pub(crate) fn before_padding(&self) -> u32
        ensures { let sizes = self.now in
            result ≡ length_before_padding sizes.reservations sizes.structure sizes.strings }
    {
        self.strings_offset() + self.strings
    }

    /// Returns the length of the text.
    pub(crate) fn total(&self) -> u32
        ensures { let sizes = self.now in
            result ≡ text_length (align_bytes sizes.align) sizes.reservations sizes.structure
            sizes.strings }
    {
        self.align.up_to(self.before_padding() as usize) as u32
    }
}

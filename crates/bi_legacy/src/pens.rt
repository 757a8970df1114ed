//! A pen that computes a checksum, and cells.

ghost use Rattle.bi_base.specs.Cells.{cell};

use bi_base::{Crc32, Pen};

/// A pen that adds what it is put to a CRC-32, and does not keep it.
#[derive(Drop)]
pub(crate) struct ChecksumPen {
    pub(crate) sum: Crc32,
}

impl Pen for ChecksumPen {
    ghost use Rattle.bi_base.specs.CrcSink.{AddsToCrc, adds_nothing_to_crc, adds_to_crc_in_turn};

    ghost puts = { λ old bytes new. AddsToCrc old.sum bytes new.sum };

    fn put(&mut self, bytes: &[u8]) {
        self.sum.update(bytes);
    }

    fn has_failed(&self) -> bool {
        false
    }

    ghost puts_nothing = { λ a. adds_nothing_to_crc a.sum };

    ghost puts_in_turn = { λ a b c. adds_to_crc_in_turn a.sum b.sum c.sum };
}

/// Puts a number as a cell: its four bytes, the highest first.
#[tactic(auto, unfolding(bi_base::specs::Cells::cell))]
pub(crate) fn put_cell<P: Pen>(number: u32, pen: &mut P)
    ensures { P.puts pen.old (cell number) pen.new }
{
    pen.put(&number.to_be_bytes())
}

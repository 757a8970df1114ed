//! A closed document: one whose text can be written.

ghost use Rattle.std.specs.Prelude.{◌≡◌, ◌<◌, ◌≤◌, length, MatchOption};
ghost use Rattle.bi_base.specs.Aligns.{align_bytes};
ghost use Rattle.bi_base.specs.Sinks.{Wrote};
ghost use Rattle.bi_blob.specs.Stages.{AfterRoot};
ghost use Rattle.bi_blob.specs.Following.{stage_of_events};
ghost use Rattle.bi_blob.specs.Layout.{longest_text};
ghost use Rattle.bi_lay.specs.Contents.{text_of};

use crate::document::Doc;
use crate::sizes::BlockSizes;
use bi_base::{Align, Error, Pen, Sink, SinkPen};
use std::marker::Model;

/// A document whose root has ended and whose text has at most 0x7fffffff bytes, with the sizes of
/// its blocks and the alignment of its text. Nothing can be added to it.
#[derive(Drop)]
pub struct ClosedDoc<'a> {
    doc: Doc<'a>,
    sizes: BlockSizes,
}

impl<'a> Model for ClosedDoc<'a> {
    ghost use Rattle.std.specs.Prelude.{ℕ, List};

    ghost Value = { List ℕ };

    ghost use Rattle.bi_lay.specs.ClosedDocuments.{closed_doc_model, IsClosedDocument};

    ghost view = { closed_doc_model };

    ghost invariant = { IsClosedDocument };
}

impl<'a> Doc<'a> {
    /// Measures the blocks of the document's text. Returns the closed document, or None if its text
    /// has more than 0x7fffffff bytes. Takes time linear in the number of events. Requires:
    /// `is_closed` is true.
    pub fn close(self) -> Option<ClosedDoc<'a>>
        requires { stage_of_events self.events ≡ AfterRoot }
        ensures { MatchOption result (longest_text < length (text_of 4 self.entry))
            (λ closed. closed ≡ text_of 4 self.entry) }
    {
        self.close_aligned(Align::four())
    }

    /// Measures the blocks of the document's text, as `close` does. The length of the text is a
    /// multiple of `align`, with zeros at its end. Returns None if that text has more than
    /// 0x7fffffff bytes. Requires: `is_closed` is true.
    pub fn close_aligned(self, align: Align) -> Option<ClosedDoc<'a>>
        requires { stage_of_events self.events ≡ AfterRoot }
        ensures { let text = text_of (align_bytes align) self.entry in
            MatchOption result (longest_text < length text) (λ closed. closed ≡ text) }
    {
        let sizes = self.block_sizes(align)?;
        Some(ClosedDoc { doc: self, sizes })
    }
}

impl<'a> ClosedDoc<'a> {
    /// Returns the length of the text in bytes, which is at most 0x7fffffff.
    pub fn size(&self) -> u32
        ensures size { result ≡ length self.now }
        ensures small { result ≤ longest_text }
    {
        self.doc.total_size(self.sizes)
    }

    /// Appends the document's text: the header, the memory reservation block, the structure block,
    /// the strings block, and zeros up to a multiple of the alignment.
    ///
    /// The only errors are those of the sink. After one, the sink is as a failed `put` of the whole
    /// text leaves it.
    ///
    /// Takes time linear in the length of the text, and allocates nothing itself.
    pub fn emit<S: Sink>(&self, sink: &mut S) -> Result<(), Error>
        ensures { Wrote S.appends S.fails sink.old self.now result sink.new }
    {
        let mut pen = SinkPen::new(sink);
        self.put(&mut pen);
        pen.result()
    }

    /// Puts the document's text to a pen, as `emit` appends it to a sink. Takes time linear in the
    /// length of the text, and allocates nothing itself.
    pub fn put<P: Pen>(&self, pen: &mut P)
        ensures { P.puts pen.old self.now pen.new }
    {
        self.doc.put(self.sizes, pen)
    }
}

//! The text of a flattened image tree.

ghost use Rattle.std.specs.Prelude.{◌≡◌, ◌<◌, ◌≤◌, length, IfOk, IfErr};
ghost use Rattle.bi_base.specs.Reading.{too_large};
ghost use Rattle.bi_base.specs.Sinks.{Wrote};
ghost use Rattle.bi_blob.specs.Following.{stage_of_events};
ghost use Rattle.bi_blob.specs.Layout.{longest_text};
ghost use Rattle.bi_blob.specs.Stages.{AfterRoot};
ghost use Rattle.bi_fit.specs.Documents.{length_after_blob, whole_text};
ghost use Rattle.bi_fit.specs.NormalNodes.{payloads_of};

use crate::form::Form;
use crate::image::Image;
use crate::payload_area::put_payloads;
use bi_base::{Cause, Error, Fault, Pen, Sink, SinkPen, refuse};
use bi_lay::{ClosedDoc, Doc};
use std::marker::Model;

/// The text of a flattened image tree, laid out and measured: a blob, and unless the form is
/// Embedded the payloads after it. Names, values and payloads are borrowed, not copied.
#[derive(Drop)]
pub struct FitText<'a> {
    blob: ClosedDoc<'a>,
    form: Form,
    /// The images with the payloads that follow the blob, unless the form is Embedded.
    images: &'a [Image<'a>],
    size: u32,
}

impl<'a> Model for FitText<'a> {
    ghost use Rattle.std.specs.Prelude.{ℕ, List};

    ghost Value = { List ℕ };

    ghost use Rattle.bi_fit.specs.FitTexts.{fit_text_model, IsConsistentText};

    ghost view = { fit_text_model };

    ghost invariant = { IsConsistentText };
}

impl<'a> FitText<'a> {
    /// Lays out a document and, unless the form is Embedded, the payloads of these images after it,
    /// which take `after` bytes. Takes time linear in the number of the document's events.
    /// Requires: the document is closed, the payloads take `after` bytes after its blob, and
    /// `after` is at most the limit, which is at most 0x7fffffff.
    ///
    /// Error: TooLarge at the limit, if the text is longer than that.
    pub(crate) fn new(
        document: Doc<'a>,
        form: Form,
        images: &'a [Image<'a>],
        after: u32,
        limit: u32,
    ) -> Result<FitText<'a>, Fault>
        requires closed { stage_of_events document.events ≡ AfterRoot }
        requires after { after ≡ length_after_blob form (payloads_of images.now) }
        requires within { after ≤ limit }
        requires small { limit ≤ longest_text }
        ensures text { IfOk result (λ text.
            text ≡ whole_text form document.entry (payloads_of images.entry.now)) }
        ensures short { IfOk result (λ text. length text ≤ limit) }
        ensures fault { IfErr result (λ fault. (fault ≡ too_large limit)
            × (limit < length (whole_text form document.entry (payloads_of images.entry.now)))) }
    {
        let Some(blob) = document.close_aligned(form.align()) else {
            return refuse(Cause::TooLarge, limit);
        };
        let size = blob.size() + after;
        if size > limit {
            return refuse(Cause::TooLarge, limit);
        }
        Ok(FitText {
            blob,
            form,
            images,
            size,
        })
    }

    /// Returns the length of the text in bytes, at most 0x7fffffff.
    pub fn size(&self) -> u32
        ensures size { result ≡ length self.now }
        ensures small { result ≤ longest_text }
    {
        self.size
    }

    /// Appends the text. Takes time linear in the length of the text, and allocates nothing itself.
    ///
    /// The only errors are those of the sink. After one, the sink is as a failed `put` of the whole
    /// text leaves it.
    pub fn emit<S: Sink>(&self, sink: &mut S) -> Result<(), Error>
        ensures { Wrote S.appends S.fails sink.old self.now result sink.new }
    {
        let mut pen = SinkPen::new(sink);
        self.put(&mut pen);
        pen.result()
    }

    /// Puts the text.
    fn put<P: Pen>(&self, pen: &mut P)
        ensures { P.puts pen.old self.now pen.new }
    {
        self.blob.put(pen);
        match self.form {
            Form::Embedded => {}
            Form::External | Form::Aligned(_) => {
                put_payloads(self.images, self.form.align(), pen);
            }
        }
    }
}

//! The payloads after the blob of a text. Their offsets are counted from the end of the blob.

ghost use Rattle.std.specs.Prelude.{◌≡◌, ◌+◌, ◌-◌, ◌^◌, ◌<◌, ◌≤◌, [], ◌∷◌, min, IfOk, IfErr};
ghost use Rattle.std.specs.Option.{option_map};
ghost use Rattle.bi_base.specs.Aligns.{align_bytes};
ghost use Rattle.bi_base.specs.Reading.{too_large};
ghost use Rattle.bi_blob.specs.Layout.{longest_text};
ghost use Rattle.bi_fit.specs.Documents.{length_after_blob as length_after_blob_of};
ghost use Rattle.bi_fit.specs.Text.{end_after, payload_area, payloads_end as payloads_end_of};
ghost use Rattle.bi_fit.specs.NormalNodes.{payloads_of, next_begin, next_end};

use crate::form::Form;
use crate::image::Image;
use bi_base::{Align, Cause, Fault, Pen, PenSink, put_zeros, refuse};

/// The area of the payloads after the blob, which grows payload by payload. In the form Embedded it
/// stays empty.
#[derive(Clone, Copy)]
pub(crate) struct PayloadArea {
    /// Where the text has the payloads.
    pub(crate) form: Form,
    /// Where it ends.
    end: usize,
}

impl PayloadArea {
    /// Returns an area without payloads.
    pub(crate) fn new(form: Form) -> PayloadArea
        ensures form { result.form ≡ form }
        ensures end { result.end ≡ 0 }
    {
        PayloadArea { form, end: 0 }
    }

    /// Places the payload of one more image, and returns where it begins if it follows the blob.
    /// Changes nothing for an image without a payload. The end saturates at `usize::MAX`.
    /// Requires: the end is at least 2^20 below 2^64.
    pub(crate) fn place(&mut self, payload: Option<&[u8]>) -> usize
        requires { self.old.end + 0xfffff < 2 ^ 64 }
        ensures begin { result ≡ next_begin self.old.form self.old.end }
        ensures form { self.new.form ≡ self.old.form }
        ensures end { let given = option_map (λ payload. payload.now) payload.entry in
            self.new.end ≡ min (next_end self.old.form self.old.end given) (2 ^ 64 - 1) }
    {
        let begin = self.form.align().up_to(self.end);
        if let (Form::External | Form::Aligned(_), Some(payload)) = (self.form, payload) {
            self.end = begin.saturating_add(payload.len());
        }
        begin
    }
}

/// Returns how many bytes follow the blob: none in the form Embedded, else the payloads of these
/// images. Fails with TooLarge at the limit, if there are more bytes than that.
pub(crate) fn length_after_blob(images: &[Image<'_>], form: Form, limit: u32) -> Result<u32, Fault>
    ensures length { IfOk result (λ length.
        length ≡ length_after_blob_of form (payloads_of images.now)) }
    ensures within { IfOk result (λ length. length ≤ limit) }
    ensures fault { IfErr result (λ fault. (fault ≡ too_large limit)
        × (limit < length_after_blob_of form (payloads_of images.now))) }
{
    match form {
        Form::Embedded => Ok(0),
        Form::External | Form::Aligned(_) => payloads_end(images, form.align(), limit),
    }
}

/// Returns where the payloads of images end with this alignment. Fails with TooLarge at the limit,
/// if that is after it.
fn payloads_end(images: &[Image<'_>], align: Align, limit: u32) -> Result<u32, Fault>
    ensures end { IfOk result (λ end.
        end ≡ payloads_end_of (align_bytes align) 0 (payloads_of images.now)) }
    ensures within { IfOk result (λ end. end ≤ limit) }
    ensures fault { IfErr result (λ fault. (fault ≡ too_large limit)
        × (limit < payloads_end_of (align_bytes align) 0 (payloads_of images.now))) }
{
    let mut area = PayloadArea::new(Form::Aligned(align));
    for image in images {
        area.place(image.payload);
        if area.end > limit as usize {
            return refuse(Cause::TooLarge, limit);
        }
    }
    Ok(area.end as u32)
}

/// Puts the payloads of images in their order, each after zeros up to a multiple of this alignment,
/// even an empty payload. Requires: the payloads, so placed, end within the longest text.
pub(crate) fn put_payloads<P: Pen>(images: &[Image<'_>], align: Align, pen: &mut P)
    requires { payloads_end_of (align_bytes align) 0 (payloads_of images.now) ≤ longest_text }
    ensures { P.puts pen.old (payload_area (align_bytes align) 0 (payloads_of images.now))
        pen.new }
{
    let mut end = 0;
    for image in images {
        end = put_payload(image.payload, align, end, pen);
    }
}

/// Puts the payload of one more image, if it has one, where the payloads before it end at `end`.
/// Returns where the payloads end then. Requires: that is within the longest text.
fn put_payload<P: Pen>(payload: Option<&[u8]>, align: Align, end: usize, pen: &mut P) -> usize
    requires { let given = option_map (λ payload. payload.now) payload in
        end_after (align_bytes align) end given ≤ longest_text }
    ensures end { let given = option_map (λ payload. payload.now) payload.entry in
        result ≡ end_after (align_bytes align) end given }
    ensures written { let given = option_map (λ payload. payload.now) payload.entry in
        P.puts pen.old (payload_area (align_bytes align) end (given ∷ [])) pen.new }
{
    let Some(payload) = payload else {
        return end;
    };
    let begin = align.up_to(end);
    let _ = put_zeros(begin - end, &mut PenSink::new(pen));
    pen.put(payload);
    begin + payload.len()
}

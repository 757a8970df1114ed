//! The normal form of a file.

ghost use Rattle.std.specs.Prelude.{ℕ, List};
ghost use Rattle.bi_fit.specs.declared.form.Form.{Form};
ghost use Rattle.bi_fit.specs.Reading.{IsReadFit};
ghost use Rattle.bi_legacy.specs.Reading.{IsReadLegacy};
ghost use Rattle.bi_norm.specs.NormalForm.{IsNormaliseOutput, IsNormaliseError};
ghost use Rattle.bi_c.specs.Answers.{FillsBuffer, IsFailureBy};
ghost use Rattle.bi_c.specs.Calls.{IsNormalised, IsNormaliseFailure};

use crate::answer::{Answer, fail};
use crate::argument::{Argument, wrong_limit};
use crate::arguments::{form_of, limits_of};
use crate::failure::{Failure, failure_of};
use crate::writing::{write_legacy, write_tree};
use bi_base::Limits;
use bi_fit::{Fit, Form};
use bi_legacy::Legacy;
use bi_norm::BootImage;
use std::alloc::Global;

/// Writes the normal form of a file to a buffer, and sets `answer.value` to the number of its
/// signature nodes. `form` is 0 for payloads inside the blob and 1 for payloads after it, or the
/// alignment in bytes of payloads after it. Returns the status.
#[unsafe(no_mangle)]
pub extern "C" fn bootimg_normalise(
    alloc: Global,
    file: &[u8],
    form: u32,
    limit: u32,
    depth: u32,
    buffer: &mut [u8],
    answer: &mut Answer,
) -> u32
    ensures { FillsBuffer (IsNormalised limit depth form file.now)
        (IsNormaliseFailure limit depth form file.now) buffer.old buffer.new answer.new result }
{
    let Some(limits) = limits_of(limit, depth) else {
        return fail(Failure::WrongArgument(wrong_limit(limit), 0), answer);
    };
    let Some(kind) = form_of(form) else {
        return fail(Failure::WrongArgument(Argument::Form, 0), answer);
    };
    match BootImage::read(alloc, file, limits) {
        Ok(BootImage::Legacy(image)) => {
            normalise_legacy(alloc, file, &image, limits, buffer, answer)
        }
        Ok(BootImage::Fit(fit)) => normalise_fit(alloc, &fit, kind, limits, buffer, answer),
        Err(error) => fail(failure_of(error), answer),
    }
}

/// Writes the normal form of a legacy image of a file, and the answer. Returns the status.
/// Requires: reading the file under the limits gives this image.
fn normalise_legacy(
    alloc: Global,
    file: &[u8],
    image: &Legacy<'_>,
    limits: Limits,
    buffer: &mut [u8],
    answer: &mut Answer,
) -> u32
    requires { IsReadLegacy limits file.now image.now }
    ensures { (form : Form)
        → FillsBuffer (λ text value. IsNormaliseOutput limits form value file.now text)
        (IsFailureBy (IsNormaliseError limits form file.now)) buffer.old buffer.new answer.new
        result }
{
    write_legacy(alloc, file, image, limits, buffer, answer)
}

/// Writes the normal form of a flattened image tree that was read under the limits, and the answer.
/// Returns the status.
fn normalise_fit(
    alloc: Global,
    fit: &Fit<'_>,
    form: Form,
    limits: Limits,
    buffer: &mut [u8],
    answer: &mut Answer,
) -> u32
    ensures { (file : List ℕ) → IsReadFit limits file fit.now →
        FillsBuffer (λ text value. IsNormaliseOutput limits form value file text)
        (IsFailureBy (IsNormaliseError limits form file)) buffer.old buffer.new answer.new result }
{
    match fit.text(alloc, form, limits) {
        Ok(text) => write_tree(&text, fit.signature_count(), buffer, answer),
        Err(error) => fail(failure_of(error), answer),
    }
}

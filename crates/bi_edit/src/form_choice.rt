//! The form of the text of an edited boot image.

ghost use Rattle.std.specs.Prelude.{◌≡◌, List, ℕ, max, IfOk, IfSome, IfNone};
ghost use Rattle.bi_base.specs.Aligns.{align_bytes};
ghost use Rattle.bi_base.specs.Limits.{Limits};
ghost use Rattle.bi_fit.specs.Content.{tree_of};
ghost use Rattle.bi_fit.specs.Kept.{IsPower};
ghost use Rattle.bi_fit.specs.Reading.{IsReadFit};
ghost use Rattle.bi_norm.specs.Meaning.{OfFit};
ghost use Rattle.bi_edit.specs.FormChoices.{IsChosenForm, IsFormOfPlaced};
ghost use Rattle.bi_edit.specs.PlacedPayloads.{placed_of_images};

use crate::outside_payloads::{alignment_of, placed_in_file};
use bi_base::Align;
use bi_fit::{Fit, Form, Image};
use std::alloc::{AllocError, Global};

/// Where the text of an edited flattened image tree has the payloads.
#[derive(Clone, Copy, Debug, PartialEq, Eq)]
pub enum FormChoice {
    /// Where this form has them.
    Given(Form),
    /// Where the file has them: as the values of `data`, if each payload that is not empty is one;
    /// else after the blob, with the greatest alignment from 4 to 1048576 that all payloads have
    /// that `data-offset` or `data-position` gives, or 4 if they have none of these.
    Keep,
}

/// Returns the form of a choice for a file that was read. Fails if memory runs out.
pub(crate) fn chosen_form(
    alloc: Global,
    choice: FormChoice,
    fit: &Fit<'_>,
) -> Result<Form, AllocError>
    ensures { IfOk result (λ form. (limits : Limits) (file : List ℕ)
        → IsReadFit limits file fit.now → IsChosenForm choice file (OfFit (tree_of fit.now)) form) }
{
    match choice {
        FormChoice::Given(form) => Ok(form),
        FormChoice::Keep => form_of_images(alloc, fit.images()),
    }
}

/// Returns the form of a file with these images. Fails if memory runs out.
fn form_of_images(alloc: Global, images: &[Image<'_>]) -> Result<Form, AllocError>
    ensures { IfOk result (IsFormOfPlaced (placed_of_images images.now)) }
{
    let placed = placed_in_file(alloc, images)?;
    if placed.is_empty() {
        Ok(Form::Embedded)
    } else {
        Ok(Form::Aligned(at_least_four(alignment_of(&placed))))
    }
}

/// Returns the alignment of this many bytes, but at least four. Requires: it is a power of two up
/// to 1048576.
fn at_least_four(bytes: u32) -> Align
    requires { IsPower bytes }
    ensures { align_bytes result ≡ max bytes 4 }
{
    if bytes < 4 {
        return Align::four();
    }
    let Some(align) = Align::new(bytes) else {
        unreachable!();
    };
    align
}

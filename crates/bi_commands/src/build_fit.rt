//! Building a flattened image tree of payloads that are given or are in an input.

ghost use Rattle.std.specs.Prelude.{◌≡◌, length, IfOk};
ghost use Rattle.bi_base.specs.declared.fault.Error.TheVariants.{OutOfMemory};
ghost use Rattle.bi_base.specs.Pipes.{IsPiped};
ghost use Rattle.bi_base.specs.Slices.{bytes_of};
ghost use Rattle.bi_commands.specs.BuildCommands.{HavePayloads};
ghost use Rattle.bi_commands.specs.BuildCommands.{build_fit_promise, build_fit_laws};
ghost use Rattle.bi_commands.specs.Parts.{parts_of_lengths};
ghost use Rattle.bi_norm.specs.FitBuilding.{plan_spec_model, plain_plan};

use crate::parts::{Part, fill, pieces};
use bi_base::{Command, Error, Limits, Sink, pipe_to};
use bi_norm::{Form, Head, ImageSpec, PlanSpec, build_fit_as_into};
use std::alloc::{AllocError, Global};
use std::io::{Read, Write};

/// Building a flattened image tree, as a command: `build_fit_as_into` with these images and this
/// plan. The payloads are given, or are consecutive pieces of the input. Requires: there are as
/// many payloads as images.
#[derive(Clone, Copy, Debug, PartialEq, Eq)]
pub struct FitBuilder<'a> {
    /// The description and the time.
    pub head: Head<'a>,
    /// The images. `payloads` takes the place of the payloads that they have.
    pub images: &'a [ImageSpec<'a>],
    /// The configurations and the hash nodes, and texts of the images.
    pub plan: PlanSpec<'a>,
    /// The payload of each image, in the order of the images.
    pub payloads: &'a [Part<'a>],
    /// Where the payloads are.
    pub form: Form,
}

impl<'a> Command for FitBuilder<'a> {
    type Value = ();

    type Failure = Error;

    ghost can_run = { λ builder. length builder.payloads.now ≡ length builder.images.now };

    ghost promise = { λ builder.
        build_fit_promise builder.form builder.head (plan_spec_model builder.plan)
        builder.images.now builder.payloads.now };

    /// Appends the flattened image tree.
    ///
    /// Errors, the first that applies: BadPart at the beginning of the first piece of the input
    /// that does not fit, or at the end of the pieces, if bytes are left; those of `build_fit_as`.
    /// OutOfMemory occurs only for an input that can be cut, and then instead of any other error.
    fn run<S: Sink>(
        &self,
        alloc: Global,
        input: &[u8],
        limits: Limits,
        sink: &mut S,
    ) -> Result<(), Error> {
        let contents = fill(alloc, input, self.payloads)?;
        let complete = with_payloads(alloc, self.images, &contents)?;
        let (head, plan, form) = (self.head, self.plan, self.form);
        build_fit_as_into(alloc, head, &complete, plan, form, limits, sink)?;
        Ok(())
    }

    ghost wraps_from = { λ _ _ _ _ same. same };

    ghost laws = { λ builder.
        build_fit_laws builder.form builder.head (plan_spec_model builder.plan)
        builder.images.now builder.payloads.now };
}

/// Reads the payloads of a flattened image tree to the end of the input, writes the flattened image
/// tree of these images, and flushes: `pipe_to` with a `FitBuilder`. Consecutive pieces of the
/// input, of these lengths in bytes, take the place of the payloads that the images have. Requires:
/// there are as many lengths as images.
///
/// The errors are those of `pipe_to`, and of the input those of `FitBuilder::run`. OutOfMemory may
/// also occur before anything is read.
pub fn build_fit_to<R: Read, W: Write>(
    alloc: Global,
    reader: &mut R,
    writer: &mut W,
    head: Head<'_>,
    images: &[ImageSpec<'_>],
    lengths: &[u32],
    form: Form,
    limits: Limits,
) -> Result<(), Error>
    requires one_each { length lengths.now ≡ length images.now }
    ensures { let payloads = parts_of_lengths lengths.now in
        IsPiped (build_fit_promise form head.entry plain_plan images.now payloads limits) limits
        (R.remaining reader.old) (R.remaining reader.new)
        (W.contents writer.old) (W.contents writer.new) result }
{
    let payloads = pieces(alloc, lengths)?;
    let builder = FitBuilder {
        head,
        images,
        plan: PlanSpec::new(),
        payloads: &payloads,
        form,
    };
    pipe_to(alloc, &builder, reader, writer, limits)
}

/// Returns these images with these payloads, in their order. Fails if memory runs out. Requires:
/// there are as many payloads as images.
fn with_payloads<'a>(
    alloc: Global,
    images: &[ImageSpec<'a>],
    payloads: &[&'a [u8]],
) -> Result<Vec<ImageSpec<'a>>, AllocError>
    requires { length payloads.now ≡ length images.now }
    ensures { IfOk result (λ complete. HavePayloads images.now (bytes_of payloads.now)
        complete.items) }
{
    let mut complete = Vec::with_capacity(alloc, images.len())?;
    for (image, payload) in images.iter().zip(payloads) {
        complete.push(ImageSpec { payload, ..*image })?;
    }
    Ok(complete)
}

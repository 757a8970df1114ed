//! Building an image of the parts that the arguments name.

ghost use Rattle.std.specs.Prelude.{◌≡◌, length, map, IfOk, IfErr};
ghost use Rattle.std.specs.List.{AllZip, list_any};
ghost use Rattle.bi_base.specs.Slices.{bytes_of};
ghost use Rattle.bi_base.specs.Pipes.{IsTracedPipe};
ghost use Rattle.bi_base.specs.declared.fault.Error.TheVariants.{OutOfMemory};
ghost use Rattle.bi_fit.specs.NamedImages.{configuration_spec_models};
ghost use Rattle.bootimg.specs.CommandLine.{HasLengths, sources_of};
ghost use Rattle.bootimg.specs.CommandLine.{is_input as is_input_of, reads_input as reads_input_of};
ghost use Rattle.bi_norm.specs.FitBuilding.{descriptions_models};
ghost use Rattle.bootimg.specs.OwnTexts.{planned_configurations, planned_descriptions};
ghost use Rattle.bootimg.specs.OwnTexts.{text_named as text_for, texts_named as texts_for};
ghost use Rattle.bootimg.specs.ReadParts.{IsLent, IsReadingFailure, IsPartFailure, WasRead};
ghost use Rattle.bootimg.specs.ReadParts.{WereRead};
ghost use Rattle.bootimg.specs.Runs.{build_promise, fit_promise, source_failure};
ghost use Rattle.bootimg.specs.Runs.{IsBuildWork, IsBuiltWork};
ghost use Rattle.bootimg.specs.declared.command_line.source.ImageSource.TheVariants.{Standard};
ghost use Rattle.bootimg.specs.declared.failure.Failure.TheVariants.{Call};

use crate::command_line::{
    BuildPlan, ConfigurationWord, FitPlan, ImageSource, NamedText, OwnTexts, PartSource,
    text_named, texts_named,
};
use crate::failure::Failure;
use crate::jobs::{SourceFailure, read_file};
use crate::no_input::NoInput;
use crate::tasks::Done;
use bi_base::{Error, Limits, TracedRead, TracedWrite, pipe};
use bi_commands::build_fit::FitBuilder;
use bi_commands::build_legacy::LegacyBuilder;
use bi_commands::parts::Part;
use bi_files::FileSystem;
use bi_norm::{ConfigurationSpec, ImageSpec, PlanSpec};
use std::alloc::{AllocError, Global};

/// A `Part` that owns its bytes.
#[derive(Drop)]
pub enum OwnedPart {
    /// Bytes that were read from a file.
    Bytes(Vec<u8>),
    /// The next bytes of standard input: as many as this number.
    Length(u32),
}

impl OwnedPart {
    /// Returns this part, which borrows the bytes.
    fn lend(&self) -> Part<'_>
        ensures { IsLent self.now result }
    {
        match self {
            OwnedPart::Length(length) => Part::Length(*length),
            OwnedPart::Bytes(bytes) => Part::Bytes(bytes),
        }
    }
}

/// Builds an image, and returns how that ended. First the files of the parts are read, in the order
/// of the parts, then standard input, if a part is in it or if no part is named. Requires: if the
/// image is a flattened image tree, the plan has as many lengths or files as images.
pub fn build_image<'a, S: TracedRead, T: TracedWrite, F: FileSystem>(
    alloc: Global,
    plan: &BuildPlan<'a>,
    limits: Limits,
    files: &mut F,
    input: &mut S,
    output: &mut T,
) -> Result<Done, SourceFailure<'a>>
    requires { HasLengths plan.now }
    ensures work { IsBuildWork (F.known files.old) plan.now limits
        (record {
          input = S.trace input.old;
          new_input = S.trace input.new;
          output = T.trace output.old;
          new_output = T.trace output.new;
          outcome = result;
        })
        (F.steps files.old) (F.steps files.new) }
    ensures same_files { F.known files.new ≡ F.known files.old }
{
    let sources = plan.sources();
    let read = read_parts(alloc, sources, limits, files)?;
    let parts = lend_parts(alloc, &read)?;
    if reads_input(sources) {
        build(alloc, plan, &parts, limits, input, output)
    } else {
        build(alloc, plan, &parts, limits, &mut NoInput, output)
    }
}

/// Returns whether standard input is read: if a part is in it, or if no part is named.
fn reads_input(sources: &[PartSource<'_>]) -> bool
    ensures { result ≡ reads_input_of sources.now }
{
    sources.is_empty() || some_is_input(sources)
}

/// Returns whether one of these parts is in standard input.
fn some_is_input(sources: &[PartSource<'_>]) -> bool
    ensures { result ≡ list_any is_input_of sources.now }
{
    sources.iter().any(|source| source.is_input())
}

/// Reads the files of parts, in the order of the parts. Fails as `read_part` does for the first
/// part for which it fails, or with OutOfMemory.
fn read_parts<'a, F: FileSystem>(
    alloc: Global,
    sources: &[PartSource<'a>],
    limits: Limits,
    files: &mut F,
) -> Result<Vec<OwnedPart>, SourceFailure<'a>>
    ensures read { IfOk result (λ read. WereRead (F.known files.old) limits sources.now read.items
        (F.steps files.old) (F.steps files.new)) }
    ensures failed { IfErr result (λ failed. IsReadingFailure (F.known files.old) limits
        sources.now failed (F.steps files.old) (F.steps files.new)) }
    ensures same_files { F.known files.new ≡ F.known files.old }
{
    let mut read = Vec::with_capacity(alloc, sources.len())?;
    for source in sources {
        let part = read_part(alloc, *source, limits, files)?;
        read.push(part)?;
    }
    Ok(read)
}

/// Reads the file of a part, if it has one. Fails as `read_file` does, with the name of the file.
fn read_part<'a, F: FileSystem>(
    alloc: Global,
    source: PartSource<'a>,
    limits: Limits,
    files: &mut F,
) -> Result<OwnedPart, SourceFailure<'a>>
    ensures read { IfOk result (λ read. WasRead (F.known files.old) limits source.entry read
        (F.steps files.old) (F.steps files.new)) }
    ensures failed { IfErr result (λ failed. IsPartFailure (F.known files.old) limits
        source.entry failed (F.steps files.old) (F.steps files.new)) }
    ensures same_files { F.known files.new ≡ F.known files.old }
{
    match source {
        PartSource::Input(length) => Ok(OwnedPart::Length(length)),
        PartSource::File(name) => match read_file(alloc, name, limits, files) {
            Ok(bytes) => Ok(OwnedPart::Bytes(bytes)),
            Err(failure) => Err(SourceFailure {
                source: ImageSource::File(name),
                failure,
            }),
        },
    }
}

/// Returns these parts, which borrow the bytes. Fails with OutOfMemory.
fn lend_parts<'r, 'a>(
    alloc: Global,
    read: &'r [OwnedPart],
) -> Result<Vec<Part<'r>>, SourceFailure<'a>>
    ensures parts { IfOk result (λ parts. AllZip IsLent read.entry.now parts.items) }
    ensures failed { IfErr result (λ failed. failed ≡ source_failure Standard (Call OutOfMemory)) }
{
    let mut parts = Vec::with_capacity(alloc, read.len())?;
    for part in read {
        parts.push(part.lend())?;
    }
    Ok(parts)
}

/// Builds the image of these parts, and returns how that ended. Requires: if the image is a
/// flattened image tree, the plan has as many lengths or files as images. There are as many parts
/// as the plan has.
fn build<'a, S: TracedRead, T: TracedWrite>(
    alloc: Global,
    plan: &BuildPlan<'_>,
    parts: &[Part<'_>],
    limits: Limits,
    input: &mut S,
    output: &mut T,
) -> Result<Done, SourceFailure<'a>>
    requires lengths { HasLengths plan.now }
    requires one_each { length parts.now ≡ length (sources_of plan.now) }
    ensures { IsBuiltWork plan.now parts.now limits (record {
      input = S.trace input.old;
      new_input = S.trace input.new;
      output = T.trace output.old;
      new_output = T.trace output.new;
      outcome = result;
    }) }
{
    match run_builder(alloc, plan, parts, limits, input, output) {
        Ok(()) => Ok(Done::with_answer(true)),
        Err(error) => Err(SourceFailure {
            source: ImageSource::Standard,
            failure: Failure::Call(error),
        }),
    }
}

/// Runs the command that builds the image of these parts. Fails as `pipe` does, or with OutOfMemory
/// before anything is read. Requires: if the image is a flattened image tree, the plan has as many
/// lengths or files as images. There are as many parts as the plan has.
fn run_builder<S: TracedRead, T: TracedWrite>(
    alloc: Global,
    plan: &BuildPlan<'_>,
    parts: &[Part<'_>],
    limits: Limits,
    input: &mut S,
    output: &mut T,
) -> Result<(), Error>
    requires lengths { HasLengths plan.now }
    requires one_each { length parts.now ≡ length (sources_of plan.now) }
    ensures { IsTracedPipe (build_promise plan.now parts.now limits) limits (S.trace input.old)
        (S.trace input.new) (T.trace output.old) (T.trace output.new) result }
{
    match plan {
        BuildPlan::Legacy(plan) => {
            let builder = LegacyBuilder {
                fields: plan.fields,
                parts,
            };
            pipe(alloc, &builder, input, output, limits)
        }
        BuildPlan::Fit(plan) => run_fit_plan(alloc, plan, parts, limits, input, output),
    }
}

/// Runs the command that builds the flattened image tree of this plan with these payloads. Fails as
/// `pipe` does, or with OutOfMemory before anything is read. Requires: there are as many payloads
/// as images.
fn run_fit_plan<'r, S: TracedRead, T: TracedWrite>(
    alloc: Global,
    plan: &'r FitPlan<'r>,
    payloads: &[Part<'_>],
    limits: Limits,
    input: &mut S,
    output: &mut T,
) -> Result<(), Error>
    requires { length payloads.now ≡ length plan.now.images.items }
    ensures { IsTracedPipe (fit_promise plan.now payloads.now limits) limits (S.trace input.old)
        (S.trace input.new) (T.trace output.old) (T.trace output.new) result }
{
    let texts = &plan.own_texts;
    let compatibles = compatibles_of(alloc, &plan.configurations, &texts.compatibles)?;
    let lent = lend_configurations(alloc, &plan.configurations, texts, &compatibles)?;
    let descriptions = descriptions_of(alloc, &plan.images, &texts.images)?;
    let made = MadeSpecs {
        configurations: &lent,
        descriptions: &descriptions,
    };
    run_fit_builder(alloc, plan, made, payloads, limits, input, output)
}

/// What a plan gives for the configurations and the images of a flattened image tree.
#[derive(Clone, Copy)]
struct MadeSpecs<'r> {
    /// The configurations.
    configurations: &'r [ConfigurationSpec<'r>],
    /// The description of each image, if it has one of its own.
    descriptions: &'r [Option<&'r [u8]>],
}

/// Runs the command that builds the flattened image tree with these configurations, descriptions of
/// images and payloads. Fails as `pipe` does. Requires: there are as many payloads as images, and
/// the configurations and the descriptions are those of the plan.
fn run_fit_builder<S: TracedRead, T: TracedWrite>(
    alloc: Global,
    plan: &FitPlan<'_>,
    made: MadeSpecs<'_>,
    payloads: &[Part<'_>],
    limits: Limits,
    input: &mut S,
    output: &mut T,
) -> Result<(), Error>
    requires one_each { length payloads.now ≡ length plan.now.images.items }
    requires lent { configuration_spec_models made.configurations.now
        ≡ planned_configurations plan.now.own_texts plan.now.configurations.items }
    requires described { descriptions_models made.descriptions.now
        ≡ planned_descriptions plan.now.own_texts plan.now.images.items }
    ensures { IsTracedPipe (fit_promise plan.now payloads.now limits) limits (S.trace input.old)
        (S.trace input.new) (T.trace output.old) (T.trace output.new) result }
{
    let builder = FitBuilder {
        head: plan.head,
        images: &plan.images,
        plan: PlanSpec {
            configurations: made.configurations,
            default: plan.default,
            algorithms: &plan.algorithms,
            texts: &plan.texts,
            descriptions: made.descriptions,
        },
        payloads,
        form: plan.form,
    };
    pipe(alloc, &builder, input, output, limits)
}

/// Returns, for each of these configurations, its texts under `compatible`, in their order.
///
/// Takes n * m time for n configurations and m texts.
fn compatibles_of<'r>(
    alloc: Global,
    words: &[ConfigurationWord<'r>],
    texts: &[NamedText<'r>],
) -> Result<Vec<Vec<&'r [u8]>>, AllocError>
    ensures { IfOk result (λ found. map (λ each. bytes_of each.items) found.items
        ≡ map (λ word. texts_for texts.now word.name.now) words.now) }
{
    let mut found = Vec::with_capacity(alloc, words.len())?;
    for word in words {
        found.push(texts_named(alloc, texts, word.name)?)?;
    }
    Ok(found)
}

/// Returns these configurations with their own texts, all of which they borrow. Requires:
/// `compatibles` are their texts under `compatible`.
fn lend_configurations<'r>(
    alloc: Global,
    words: &'r [ConfigurationWord<'_>],
    texts: &'r OwnTexts<'_>,
    compatibles: &'r [Vec<&'r [u8]>],
) -> Result<Vec<ConfigurationSpec<'r>>, AllocError>
    requires { map (λ each. bytes_of each.items) compatibles.now
        ≡ map (λ word. texts_for texts.now.compatibles.items word.name.now) words.now }
    ensures { IfOk result (λ lent. configuration_spec_models lent.items
        ≡ planned_configurations texts.entry.now words.entry.now) }
{
    let mut lent = Vec::with_capacity(alloc, words.len())?;
    for (index, word) in words.iter().enumerate() {
        lent.push(ConfigurationSpec {
            description: text_named(&texts.configurations, word.name),
            compatible: &compatibles[index],
            ..word.spec()
        })?;
    }
    Ok(lent)
}

/// Returns the description of each of these images, if it has one of its own.
///
/// Takes n * m time for n images and m texts.
fn descriptions_of<'r>(
    alloc: Global,
    images: &[ImageSpec<'r>],
    texts: &[NamedText<'r>],
) -> Result<Vec<Option<&'r [u8]>>, AllocError>
    ensures { IfOk result (λ found. descriptions_models found.items
        ≡ map (λ image. text_for texts.now image.name.now) images.now) }
{
    let mut found = Vec::with_capacity(alloc, images.len())?;
    for image in images {
        found.push(text_named(texts, image.name))?;
    }
    Ok(found)
}

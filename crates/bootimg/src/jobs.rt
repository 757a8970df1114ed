//! What the program does with the images that the arguments name.

ghost use Rattle.std.specs.Prelude.{◌≡◌, [], Err, IfOk, IfErr, string_bytes};
ghost use Rattle.bi_base.specs.declared.fault.Error.TheVariants.{OutOfMemory};
ghost use Rattle.bi_describe.specs.MadeOptions.{ignoring_model};
ghost use Rattle.bi_describe.specs.MadeWords.{ignored_words};
ghost use Rattle.bootimg.specs.CommandLine.{HasJobLengths};
ghost use Rattle.bootimg.specs.ComparedFiles.{IsCompareOutput, IsCompareFailure};
ghost use Rattle.bootimg.specs.ComparedFiles.{IsFailureWithout, IsOutputWithout};
ghost use Rattle.bootimg.specs.ComparedFiles.{failure_of_comparing, refused_source};
ghost use Rattle.bootimg.specs.declared.command_line.source.ImageSource.TheVariants.{Standard};
ghost use Rattle.bootimg.specs.declared.failure.Failure.TheVariants.{Call};
ghost use Rattle.bootimg.specs.Runs.{IsComparedWork, IsCompareWork, IsFileNotRead, IsFileRead};
ghost use Rattle.bootimg.specs.Runs.{IsExplainWork, IsImageNotRead, IsImageRead};
ghost use Rattle.bootimg.specs.Runs.{IsImageWork, IsJobWork, IsNotRead, IsPlanWork};
ghost use Rattle.bootimg.specs.Runs.{source_failure};
ghost use Rattle.bi_base.specs.Reading.{IsInputRead};
ghost use Rattle.bi_base.specs.Traces.{ReadTrace};

use crate::builds::build_image;
use crate::command_line::{ComparePlan, ImagePlan, ImageSource, Job};
use crate::edits::edit_image;
use crate::explanations::{Topic, explanation};
use crate::failure::Failure;
use crate::tasks::{Done, PlacedTask};
use bi_base::{
    Cause, Command, Error, Limits, TracedRead, TracedWrite, pipe, read_all_traced, write_and_flush,
};
use bi_commands::compare::{
    CompareError, Comparison, IgnoringOptions, compare, compare_deep, compare_ignoring,
    compare_ignoring_deep, compare_json, have_same_meaning,
};
use bi_commands::format::Format;
use bi_files::FileSystem;
use std::alloc::{AllocError, AllocFailed, Global};

/// Why a job failed.
#[derive(Clone, Copy)]
pub struct SourceFailure<'a> {
    /// The image or the part that the failure is about, or the output file, if it is about one.
    pub source: ImageSource<'a>,
    /// The failure.
    pub failure: Failure<'a>,
}

impl<'a> From<AllocError> for SourceFailure<'a> {
    ghost from_gives = { λ _ result. result ≡ source_failure Standard (Call OutOfMemory) };

    fn from(error: AllocError) -> SourceFailure<'a> {
        SourceFailure {
            source: ImageSource::Standard,
            failure: Failure::Call(Error::from(error)),
        }
    }
}

impl<'a, T: Drop> From<AllocFailed<T>> for SourceFailure<'a> {
    ghost from_gives = { λ _ result. result ≡ source_failure Standard (Call OutOfMemory) };

    fn from(error: AllocFailed<T>) -> SourceFailure<'a> {
        SourceFailure {
            source: ImageSource::Standard,
            failure: Failure::Call(Error::from(error)),
        }
    }
}

/// Does a job, and returns how it ended. Requires: if the job is to build a flattened image tree,
/// it has as many lengths or files as images.
pub fn do_job<'a, S: TracedRead, T: TracedWrite, F: FileSystem>(
    alloc: Global,
    job: Job<'a>,
    limits: Limits,
    files: &mut F,
    input: &mut S,
    output: &mut T,
) -> Result<Done, SourceFailure<'a>>
    requires lengths { HasJobLengths job }
    ensures work { IsJobWork (F.known files.old) job.entry limits
        (record {
          input = S.trace input.old;
          new_input = S.trace input.new;
          output = T.trace output.old;
          new_output = T.trace output.new;
          outcome = result;
        })
        (F.steps files.old) (F.steps files.new) }
    ensures same_files { F.known files.new ≡ F.known files.old }
{
    match job {
        Job::Run(plan) => run_on_image(alloc, &plan, limits, files, input, output),
        Job::Compare(plan) => compare_images(alloc, &plan, limits, files, input, output),
        Job::Edit(plan) => edit_image(alloc, plan, limits, files, input, output),
        Job::Build(plan) => build_image(alloc, &plan, limits, files, input, output),
        Job::Explain(topic) => explain(alloc, topic, output),
    }
}

/// Does a task with the image from its source, and returns how it ended.
fn run_on_image<'a, S: TracedRead, T: TracedWrite, F: FileSystem>(
    alloc: Global,
    plan: &ImagePlan<'a>,
    limits: Limits,
    files: &mut F,
    input: &mut S,
    output: &mut T,
) -> Result<Done, SourceFailure<'a>>
    ensures work { IsPlanWork (F.known files.old) plan.now limits
        (record {
          input = S.trace input.old;
          new_input = S.trace input.new;
          output = T.trace output.old;
          new_output = T.trace output.new;
          outcome = result;
        })
        (F.steps files.old) (F.steps files.new) }
    ensures same_files { F.known files.new ≡ F.known files.old }
{
    let task = PlacedTask {
        task: &plan.task,
        offset: plan.offset,
    };
    run_on_source(alloc, &task, plan.source, limits, files, input, output)
}

/// Runs a command on the image from this source, and returns how it ended. Requires: the command
/// may be run.
pub fn run_on_source<
    'a,
    C: Command<Value = Done, Failure = Failure<'a>>,
    S: TracedRead,
    T: TracedWrite,
    F: FileSystem,
>(
    alloc: Global,
    command: &C,
    source: ImageSource<'a>,
    limits: Limits,
    files: &mut F,
    input: &mut S,
    output: &mut T,
) -> Result<Done, SourceFailure<'a>>
    requires can_run { C.can_run command.now }
    ensures work { IsImageWork (F.known files.old) (C.promise command.now limits) source.entry
        limits
        (record {
          input = S.trace input.old;
          new_input = S.trace input.new;
          output = T.trace output.old;
          new_output = T.trace output.new;
          outcome = result;
        })
        (F.steps files.old) (F.steps files.new) }
    ensures same_files { F.known files.new ≡ F.known files.old }
{
    match source {
        ImageSource::Standard => match pipe(alloc, command, input, output, limits) {
            Ok(done) => Ok(done),
            Err(failure) => job_failed(source, failure),
        },
        ImageSource::File(name) => match files.open(name) {
            Some(mut image) => {
                let outcome = pipe(alloc, command, &mut image, output, limits);
                files.close_reader(name, image);
                match outcome {
                    Ok(done) => Ok(done),
                    Err(failure) => job_failed(source, failure),
                }
            }
            None => job_failed(source, Failure::CannotOpen),
        },
    }
}

/// Reads two images and compares them, and returns how that ended.
fn compare_images<'a, S: TracedRead, T: TracedWrite, F: FileSystem>(
    alloc: Global,
    plan: &ComparePlan<'a>,
    limits: Limits,
    files: &mut F,
    input: &mut S,
    output: &mut T,
) -> Result<Done, SourceFailure<'a>>
    ensures work { IsCompareWork (F.known files.old) plan.now limits
        (record {
          input = S.trace input.old;
          new_input = S.trace input.new;
          output = T.trace output.old;
          new_output = T.trace output.new;
          outcome = result;
        })
        (F.steps files.old) (F.steps files.new) }
    ensures same_files { F.known files.new ≡ F.known files.old }
{
    let one = match read_image(alloc, plan.one, limits, files, input) {
        Ok(one) => one,
        Err(failure) => return job_failed(plan.one, failure),
    };
    let other = match read_image(alloc, plan.other, limits, files, input) {
        Ok(other) => other,
        Err(failure) => return job_failed(plan.other, failure),
    };
    compare_files(alloc, plan, &one, &other, limits, output)
}

/// Returns the end of a job that failed with an image from this source.
pub fn job_failed<'a>(
    source: ImageSource<'a>,
    failure: Failure<'a>,
) -> Result<Done, SourceFailure<'a>>
    ensures { result ≡ Err (source_failure source.entry failure.entry) }
{
    Err(SourceFailure { source, failure })
}

/// Reads the image from this source. Fails as `read_input` does, or with CannotOpen.
pub fn read_image<S: TracedRead, F: FileSystem>(
    alloc: Global,
    source: ImageSource<'_>,
    limits: Limits,
    files: &mut F,
    input: &mut S,
) -> Result<Vec<u8>, Failure<'static>>
    ensures read { IfOk result (λ image. IsImageRead (F.known files.old) limits
        (record { input = S.trace input.old; steps = F.steps files.old })
        (record { input = S.trace input.new; steps = F.steps files.new })
        image.items source.entry) }
    ensures failed { IfErr result (λ failure. IsImageNotRead (F.known files.old) limits
        (record { input = S.trace input.old; steps = F.steps files.old })
        (record { input = S.trace input.new; steps = F.steps files.new })
        failure source.entry) }
    ensures same_files { F.known files.new ≡ F.known files.old }
{
    match source {
        ImageSource::Standard => read_input(alloc, limits, input),
        ImageSource::File(name) => read_file(alloc, name, limits, files),
    }
}

/// Opens the file of this name, reads the whole of it and closes it. Fails as `read_input` does, or
/// with CannotOpen.
pub fn read_file<F: FileSystem>(
    alloc: Global,
    name: &str,
    limits: Limits,
    files: &mut F,
) -> Result<Vec<u8>, Failure<'static>>
    ensures read { IfOk result (λ bytes. IsFileRead (F.known files.old) limits name.now
        bytes.items (F.steps files.old) (F.steps files.new)) }
    ensures failed { IfErr result (λ failure. IsFileNotRead (F.known files.old) limits name.now
        failure (F.steps files.old) (F.steps files.new)) }
    ensures same_files { F.known files.new ≡ F.known files.old }
{
    match files.open(name) {
        Some(mut file) => {
            let bytes = read_input(alloc, limits, &mut file);
            files.close_reader(name, file);
            bytes
        }
        None => Err(Failure::CannotOpen),
    }
}

/// Reads a whole input. Fails as `read_all_traced` does.
fn read_input<S: TracedRead>(
    alloc: Global,
    limits: Limits,
    input: &mut S,
) -> Result<Vec<u8>, Failure<'static>>
    ensures read { IfOk result (λ bytes. IsInputRead limits (S.trace input.old)
        (S.trace input.new) bytes.items) }
    ensures failed { IfErr result (IsNotRead limits (S.trace input.old) (S.trace input.new)) }
{
    match read_all_traced(alloc, input, limits) {
        Ok(bytes) => Ok(bytes),
        Err(error) => Err(Failure::Call(error)),
    }
}

/// Compares two images, writes their differences, and returns how that ended.
fn compare_files<'a, T: TracedWrite>(
    alloc: Global,
    plan: &ComparePlan<'a>,
    one: &[u8],
    other: &[u8],
    limits: Limits,
    output: &mut T,
) -> Result<Done, SourceFailure<'a>>
    ensures { (old new : ReadTrace) → IsComparedWork plan.now limits one.now other.now (record {
      input = old;
      new_input = new;
      output = T.trace output.old;
      new_output = T.trace output.new;
      outcome = result;
    }) }
{
    match differences(alloc, plan, one, other, limits) {
        Ok(comparison) => match write_and_flush(output, comparison.differences.as_bytes()) {
            Ok(()) => Ok(Done::with_answer(comparison.same)),
            Err(error) => job_failed(ImageSource::Standard, Failure::Call(error)),
        },
        Err(error) => Err(compare_failure(plan, error)),
    }
}

/// Returns whether two images mean the same without what the plan leaves out, and the differences
/// that it gives: none if it is quiet. Fails as `differences_without` does if something is left
/// out, and else as `differences_of_all` does.
fn differences(
    alloc: Global,
    plan: &ComparePlan<'_>,
    one: &[u8],
    other: &[u8],
    limits: Limits,
) -> Result<Comparison, CompareError>
    ensures compared { IfOk result (λ comparison. IsCompareOutput
        (ignored_words plan.now.ignored.items) plan.now.quiet plan.now.deep plan.now.format limits
        one.now other.now comparison.same (string_bytes comparison.differences)) }
    ensures failed { IfErr result (IsCompareFailure (ignored_words plan.now.ignored.items)
        plan.now.quiet plan.now.deep limits one.now other.now) }
{
    if plan.ignored.is_empty() {
        return differences_of_all(alloc, plan, one, other, limits);
    }
    let options = IgnoringOptions {
        words: &plan.ignored,
        quiet: plan.quiet,
        format: plan.format,
    };
    differences_without(alloc, one, other, limits, plan.deep, options)
}

/// Returns whether two images mean the same once something is left out of both, and what differs
/// then: also inside payloads if the flag is set. Fails as `compare_ignoring` or
/// `compare_ignoring_deep` does.
fn differences_without(
    alloc: Global,
    one: &[u8],
    other: &[u8],
    limits: Limits,
    deep: bool,
    options: IgnoringOptions<'_>,
) -> Result<Comparison, CompareError>
    ensures compared { IfOk result (λ comparison. IsOutputWithout deep
        (ignoring_model options.entry) limits one.now other.now comparison.same
        (string_bytes comparison.differences)) }
    ensures failed { IfErr result (IsFailureWithout deep limits one.now other.now) }
{
    if deep {
        compare_ignoring_deep(alloc, one, other, limits, options)
    } else {
        compare_ignoring(alloc, one, other, limits, options)
    }
}

/// Returns whether two images mean the same, and the differences that the plan gives if it leaves
/// nothing out. Fails as `have_same_meaning` does if the plan is quiet, and else as `compare_deep`
/// or `compare` does.
fn differences_of_all(
    alloc: Global,
    plan: &ComparePlan<'_>,
    one: &[u8],
    other: &[u8],
    limits: Limits,
) -> Result<Comparison, CompareError>
    ensures compared { IfOk result (λ comparison. IsCompareOutput [] plan.now.quiet plan.now.deep
        plan.now.format limits one.now other.now comparison.same
        (string_bytes comparison.differences)) }
    ensures failed { IfErr result (IsCompareFailure [] plan.now.quiet plan.now.deep limits one.now
        other.now) }
{
    if plan.quiet {
        return Ok(Comparison {
            same: have_same_meaning(alloc, one, other, limits)?,
            differences: String::new(alloc),
        });
    }
    if plan.deep {
        return compare_deep(alloc, one, other, limits, plan.format);
    }
    match plan.format {
        Format::Lines => compare(alloc, one, other, limits),
        Format::Json => compare_json(alloc, one, other, limits),
    }
}

/// Returns why comparing failed.
fn compare_failure<'a>(plan: &ComparePlan<'a>, error: CompareError) -> SourceFailure<'a>
    ensures { result
        ≡ source_failure (refused_source plan.now error) (failure_of_comparing error) }
{
    match error {
        CompareError::One(fault) => SourceFailure {
            source: plan.one,
            failure: Failure::Call(Error::Refused(fault)),
        },
        CompareError::Other(fault) => SourceFailure {
            source: plan.other,
            failure: Failure::Call(Error::Refused(fault)),
        },
        CompareError::OutOfMemory => SourceFailure {
            source: ImageSource::Standard,
            failure: Failure::Call(Error::OutOfMemory),
        },
    }
}

/// Writes what this means, or what each cause and each kind means, and returns how that ended.
fn explain<'a, T: TracedWrite>(
    alloc: Global,
    topic: Option<Topic>,
    output: &mut T,
) -> Result<Done, SourceFailure<'a>>
    ensures { (input : ReadTrace) → IsExplainWork topic (record {
      input = input;
      new_input = input;
      output = T.trace output.old;
      new_output = T.trace output.new;
      outcome = result;
    }) }
{
    match explanation(alloc, topic) {
        Ok(text) => match write_and_flush(output, text.as_bytes()) {
            Ok(()) => Ok(Done::with_answer(true)),
            Err(error) => job_failed(ImageSource::Standard, Failure::Call(error)),
        },
        Err(error) => job_failed(ImageSource::Standard, Failure::from(error)),
    }
}

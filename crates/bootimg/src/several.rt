//! What the program does with several images.

ghost use Rattle.std.specs.Prelude.{◌≡◌, Some};
ghost use Rattle.bootimg.specs.ProgramRuns.{IsImagesRun};
ghost use Rattle.bootimg.specs.Runs.{IsEnd, IsImageWork};
ghost use Rattle.bootimg.specs.SeveralImages.{AreDone, AreHeld, AreSaved, IsImageEnd};
ghost use Rattle.bootimg.specs.SeveralImages.{image_promise, is_last as is_last_of};
ghost use Rattle.bootimg.specs.SeveralImages.{reported_outcome as reported_of, status_of_outcome};

use crate::command_line::{ImageSource, ImagesRequest};
use crate::failure::Failure;
use crate::jobs::{SourceFailure, run_on_source};
use crate::reports::{FAILED, report_failure};
use crate::requests::{conclude, hint_if, in_memory};
use crate::tasks::{Done, PlacedTask, SUCCESS};
use bi_base::{Error, TracedRead, TracedWrite, TracedWriter};
use bi_files::{FileSystem, save};
use bi_labels::LabelledCommand;
use std::alloc::Global;

/// What is done with several images, and how.
#[derive(Clone, Copy)]
struct ImagesPlan<'r, 'a> {
    /// The images, and what is done with each.
    request: &'r ImagesRequest<'a>,
    /// Whether the output is held in memory.
    is_held: bool,
    /// Whether a hint follows the line of a failure.
    hints: bool,
}

/// How the work on one of several images ended.
#[derive(Clone, Copy)]
struct ImageEnd {
    /// The exit status for this image.
    status: u8,
    /// Whether no image follows.
    is_last: bool,
}

/// Does a task with each of several images, one after another, and returns the greatest exit
/// status. Each image is read, its text is written with its name in each line, and the line of its
/// failure is written to `errors`, before the next. No image follows after a failed write, or if
/// memory runs out. `hints` is whether a hint follows the line of a failure.
///
/// If an output file is named, it gets the texts of all images. If an image was refused or failed,
/// it is as it was.
pub fn do_images<'a, S: TracedRead, T: TracedWrite, E: TracedWrite, F: FileSystem>(
    alloc: Global,
    hints: bool,
    request: &ImagesRequest<'a>,
    files: &mut F,
    input: &mut S,
    output: &mut T,
    errors: &mut E,
) -> u8
    ensures { IsImagesRun (F.known files.old) hints request.now
        (record {
          input = S.trace input.old;
          new_input = S.trace input.new;
          output = T.trace output.old;
          new_output = T.trace output.new;
          errors = E.trace errors.old;
          new_errors = E.trace errors.new;
          steps = F.steps files.old;
          new_steps = F.steps files.new;
          status = result;
        })
        request.now.output }
{
    match request.output {
        None => {
            let plan = ImagesPlan {
                request,
                is_held: false,
                hints,
            };
            do_each(alloc, plan, files, input, output, errors)
        }
        Some(name) => do_each_to_file(alloc, hints, request, name, files, input, errors),
    }
}

/// Does the task with each image, saves the texts in the file of this name, and returns the exit
/// status.
fn do_each_to_file<'a, S: TracedRead, E: TracedWrite, F: FileSystem>(
    alloc: Global,
    hints: bool,
    request: &ImagesRequest<'a>,
    name: &'a str,
    files: &mut F,
    input: &mut S,
    errors: &mut E,
) -> u8
    ensures { AreSaved (F.known files.old) hints request.now name.entry
        (record { input = S.trace input.old; steps = F.steps files.old })
        (record { input = S.trace input.new; steps = F.steps files.new })
        (E.trace errors.old) (E.trace errors.new) result }
{
    let (status, bytes) = do_each_in_memory(alloc, hints, request, files, input, errors);
    if status == FAILED {
        return FAILED;
    }
    match save(alloc, files, name, &bytes) {
        Ok(()) => status,
        Err(error) => {
            let failure = Failure::from(error);
            let hint = hint_if(hints, failure);
            report_failure(ImageSource::File(name), failure, hint, errors)
        }
    }
}

/// Does the task with each image, and returns the exit status and all texts.
fn do_each_in_memory<'a, S: TracedRead, E: TracedWrite, F: FileSystem>(
    alloc: Global,
    hints: bool,
    request: &ImagesRequest<'a>,
    files: &mut F,
    input: &mut S,
    errors: &mut E,
) -> (u8, Vec<u8>)
    ensures held { AreHeld (F.known files.old) hints request.now
        (record { input = S.trace input.old; steps = F.steps files.old })
        (record { input = S.trace input.new; steps = F.steps files.new })
        (E.trace errors.old) (E.trace errors.new) result.0 (Some result.1.items) }
    ensures same_files { F.known files.new ≡ F.known files.old }
{
    let mut bytes = Vec::new(alloc);
    let mut memory = TracedWriter::new(&mut bytes);
    let plan = ImagesPlan {
        request,
        is_held: true,
        hints,
    };
    let status = do_each(alloc, plan, files, input, &mut memory, errors);
    (status, bytes)
}

/// Does the task with each image, and returns the greatest exit status.
fn do_each<S: TracedRead, T: TracedWrite, E: TracedWrite, F: FileSystem>(
    alloc: Global,
    plan: ImagesPlan<'_, '_>,
    files: &mut F,
    input: &mut S,
    output: &mut T,
    errors: &mut E,
) -> u8
    ensures done { AreDone (F.known files.old) plan.entry.hints plan.entry.request.now
        plan.entry.is_held
        (record {
          input = S.trace input.old;
          output = T.trace output.old;
          errors = E.trace errors.old;
          steps = F.steps files.old;
        })
        (record {
          input = S.trace input.new;
          output = T.trace output.new;
          errors = E.trace errors.new;
          steps = F.steps files.new;
        })
        result }
    ensures same_files { F.known files.new ≡ F.known files.old }
{
    let sources = plan.request.sources.as_slice();
    let mut status = SUCCESS;
    for source in sources {
        let end = do_image(alloc, plan, *source, files, input, output, errors);
        status = status.max(end.status);
        if end.is_last {
            return status;
        }
    }
    status
}

/// Does the task with one image, writes the line of its failure, if it has one, and returns how
/// that ended.
fn do_image<'a, S: TracedRead, T: TracedWrite, E: TracedWrite, F: FileSystem>(
    alloc: Global,
    plan: ImagesPlan<'_, 'a>,
    source: ImageSource<'a>,
    files: &mut F,
    input: &mut S,
    output: &mut T,
    errors: &mut E,
) -> ImageEnd
    ensures end { IsImageEnd (F.known files.old) plan.entry.hints plan.entry.request.now
        plan.entry.is_held source.entry
        (record {
          input = S.trace input.old;
          output = T.trace output.old;
          errors = E.trace errors.old;
          steps = F.steps files.old;
        })
        (record {
          input = S.trace input.new;
          output = T.trace output.new;
          errors = E.trace errors.new;
          steps = F.steps files.new;
        })
        result }
    ensures same_files { F.known files.new ≡ F.known files.old }
{
    let outcome = run_on_named(alloc, plan.request, source, files, input, output);
    end_image(plan.hints, outcome, plan.is_held, errors)
}

/// Does the task with one image, writes its text with the name of the image in each line, and
/// returns how that ended.
fn run_on_named<'a, S: TracedRead, T: TracedWrite, F: FileSystem>(
    alloc: Global,
    request: &ImagesRequest<'a>,
    source: ImageSource<'a>,
    files: &mut F,
    input: &mut S,
    output: &mut T,
) -> Result<Done, SourceFailure<'a>>
    ensures work { IsImageWork (F.known files.old) (image_promise request.now source.entry)
        source.entry request.now.limits
        (record {
          input = S.trace input.old;
          new_input = S.trace input.new;
          output = T.trace output.old;
          new_output = T.trace output.new;
          outcome = result;
        })
        (F.steps files.old) (F.steps files.new) }
    ensures same_files { F.known files.new ≡ F.known files.old }
{
    let task = PlacedTask {
        task: &request.task,
        offset: request.offset,
    };
    let named = LabelledCommand {
        command: &task,
        format: request.task.format(),
        name: source.name(),
    };
    run_on_source(alloc, &named, source, request.limits, files, input, output)
}

/// Writes the line of the failure, if there is one, and returns how the work on an image ended.
fn end_image<E: TracedWrite>(
    hints: bool,
    outcome: Result<Done, SourceFailure<'_>>,
    is_held: bool,
    errors: &mut E,
) -> ImageEnd
    ensures end { IsEnd hints (E.trace errors.old) (E.trace errors.new)
        (status_of_outcome outcome.entry) (reported_of is_held outcome.entry) }
    ensures status { result.status ≡ status_of_outcome outcome.entry }
    ensures last { result.is_last ≡ is_last_of outcome.entry }
{
    ImageEnd {
        status: conclude(hints, reported_outcome(outcome, is_held), errors),
        is_last: is_last(outcome),
    }
}

/// Returns an outcome as it is reported: a failed write to memory means that memory ran out.
fn reported_outcome<'a>(
    outcome: Result<Done, SourceFailure<'a>>,
    is_held: bool,
) -> Result<Done, SourceFailure<'a>>
    ensures { result ≡ reported_of is_held outcome.entry }
{
    match outcome {
        Err(failed) if is_held => Err(SourceFailure {
            source: failed.source,
            failure: in_memory(failed.failure),
        }),
        _ => outcome,
    }
}

/// Returns whether no image follows after this outcome: a write failed, or memory ran out.
fn is_last(outcome: Result<Done, SourceFailure<'_>>) -> bool
    ensures { result ≡ is_last_of outcome.entry }
{
    match outcome {
        Err(failed) => matches!(
            failed.failure,
            Failure::Call(Error::WriteFailed) | Failure::Call(Error::OutOfMemory)
        ),
        Ok(_) => false,
    }
}

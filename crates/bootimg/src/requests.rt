//! Doing what the arguments request.

ghost use Rattle.std.specs.Prelude.{◌≡◌, IfOk, IfErr, Ok, Some, option_map};
ghost use Rattle.bootimg.specs.CommandLine.{HasJobLengths};
ghost use Rattle.bootimg.specs.Hints.{hint_given, hint_text};
ghost use Rattle.bootimg.specs.Runs.{failure_in_memory, IsEnd, IsHeldFailure, IsHeldWork};
ghost use Rattle.bootimg.specs.Runs.{IsSavedWork};

use crate::command_line::{ImageSource, Job};
use crate::failure::Failure;
use crate::hints::Hint;
use crate::jobs::{SourceFailure, do_job};
use crate::reports::{put_notes, report_failure};
use crate::tasks::Done;
use bi_base::{Error, Limits, TracedRead, TracedWrite, TracedWriter};
use bi_files::{FileSystem, save};
use std::alloc::Global;

/// Writes the notes or the line of the failure to standard error, if there are any, and returns the
/// exit status. `hints` is whether a hint follows the line of the failure.
pub fn conclude<E: TracedWrite>(
    hints: bool,
    outcome: Result<Done, SourceFailure<'_>>,
    errors: &mut E,
) -> u8
    ensures { IsEnd hints (E.trace errors.old) (E.trace errors.new) result outcome.entry }
{
    match outcome {
        Ok(done) => {
            put_notes(done, errors);
            done.status()
        }
        Err(failed) => {
            let hint = hint_if(hints, failed.failure);
            report_failure(failed.source, failed.failure, hint, errors)
        }
    }
}

/// Returns the hint for a failure, if hints are given.
pub fn hint_if(hints: bool, failure: Failure<'_>) -> Option<Hint<'static>>
    ensures { option_map hint_text result ≡ hint_given hints failure.entry }
{
    if hints { Some(failure.hint()) } else { None }
}

/// Does a job, saves the output in the file of this name, and returns how that ended. After a
/// failure the file is as it was. Requires: if the job is to build a flattened image tree, it has
/// as many lengths or files as images.
pub fn do_job_to_file<'a, S: TracedRead, F: FileSystem>(
    alloc: Global,
    job: Job<'a>,
    limits: Limits,
    name: &'a str,
    files: &mut F,
    input: &mut S,
) -> Result<Done, SourceFailure<'a>>
    requires lengths { HasJobLengths job }
    ensures { IsSavedWork (F.known files.old) job.entry limits name.entry
        (record { input = S.trace input.old; steps = F.steps files.old })
        (record { input = S.trace input.new; steps = F.steps files.new }) result }
{
    let (done, bytes) = do_job_in_memory(alloc, job, limits, files, input)?;
    match save(alloc, files, name, &bytes) {
        Ok(()) => Ok(done),
        Err(error) => Err(SourceFailure {
            source: ImageSource::File(name),
            failure: Failure::from(error),
        }),
    }
}

/// Does a job, and returns how it ended and the whole output. Requires: if the job is to build a
/// flattened image tree, it has as many lengths or files as images.
fn do_job_in_memory<'a, S: TracedRead, F: FileSystem>(
    alloc: Global,
    job: Job<'a>,
    limits: Limits,
    files: &mut F,
    input: &mut S,
) -> Result<(Done, Vec<u8>), SourceFailure<'a>>
    requires lengths { HasJobLengths job }
    ensures done { IfOk result (λ made. IsHeldWork (F.known files.old) job.entry limits
        (record { input = S.trace input.old; steps = F.steps files.old })
        (record { input = S.trace input.new; steps = F.steps files.new })
        (Ok made.0) (Some made.1.items)) }
    ensures failed { IfErr result (IsHeldFailure (F.known files.old) job.entry limits
        (record { input = S.trace input.old; steps = F.steps files.old })
        (record { input = S.trace input.new; steps = F.steps files.new })) }
    ensures same_files { F.known files.new ≡ F.known files.old }
{
    let mut bytes = Vec::new(alloc);
    let mut memory = TracedWriter::new(&mut bytes);
    match do_job(alloc, job, limits, files, input, &mut memory) {
        Ok(done) => Ok((done, bytes)),
        Err(failed) => Err(SourceFailure {
            source: failed.source,
            failure: in_memory(failed.failure),
        }),
    }
}

/// Returns the failure, or that memory ran out if a write failed that was to memory.
pub fn in_memory<'a>(failure: Failure<'a>) -> Failure<'a>
    ensures { result ≡ failure_in_memory failure.entry }
{
    match failure {
        Failure::Call(Error::WriteFailed) => Failure::Call(Error::OutOfMemory),
        _ => failure,
    }
}

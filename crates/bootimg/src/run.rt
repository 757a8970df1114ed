//! The program, over any files and any three streams.

ghost use Rattle.std.specs.Prelude.{◌≡◌, ◌↔◌, IfNone, IfSome, IsTrue, List, None, Option};
ghost use Rattle.bi_base.specs.Traces.{ReadTrace};
ghost use Rattle.bi_files.specs.Files.{FileStep, SavesNothing, no_files};
ghost use Rattle.bootimg.specs.CommandLine.{HasJobLengths, texts_of};
ghost use Rattle.bi_files.specs.Directories.{SavesNoDirectory};
ghost use Rattle.bootimg.specs.LeftFiles.{LeavesKnownFiles};
ghost use Rattle.bootimg.specs.Runs.{IsRequestRun, IsTextRun, IsMistake};
ghost use Rattle.bootimg.specs.Runs.{is_for_terminal as is_for_terminal_of};
ghost use Rattle.bootimg.specs.ProgramRuns.{IsPlainRun, IsRun, IsUsageReport};
ghost use Rattle.clap.specs.declared.error.kind.ErrorKind.{ErrorKind};

use crate::command_line::{ImageSource, NoRequest, Order, Request, parse_arguments};
use crate::extractions::extract_to_directory;
use crate::failure::Failure;
use crate::hints::usage_hint;
use crate::jobs::do_job;
use crate::reports::{FAILED, report_failure};
use crate::requests::{conclude, do_job_to_file, hint_if};
use crate::several::do_images;
use crate::tasks::SUCCESS;
use crate::terminal::Terminal;
use bi_base::{
    Error, TracedRead, TracedReader, TracedWrite, TracedWriter, write_all, write_and_flush,
};
use bi_files::{FileSystem, MemoryFiles, NoFiles};
use std::alloc::{AllocError, Global};
use std::io::{Read, Write};

/// Runs the program without files: `run_with_files`, where no file can be opened or made, and so no
/// output can be saved.
pub fn run<'a, R: Read, W: Write, E: Write>(
    alloc: Global,
    arguments: &'a [&'a str],
    terminal: Terminal,
    reader: &mut R,
    writer: &mut W,
    errors: &mut E,
) -> u8
    ensures run { IsPlainRun terminal (texts_of arguments.entry.now) no_files None None
        (R.remaining reader.old) (R.remaining reader.new)
        (W.contents writer.old) (W.contents writer.new)
        (E.contents errors.old) (E.contents errors.new) result }
    ensures saves_nothing { SavesNothing no_files }
    ensures saves_no_directory { SavesNoDirectory no_files }
{
    run_with_files(
        alloc,
        arguments,
        terminal,
        &mut NoFiles,
        reader,
        writer,
        errors,
    )
}

/// Runs the program with these arguments, without its own name, and returns the exit status: 0
/// after success, 1 after an answer that is not good (`Done`), and 2 after any failure.
///
/// An image is read from the file that the arguments name, or else from `reader`, once the
/// arguments are parsed. So is each part of an image to be built. The output, help and the version
/// are written to `writer`. If the arguments name an output file, the output is saved there
/// instead: it is written to a new file beside it, which takes its name then. After a failure the
/// output file is as it was. `extract --all` writes each payload to a file in a new directory
/// beside the one that the arguments name, which takes its name then.
///
/// Of several images, each is read, and its text written with its name in each line, before the
/// next. The exit status is the greatest. No image follows after a failed write, or if memory runs
/// out. A named output file has the texts of all images, or is as it was if one of them failed.
///
/// `terminal` is whether standard output and standard error are terminals. If standard output is
/// one, and the arguments name no output file, an image or a payload is not written: this is a
/// failure, and nothing is read.
///
/// A failure is written to `errors`: one line, or clap's text if it rejects the arguments. The line
/// has the name of the file, if the failure is about an image in a file or the output file. If
/// standard error is a terminal, a line with a hint follows it. After
/// the normal form of a flattened image tree with signature nodes, also an updated one, a note with
/// their number is written to `errors`. In the form External, so are notes on the alignment and the
/// fixed positions that payloads lose, if they do. A failed write to `errors` is ignored.
pub fn run_with_files<'a, R: Read, W: Write, E: Write, F: FileSystem>(
    alloc: Global,
    arguments: &'a [&'a str],
    terminal: Terminal,
    files: &mut F,
    reader: &mut R,
    writer: &mut W,
    errors: &mut E,
) -> u8
    ensures { IsPlainRun terminal (texts_of arguments.entry.now) (F.known files.old)
        (F.steps files.old) (F.steps files.new)
        (R.remaining reader.old) (R.remaining reader.new)
        (W.contents writer.old) (W.contents writer.new)
        (E.contents errors.old) (E.contents errors.new) result }
{
    let mut input = TracedReader::new(reader);
    let mut output = TracedWriter::new(writer);
    let mut log = TracedWriter::new(errors);
    run_traced(
        alloc,
        arguments,
        terminal,
        files,
        &mut input,
        &mut output,
        &mut log,
    )
}

/// Runs the program over files in memory, as `run_with_files` does, and returns the exit status, or
/// None if memory ran out for the record of the steps.
///
/// A run leaves this: after success the file that the arguments name for the output has the output,
/// and each other name has what it had; after `extract --all` the directory has exactly the files
/// of the payloads. After a failure each name has what it had, whichever step failed; only a new
/// file or directory that cannot be removed is left.
pub fn run_in_memory<'a, 'b, R: Read, W: Write, E: Write>(
    alloc: Global,
    arguments: &'a [&'a str],
    terminal: Terminal,
    files: &mut MemoryFiles<'b>,
    reader: &mut R,
    writer: &mut W,
    errors: &mut E,
) -> Option<u8>
    ensures left { IfSome result (λ status. LeavesKnownFiles (texts_of arguments.entry.now)
        (R.remaining reader.old) (⟦<MemoryFiles<'b> as FileSystem>⟧.known files.old)
        (⟦<MemoryFiles<'b> as FileSystem>⟧.known files.new)
        (⟦<MemoryFiles<'b> as FileSystem>⟧.steps files.new) status) }
    ensures lost { IfNone result (⟦<MemoryFiles<'b> as FileSystem>⟧.steps files.new ≡ None) }
{
    if files.has_lost_steps() {
        return None;
    }
    let status = run_with_files(alloc, arguments, terminal, files, reader, writer, errors);
    if files.has_lost_steps() {
        None
    } else {
        Some(status)
    }
}

/// Runs the program over streams whose calls are traced, as `run_with_files` does. So its contract
/// also states which failed call is the reason for a failure, and that the output was flushed.
pub fn run_traced<'a, S: TracedRead, T: TracedWrite, E: TracedWrite, F: FileSystem>(
    alloc: Global,
    arguments: &'a [&'a str],
    terminal: Terminal,
    files: &mut F,
    input: &mut S,
    output: &mut T,
    errors: &mut E,
) -> u8
    ensures { IsRun terminal (texts_of arguments.entry.now) (F.known files.old) (record {
      input = S.trace input.old;
      new_input = S.trace input.new;
      output = T.trace output.old;
      new_output = T.trace output.new;
      errors = E.trace errors.old;
      new_errors = E.trace errors.new;
      steps = F.steps files.old;
      new_steps = F.steps files.new;
      status = result;
    }) }
{
    let hints = terminal.errors;
    match parse_arguments(alloc, arguments) {
        Ok(Order::Do(request)) => {
            run_request(alloc, request, terminal, files, input, output, errors)
        }
        Ok(Order::DoEach(request)) => {
            do_images(alloc, hints, &request, files, input, output, errors)
        }
        Ok(Order::ExtractAll(request)) => {
            let outcome = extract_to_directory(alloc, &request, files, input);
            conclude(hints, outcome, errors)
        }
        Err(NoRequest::Failure(failure)) => {
            report_usage(alloc, hints, arguments, failure, errors)
        }
        Err(NoRequest::Text(text)) => match clap_text(alloc, &text) {
            Ok(bytes) => print(&bytes, text.use_stderr(), hints, output, errors),
            Err(error) => {
                let failure = Failure::Call(Error::from(error));
                report_failure(
                    ImageSource::Standard,
                    failure,
                    hint_if(hints, failure),
                    errors,
                )
            }
        },
    }
}

/// Writes the line of a failure of the arguments, and its hint if hints are given, and returns the
/// exit status.
fn report_usage<'a, E: TracedWrite>(
    alloc: Global,
    hints: bool,
    arguments: &'a [&'a str],
    failure: Failure<'static>,
    errors: &mut E,
) -> u8
    ensures line { IsUsageReport hints (texts_of arguments.entry.now) failure.entry
        (E.trace errors.old) (E.trace errors.new) }
    ensures status { result ≡ 2 }
{
    let hint = usage_hint(alloc, hints, arguments, failure);
    report_failure(ImageSource::Standard, failure, hint, errors)
}

/// Does the job of a request, and returns the exit status. If an image or a payload would be
/// written to a terminal, nothing is read or written, and that is the failure. Requires: if the job
/// is to build a flattened image tree, it has as many lengths or files as images.
fn run_request<'a, S: TracedRead, T: TracedWrite, E: TracedWrite, F: FileSystem>(
    alloc: Global,
    request: Request<'a>,
    terminal: Terminal,
    files: &mut F,
    input: &mut S,
    output: &mut T,
    errors: &mut E,
) -> u8
    requires lengths { HasJobLengths request.job }
    ensures { IsRequestRun terminal (F.known files.old) request.entry (record {
      input = S.trace input.old;
      new_input = S.trace input.new;
      output = T.trace output.old;
      new_output = T.trace output.new;
      errors = E.trace errors.old;
      new_errors = E.trace errors.new;
      steps = F.steps files.old;
      new_steps = F.steps files.new;
      status = result;
    }) }
{
    let hints = terminal.errors;
    if is_for_terminal(&request, terminal) {
        let failure = Failure::OutputIsTerminal;
        return report_failure(
            ImageSource::Standard,
            failure,
            hint_if(hints, failure),
            errors,
        );
    }
    let limits = request.limits;
    match request.output {
        None => {
            let outcome = do_job(alloc, request.job, limits, files, input, output);
            conclude(hints, outcome, errors)
        }
        Some(name) => {
            let outcome = do_job_to_file(alloc, request.job, limits, name, files, input);
            conclude(hints, outcome, errors)
        }
    }
}

/// Returns whether an image or a payload would be written to a terminal.
fn is_for_terminal(request: &Request<'_>, terminal: Terminal) -> bool
    ensures { result ≡ is_for_terminal_of terminal request.now }
{
    terminal.output && request.writes_image && request.output.is_none()
}

/// Returns the text of clap: help, the version, or why it rejects the arguments.
fn clap_text(alloc: Global, text: &clap::Error) -> Result<String, AllocError> {
    format!(in alloc; "{text}")
}

/// Writes a text of the command line, to standard error or standard output, and returns the exit
/// status. `hints` is whether a hint follows the line of a failure.
fn print<T: TracedWrite, E: TracedWrite>(
    text: &str,
    is_usage: bool,
    hints: bool,
    output: &mut T,
    errors: &mut E,
) -> u8
    ensures { (kind : ErrorKind) (input : ReadTrace) (steps : Option (List FileStep))
        → IsTrue is_usage ↔ IsMistake kind
        → IsTextRun hints kind text.now (record {
          input = input;
          new_input = input;
          output = T.trace output.old;
          new_output = T.trace output.new;
          errors = E.trace errors.old;
          new_errors = E.trace errors.new;
          steps = steps;
          new_steps = steps;
          status = result;
        }) }
{
    if is_usage {
        let _ = write_all(errors, text.as_bytes());
        return FAILED;
    }
    match write_and_flush(output, text.as_bytes()) {
        Ok(()) => SUCCESS,
        Err(error) => {
            let failure = Failure::Call(error);
            report_failure(
                ImageSource::Standard,
                failure,
                hint_if(hints, failure),
                errors,
            )
        }
    }
}

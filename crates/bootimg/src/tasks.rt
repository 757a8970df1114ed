//! What the program does for each command on one image.

ghost use Rattle.std.specs.Prelude.{◌≡◌, ◌≤◌, ⊤, IfErr, IfOk, OnOk, length, true};
ghost use Rattle.bi_base.specs.Commands.{AppendFailed, Appended, CommandFailed};
ghost use Rattle.bi_report.specs.CheckedFiles.{IsCheckError};
ghost use Rattle.bootimg.specs.Tasks.{EndedWith, EndedWithNotes, IsDescribedAs};
ghost use Rattle.bootimg.specs.Tasks.{IsDescribeErrorAs, IsShownAs};
ghost use Rattle.bootimg.specs.Tasks.{TaskDone, TaskFails, TaskText};
ghost use Rattle.bootimg.specs.SeveralImages.{format_of_task};
ghost use Rattle.bootimg.specs.Tasks.{placed_laws, placed_promise, status_of};
ghost use Rattle.bootimg.specs.declared.failure.Failure.TheVariants.{Call};

use crate::command_line::{ShowForm, Task};
use crate::failure::Failure;
use bi_base::{Command, Error, Limits, Sink};
use bi_commands::at_offset::image_at;
use bi_commands::check::{Checker, check_into};
use bi_commands::describe::{DeepDescriber, Describer};
use bi_commands::extract::Extractor;
use bi_commands::format::Format;
use bi_commands::list::Lister;
use bi_commands::scan::Scanner;
use bi_commands::show::JsonPresenter;
use bi_commands::verify::Verifier;
use bi_edit::EditNotes;
use bi_norm::{Kept, convert_into, normalise_with_kept};
use std::alloc::Global;

/// The exit status after success, help and the version included.
pub const SUCCESS: u8 = 0;

/// The exit status after an answer that is not good.
const NOT_GOOD: u8 = 1;

/// How a job ended that did not fail.
#[derive(Clone, Copy)]
pub struct Done {
    /// Whether the answer is good: `verify` wrote no verdict but good ones, `check` wrote no
    /// concern, `scan` wrote a line, and the images that `compare` compared mean the same. The
    /// answer of any other command is good.
    pub good: bool,
    /// The signature nodes of a normal form or an updated one, and what it does not keep of the
    /// input.
    pub kept: Kept,
    /// How many payloads an update put inside the blob that were not inside it in the input.
    pub inside: usize,
}

impl Done {
    /// Returns the end of a job with nothing to note, with this answer.
    pub fn with_answer(good: bool) -> Done
        ensures { EndedWith good result }
    {
        Done {
            good,
            kept: Kept::default(),
            inside: 0,
        }
    }

    /// Returns the end of a job that ended well, with these notes.
    pub fn with_notes(notes: EditNotes) -> Done
        ensures { EndedWithNotes notes result }
    {
        Done {
            good: true,
            kept: notes.kept,
            inside: notes.inside,
        }
    }

    /// Returns the end of a job that ended well, with nothing to note but this.
    fn with_kept(kept: Kept) -> Done
        ensures good { result.good ≡ true }
        ensures kept { result.kept ≡ kept }
        ensures inside { result.inside ≡ 0 }
    {
        Done {
            good: true,
            kept,
            inside: 0,
        }
    }

    /// Returns the exit status.
    pub fn status(self) -> u8
        ensures { result ≡ status_of self.good }
    {
        if self.good { SUCCESS } else { NOT_GOOD }
    }
}

impl<'a> Task<'a> {
    /// Returns the form of what the task writes.
    pub fn format(&self) -> Format
        ensures { result ≡ format_of_task self.now }
    {
        match self {
            Task::List(format) | Task::Describe(_, format) => *format,
            Task::Verify(format) | Task::Check(_, format) | Task::Scan(format) => *format,
            _ => Format::Lines,
        }
    }

    /// Appends what the task makes of an image to a sink, and returns how that ended. Requires: the
    /// image is not longer than the limit on files.
    ///
    /// After an error of the task, the sink is unchanged. After an error of the sink, the sink is
    /// as a failed `put` of the output leaves it.
    fn run_on<S: Sink>(
        &self,
        alloc: Global,
        image: &[u8],
        limits: Limits,
        sink: &mut S,
    ) -> Result<Done, Failure<'a>>
        requires short { length image.now ≤ limits.file }
        ensures appended { IfOk result (λ done. Appended S.appends
            (TaskDone self.now limits done image.now) sink.old sink.new) }
        ensures failed { IfErr result (CommandFailed S.fails Call
            (TaskText self.now limits image.now) (TaskFails self.now limits image.now)
            sink.old sink.new) }
    {
        match self {
            Task::Normalise(form) => {
                let kept = normalise_with_kept(alloc, image, *form, limits, sink)?;
                return Ok(Done::with_kept(kept));
            }
            Task::Show(how) => {
                append_shown(alloc, image, limits, *how, sink)?;
                return Ok(Done::with_answer(true));
            }
            Task::List(format) => {
                Lister { format: *format }.run(alloc, image, limits, sink)?;
                return Ok(Done::with_answer(true));
            }
            Task::Describe(deep, format) => {
                append_described(alloc, image, limits, *deep, *format, sink)?;
                return Ok(Done::with_answer(true));
            }
            Task::Verify(format) => {
                let good = Verifier { format: *format }.run(alloc, image, limits, sink)?;
                return Ok(Done::with_answer(good));
            }
            Task::Check(policy, format) => {
                let checker = Checker {
                    policy: *policy,
                    format: *format,
                };
                let clean = check_into(alloc, image, checker, limits, sink)?;
                return Ok(Done::with_answer(clean));
            }
            Task::Scan(format) => {
                let found = Scanner { format: *format }.run(alloc, image, limits, sink)?;
                return Ok(Done::with_answer(found));
            }
            Task::Get(plan) => match plan.getter().run(alloc, image, limits, sink) {
                Ok(()) => return Ok(Done::with_answer(true)),
                Err(error) => return Err(plan.failure(error)),
            },
            Task::Extract(selection) => {
                let select = selection.select();
                Extractor { select }.run(alloc, image, limits, sink)?;
                return Ok(Done::with_answer(true));
            }
            Task::Convert => {
                convert_into(alloc, image, limits, sink)?;
                return Ok(Done::with_answer(true));
            }
        }
    }
}

/// Appends an image that is shown in this way. Fails as `check` does, or as the sink does.
fn append_shown<S: Sink>(
    alloc: Global,
    image: &[u8],
    limits: Limits,
    how: ShowForm,
    sink: &mut S,
) -> Result<(), Error>
    requires short { length image.now ≤ limits.file }
    ensures appended { OnOk result (Appended S.appends (IsShownAs how limits image.now)
        sink.old sink.new) }
    ensures failed { IfErr result (AppendFailed S.fails (IsShownAs how limits image.now)
        (IsCheckError limits image.now) sink.old sink.new) }
{
    match how {
        ShowForm::Page(presenter) => presenter.run(alloc, image, limits, sink),
        ShowForm::Json => JsonPresenter.run(alloc, image, limits, sink),
    }
}

/// Appends the description of an image, in a form: the deep one if the flag is set. Fails as
/// `describe` or `describe_deep` does, or as the sink does. Requires: the image is not longer than
/// the limit on files.
fn append_described<S: Sink>(
    alloc: Global,
    image: &[u8],
    limits: Limits,
    deep: bool,
    format: Format,
    sink: &mut S,
) -> Result<(), Error>
    requires short { length image.now ≤ limits.file }
    ensures appended { OnOk result (Appended S.appends (IsDescribedAs deep format limits image.now)
        sink.old sink.new) }
    ensures failed { IfErr result (AppendFailed S.fails
        (IsDescribedAs deep format limits image.now)
        (IsDescribeErrorAs deep format limits image.now) sink.old sink.new) }
{
    if deep {
        DeepDescriber { format }.run(alloc, image, limits, sink)
    } else {
        Describer { format }.run(alloc, image, limits, sink)
    }
}

/// A task on the image at an offset of the input, as a command. The limit is on the whole input. If
/// the input ends before the offset, the image is empty.
#[derive(Clone, Copy)]
pub struct PlacedTask<'a, 'b> {
    /// The task.
    pub task: &'b Task<'a>,
    /// Where the image begins: an offset in bytes.
    pub offset: u32,
}

impl<'a, 'b> Command for PlacedTask<'a, 'b> {
    type Value = Done;

    type Failure = Failure<'a>;

    ghost can_run = { λ _. ⊤ };

    ghost promise = { λ placed. placed_promise placed.offset placed.task.now };

    fn run<S: Sink>(
        &self,
        alloc: Global,
        input: &[u8],
        limits: Limits,
        sink: &mut S,
    ) -> Result<Done, Failure<'a>> {
        let image = image_at(input, self.offset as usize);
        self.task.run_on(alloc, image, limits, sink)
    }

    ghost wraps_from = { λ _ _ _ _ same. same };

    ghost laws = { λ placed. placed_laws placed.offset placed.task.now };
}

//! The command line.

mod allowed;
mod build;
mod configurations;
mod edits;
mod explain;
mod extract;
mod get;
mod hashes;
mod ignored;
mod image;
mod images;
mod options;
mod part;
mod refused;
mod show;
mod source;
mod table;
mod takes;
mod texts;
mod values;

ghost use Rattle.std.specs.Prelude.{◌≡◌, ◌≢◌, false, true, IfOk, IfErr, IsFalse, IsTrue, codes};
ghost use Rattle.bi_base.specs.declared.fault.Error.TheVariants.{OutOfMemory};
ghost use Rattle.bootimg.specs.CommandLine.{HasJobLengths, HasOrderDepth};
ghost use Rattle.bootimg.specs.CommandLine.{HasOrderLengths};
ghost use Rattle.bootimg.specs.CommandLine.{IsFailureOutcome, IsImagesFailure, IsImagesRequest};
ghost use Rattle.bootimg.specs.CommandLine.{IsJob, IsNoRequest, IsOrder, IsOutcomeOf, IsTask};
ghost use Rattle.bootimg.specs.CommandLine.{IsTaskFailure, NamesImages, NamesNoMore, SelectsAll};
ghost use Rattle.bootimg.specs.CommandLine.{texts_of};
ghost use Rattle.bootimg.specs.Program.{IsCommandName};
ghost use Rattle.bootimg.specs.declared.command_line.NoRequest.TheVariants as outcome;
ghost use Rattle.bootimg.specs.declared.failure.Failure.TheVariants.{Call};

use crate::explanations::Topic;
use crate::failure::Failure;
use allowed::policy;
use bi_base::{Error, Limits};
use bi_commands::check::Policy;
use bi_commands::format::Format;
use bi_norm::Form;
pub use build::{BuildPlan, FitPlan, LegacyPlan};
use build::{fit_plan, legacy_plan};
use clap::ArgMatches;
use clap::error::ErrorKind;
pub use configurations::ConfigurationWord;
pub use edits::EditPlan;
use edits::edit_plan;
use explain::explained_topic;
pub use extract::{AllRequest, Selected};
use extract::{all_request, selection};
use get::get_plan;
pub use images::ImagesRequest;
use images::{image_sources, names_images};
use options::{flag, form, format, limits, number};
pub use part::PartSource;
pub use refused::{RefusedWord, refused_word};
pub use show::ShowForm;
use show::show_form;
pub use source::{ComparePlan, ImageSource};
use source::{compare_plan, source};
use std::alloc::{AllocError, AllocFailed, Global};
use table::{program, writes_image};
pub use takes::{Place, Takes};
pub use texts::{NamedText, OwnTexts, text_named, texts_named};
pub use values::{GetPlan, ValueWords};

/// A command on one image, with the options that change what it does.
#[derive(Drop)]
pub enum Task<'a> {
    /// Write the normal form. That of a flattened image tree has this form.
    Normalise(Form),
    /// Write the page for a person, or the same as JSON.
    Show(ShowForm),
    /// Write the listing, in this form.
    List(Format),
    /// Write the description of what the image means, the deep one if the flag is set, in this
    /// form.
    Describe(bool, Format),
    /// Write the report on the checksums and digests, in this form.
    Verify(Format),
    /// Write the concerns that this policy does not allow, in this form.
    Check(Policy, Format),
    /// Write the images inside the input, in this form.
    Scan(Format),
    /// Write the values of the plan.
    Get(GetPlan<'a>),
    /// Write what the selection chooses.
    Extract(Selected),
    /// Write the flattened image tree of a legacy image.
    Convert,
}

/// What is done with one image.
#[derive(Drop)]
pub struct ImagePlan<'a> {
    /// The task.
    pub task: Task<'a>,
    /// Where the image begins in the input: an offset in bytes.
    pub offset: u32,
    /// Where the input is read from.
    pub source: ImageSource<'a>,
}

/// What the program does with its streams.
#[derive(Drop)]
pub enum Job<'a> {
    /// Do a task with one image.
    Run(ImagePlan<'a>),
    /// Compare two images.
    Compare(ComparePlan<'a>),
    /// Edit an image.
    Edit(EditPlan<'a>),
    /// Write what this means, or what each cause of a refusal and each kind of concerns means.
    Explain(Option<Topic>),
    /// Build an image.
    Build(BuildPlan<'a>),
}

/// A job that the arguments request, with its output.
#[derive(Drop)]
pub struct Request<'a> {
    /// What to do.
    pub job: Job<'a>,
    /// The limits for what is read and written.
    pub limits: Limits,
    /// The name of the output file. Without one the output goes to standard output.
    pub output: Option<&'a str>,
    /// Whether the output is an image or a payload, and not text.
    pub writes_image: bool,
}

/// What the arguments request.
#[derive(Drop)]
pub enum Order<'a> {
    /// Do a job, and write its output.
    Do(Request<'a>),
    /// Do a task with each of several images, one after another, and write the outputs.
    DoEach(ImagesRequest<'a>),
    /// Extract every payload of an image into a new directory.
    ExtractAll(AllRequest<'a>),
}

/// The outcome of arguments that request no task.
#[derive(Drop)]
pub enum NoRequest {
    /// The program prints this text: help, the version, or why clap rejects the arguments.
    Text(clap::Error),
    /// The program fails.
    Failure(Failure<'static>),
}

impl From<clap::Error> for NoRequest {
    ghost from_gives = { λ error result. IsOutcomeOf error result };

    fn from(error: clap::Error) -> NoRequest {
        match error.kind() {
            ErrorKind::OutOfMemory => NoRequest::Failure(Failure::Call(Error::OutOfMemory)),
            _ => NoRequest::Text(error),
        }
    }
}

impl From<Error> for NoRequest {
    ghost from_gives = { λ error result. result ≡ outcome.Failure (Call error) };

    fn from(error: Error) -> NoRequest {
        NoRequest::Failure(Failure::Call(error))
    }
}

impl From<AllocError> for NoRequest {
    ghost from_gives = { λ _ result. result ≡ outcome.Failure (Call OutOfMemory) };

    fn from(error: AllocError) -> NoRequest {
        NoRequest::Failure(Failure::Call(Error::from(error)))
    }
}

impl<T: Drop> From<AllocFailed<T>> for NoRequest {
    ghost from_gives = { λ _ result. result ≡ outcome.Failure (Call OutOfMemory) };

    fn from(error: AllocFailed<T>) -> NoRequest {
        NoRequest::Failure(Failure::Call(Error::from(error)))
    }
}

impl From<Failure<'static>> for NoRequest {
    ghost from_gives = { λ failure result. result ≡ outcome.Failure failure };

    fn from(failure: Failure<'static>) -> NoRequest {
        NoRequest::Failure(failure)
    }
}

/// Parses the arguments, without the program's own name.
///
/// Errors, the first that applies: what clap rejects; `extract` without exactly one selection, or
/// `update` without a change; a number that is malformed or out of range, an unknown code, key or
/// kind of concerns, `extract --all` without an output, or standard input twice among the images;
/// an image of `build-fit` that is malformed; a configuration of `build-fit` that is malformed, or
/// cannot be built of the images. A call that allocates may run out of memory.
pub fn parse_arguments<'a>(alloc: Global, arguments: &'a [&'a str]) -> Result<Order<'a>, NoRequest>
    ensures order { IfOk result (IsOrder (texts_of arguments.entry.now)) }
    ensures failure { IfErr result (IsNoRequest (texts_of arguments.entry.now)) }
    ensures lengths { IfOk result HasOrderLengths }
    ensures depth { IfOk result HasOrderDepth }
{
    let matches = program(alloc)?.try_get_matches_from(arguments)?;
    let Some((name, options)) = matches.subcommand() else {
        unreachable!()
    };
    if extracts_all(name, options) {
        match all_request(options) {
            Ok(request) => return Ok(Order::ExtractAll(request)),
            Err(failure) => return Err(NoRequest::Failure(failure)),
        }
    }
    if names_images(name, options) {
        return Ok(Order::DoEach(images_request(alloc, name, options)?));
    }
    let job = parse_job(alloc, name, options)?;
    let limits = limits(options)?;
    Ok(Order::Do(Request {
        job,
        limits,
        output: options.get_str("output"),
        writes_image: writes_image(name),
    }))
}

/// Returns whether the command of this name with the options is `extract --all`.
fn extracts_all(name: &str, options: &ArgMatches<'_>) -> bool
    ensures all { IsTrue result → (name.now ≡ codes "extract") × SelectsAll options.now true }
    ensures not_all { IsFalse result → name.now ≡ codes "extract"
        → SelectsAll options.now false }
{
    name == "extract" && flag(options, "all")
}

/// Returns what the command of this name does with each of several images. Fails as
/// `parse_arguments` does. Requires: the options name several images, and the command takes them.
fn images_request<'a>(
    alloc: Global,
    name: &str,
    options: &ArgMatches<'a>,
) -> Result<ImagesRequest<'a>, NoRequest>
    requires names { NamesImages name.now options.now }
    ensures request { IfOk result (IsImagesRequest name.now options.now) }
    ensures depth { IfOk result (λ request. request.limits.depth ≡ 64) }
    ensures failure { IfErr result (IsFailureOutcome (IsImagesFailure name.now options.now)) }
{
    let task = parse_task(alloc, name, options)?;
    let offset = number(options, "offset")?;
    let sources = image_sources(alloc, options)?;
    let limits = limits(options)?;
    Ok(ImagesRequest {
        task,
        offset,
        sources,
        limits,
        output: options.get_str("output"),
    })
}

/// Returns what the command of this name does with the options. Fails as `parse_arguments` does.
/// Requires: the name is that of a command, and `extract` does not have `--all`. The options do not
/// name several images, if the command takes any number of them.
fn parse_job<'a>(alloc: Global, name: &str, options: &ArgMatches<'a>) -> Result<Job<'a>, NoRequest>
    requires command { IsCommandName name.now }
    requires not_all { name.now ≡ codes "extract" → SelectsAll options.now false }
    requires no_more { NamesNoMore name.now options.now }
    ensures job { IfOk result (IsJob name.now options.now) }
    ensures lengths { IfOk result (λ job. HasJobLengths job) }
    ensures failure { IfErr result (IsFailureOutcome (IsTaskFailure name.now options.now)) }
{
    if name == "compare" {
        return Ok(Job::Compare(compare_plan(alloc, options)?));
    }
    if name == "update" {
        return Ok(Job::Edit(edit_plan(alloc, options)?));
    }
    if name == "explain" {
        return Ok(Job::Explain(explained_topic(options)?));
    }
    if name == "build-legacy" {
        let plan = legacy_plan(alloc, options)?;
        return Ok(Job::Build(BuildPlan::Legacy(plan)));
    }
    if name == "build-fit" {
        // A bad limit comes before a bad image.
        limits(options)?;
        let plan = fit_plan(alloc, options)?;
        return Ok(Job::Build(BuildPlan::Fit(plan)));
    }
    let task = parse_task(alloc, name, options)?;
    // A command without `--offset` has its default, as one without `--limit` does.
    let offset = number(options, "offset")?;
    Ok(Job::Run(ImagePlan {
        task,
        offset,
        source: source(options, "file"),
    }))
}

/// Returns the task of the command of this name with the options. Fails as `parse_arguments` does.
/// Requires: the name is that of a command other than `compare`, `update`, `explain`,
/// `build-legacy` and `build-fit`, and `extract` does not have `--all`.
fn parse_task<'a>(
    alloc: Global,
    name: &str,
    options: &ArgMatches<'a>,
) -> Result<Task<'a>, NoRequest>
    requires command { IsCommandName name.now }
    requires not_all { name.now ≡ codes "extract" → SelectsAll options.now false }
    requires no_comparison { name.now ≢ codes "compare" }
    requires no_update { name.now ≢ codes "update" }
    requires no_explanation { name.now ≢ codes "explain" }
    requires no_build_legacy { name.now ≢ codes "build-legacy" }
    requires no_build_fit { name.now ≢ codes "build-fit" }
    ensures task { IfOk result (IsTask name.now options.now) }
    ensures failure { IfErr result (IsFailureOutcome (IsTaskFailure name.now options.now)) }
{
    Ok(match name {
        "normalise" => Task::Normalise(form(options)?),
        "show" => Task::Show(show_form(options)?),
        "list" => Task::List(format(options)),
        "describe" => Task::Describe(flag(options, "deep"), format(options)),
        "verify" => Task::Verify(format(options)),
        "check" => Task::Check(policy(options)?, format(options)),
        "scan" => Task::Scan(format(options)),
        "get" => Task::Get(get_plan(alloc, options)?),
        "extract" => Task::Extract(selection(alloc, options)?),
        "convert" => Task::Convert,
        _ => unreachable!(),
    })
}

//! Several images, as the arguments name them.

ghost use Rattle.std.specs.Prelude.{◌≡◌, ◌↔◌, IfErr, IfOk, IsFalse, IsTrue, count_by};
ghost use Rattle.bootimg.specs.CommandLine.{AreImageSources, AreSources, IsBadValue};
ghost use Rattle.bootimg.specs.CommandLine.{IsFailureOutcome, NamesImages, NamesNoMore};
ghost use Rattle.bootimg.specs.CommandLine.{TakesImages, image_arguments};
ghost use Rattle.bootimg.specs.CommandLine.{is_standard, texts_of};

use crate::command_line::source::{ImageSource, named_source};
use crate::command_line::{NoRequest, Task};
use crate::failure::Failure;
use bi_base::Limits;
use clap::ArgMatches;
use std::alloc::{AllocError, Global};

/// What is done with each of several images, with one output.
#[derive(Drop)]
pub struct ImagesRequest<'a> {
    /// The task.
    pub task: Task<'a>,
    /// Where each image begins in its input: an offset in bytes.
    pub offset: u32,
    /// Where each input is read from. At most one of them is standard input.
    pub sources: Vec<ImageSource<'a>>,
    /// The limits for what is read and written, for each image alone.
    pub limits: Limits,
    /// The name of the output file. Without one the output goes to standard output.
    pub output: Option<&'a str>,
}

/// Returns whether the options name several images, and the command of this name takes them.
pub fn names_images(name: &str, options: &ArgMatches<'_>) -> bool
    ensures several { IsTrue result → NamesImages name.now options.now }
    ensures no_more { IsFalse result → NamesNoMore name.now options.now }
{
    takes_images(name) && options.get_strs("file").unwrap_or(&[]).len() >= 2
}

/// Returns whether the command of this name takes any number of images.
fn takes_images(name: &str) -> bool
    ensures { IsTrue result ↔ TakesImages name.now }
{
    matches!(name, "list" | "verify" | "check" | "scan")
}

/// Returns the images that the options name. Fails with BadValue if more than one of them is
/// standard input, or with OutOfMemory.
pub fn image_sources<'a>(
    alloc: Global,
    options: &ArgMatches<'a>,
) -> Result<Vec<ImageSource<'a>>, NoRequest>
    ensures sources { IfOk result (λ sources.
        AreSources (image_arguments options.now) sources.items) }
    ensures failure { IfErr result (IsFailureOutcome
        (IsBadValue (AreSources (image_arguments options.now)))) }
{
    let arguments = options.get_strs("file").unwrap_or(&[]);
    let sources = named_sources(alloc, arguments)?;
    if standard_inputs(&sources) > 1 {
        return Err(NoRequest::Failure(Failure::BadValue));
    }
    Ok(sources)
}

/// Returns the images that these arguments name.
fn named_sources<'a>(
    alloc: Global,
    arguments: &[&'a str],
) -> Result<Vec<ImageSource<'a>>, AllocError>
    ensures { IfOk result (λ sources. AreImageSources (texts_of arguments.now) sources.items) }
{
    let mut sources = Vec::with_capacity(alloc, arguments.len())?;
    for argument in arguments {
        sources.push(named_source(argument))?;
    }
    Ok(sources)
}

/// Returns how many of these images are standard input.
fn standard_inputs(sources: &[ImageSource<'_>]) -> usize
    ensures { result ≡ count_by is_standard sources.now }
{
    sources.iter().filter(|source| source.is_standard()).count()
}

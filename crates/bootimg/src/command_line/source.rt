//! The images that the arguments name, and the command `compare`.

ghost use Rattle.std.specs.Prelude.{◌≡◌, IfOk, IfErr, Some};
ghost use Rattle.bi_common.specs.Shown.{shown_text};
ghost use Rattle.bootimg.specs.CommandLine.{option_of, IsBadValue, IsComparePlan};
ghost use Rattle.bootimg.specs.CommandLine.{IsFailureOutcome, IsImageSource};
ghost use Rattle.bootimg.specs.CommandLine.{is_standard as is_standard_of};
ghost use Rattle.bootimg.specs.SeveralImages.{source_text};

use crate::command_line::NoRequest;
use crate::command_line::ignored::ignored_words;
use crate::command_line::options::{flag, format};
use crate::failure::Failure;
use bi_commands::format::Format;
use bi_commands::ignored::Ignored;
use clap::ArgMatches;
use std::alloc::Global;

/// Where an image is read from.
#[derive(Clone, Copy)]
pub enum ImageSource<'a> {
    /// Standard input.
    Standard,
    /// The file of this name.
    File(&'a str),
}

impl<'a> ImageSource<'a> {
    /// Returns whether the image is read from standard input.
    pub fn is_standard(&self) -> bool
        ensures { result ≡ is_standard_of self.now }
    {
        match self {
            ImageSource::Standard => true,
            ImageSource::File(_) => false,
        }
    }

    /// Returns the name of the image: that of its file, or no byte for standard input. Both are
    /// printed as names are.
    pub fn name(self) -> &'a [u8]
        ensures { shown_text result.now ≡ source_text self.entry }
    {
        match self {
            ImageSource::Standard => b"",
            ImageSource::File(name) => name.as_bytes(),
        }
    }
}

/// What `compare` compares.
#[derive(Drop)]
pub struct ComparePlan<'a> {
    /// The first image.
    pub one: ImageSource<'a>,
    /// The second image. At most one of the two is read from standard input.
    pub other: ImageSource<'a>,
    /// Whether the differences are left out.
    pub quiet: bool,
    /// Whether what is inside payloads and parts is compared, too.
    pub deep: bool,
    /// The form of the differences.
    pub format: Format,
    /// What is left out of both images: nothing without `--ignore`, and something with it.
    pub ignored: Vec<Ignored>,
}

/// Returns the image that the argument of this name gives: standard input if there is none, or if
/// it is `-`.
pub fn source<'a>(options: &ArgMatches<'a>, id: &str) -> ImageSource<'a>
    ensures { IsImageSource (option_of options.now id.now) result }
{
    match options.get_str(id) {
        None => ImageSource::Standard,
        Some(argument) => named_source(argument),
    }
}

/// Returns the image that an argument names: standard input if it is `-`.
pub fn named_source(argument: &str) -> ImageSource<'_>
    ensures { IsImageSource (Some argument.now) result }
{
    match argument {
        "-" => ImageSource::Standard,
        _ => ImageSource::File(argument),
    }
}

/// Returns what the options of `compare` give. Fails with BadValue if both images are to be read
/// from standard input, or if a value of `--ignore` is for no words, or with OutOfMemory.
pub fn compare_plan<'a>(
    alloc: Global,
    options: &ArgMatches<'a>,
) -> Result<ComparePlan<'a>, NoRequest>
    ensures plan { IfOk result (IsComparePlan options.now) }
    ensures failure { IfErr result (IsFailureOutcome (IsBadValue (IsComparePlan options.now))) }
{
    let one = source(options, "one");
    let other = source(options, "other");
    let quiet = flag(options, "quiet");
    let deep = flag(options, "deep");
    let format = format(options);
    let ignored = ignored_words(alloc, options)?;
    match (one, other) {
        (ImageSource::Standard, ImageSource::Standard) => {
            Err(NoRequest::Failure(Failure::BadValue))
        }
        _ => Ok(ComparePlan {
            one,
            other,
            quiet,
            deep,
            format,
            ignored,
        }),
    }
}

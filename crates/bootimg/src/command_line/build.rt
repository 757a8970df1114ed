//! The commands `build-legacy` and `build-fit`.

ghost use Rattle.std.specs.Prelude.{◌≡◌, IfOk, IfErr, length};
ghost use Rattle.bootimg.specs.CodeWords.{IsCode};
ghost use Rattle.bootimg.specs.CommandLine.{texts_of, sources_of, AreImages, ArePartSources};
ghost use Rattle.bootimg.specs.CommandLine.{IsFailureOutcome, IsBadImage, IsBadValue, IsFields};
ghost use Rattle.bootimg.specs.CommandLine.{IsFitPlan, IsFitPlanFailure, IsLegacyPlan};

use crate::codes::{CodeField, parse_code};
use crate::command_line::NoRequest;
use crate::command_line::configurations::{ConfigurationWord, default_name, parse_configurations};
use crate::command_line::hashes::algorithms;
use crate::command_line::image::parse_image;
use crate::command_line::options::{all_values, form, number, value};
use crate::command_line::part::{PartSource, parse_part};
use crate::command_line::table::NO_COMPRESSION;
use crate::command_line::texts::{OwnTexts, own_texts};
use crate::failure::Failure;
use bi_hash::Algo;
use bi_legacy::Fields;
use bi_norm::{Form, Head, ImageSpec, ImageTexts};
use clap::ArgMatches;
use std::alloc::Global;

/// What `build-legacy` builds.
#[derive(Drop)]
pub struct LegacyPlan<'a> {
    /// The fields of the header.
    pub fields: Fields<'a>,
    /// Where each part comes from. If there are none, the whole of standard input is the one part.
    pub parts: Vec<PartSource<'a>>,
}

/// What `build-fit` builds.
#[derive(Drop)]
pub struct FitPlan<'a> {
    /// The description and the time.
    pub head: Head<'a>,
    /// The images, with empty payloads.
    pub images: Vec<ImageSpec<'a>>,
    /// The texts of each image instead of its codes, if there are any.
    pub texts: Vec<Option<ImageTexts<'a>>>,
    /// The configurations. If there is none, one configuration lists the images by their types.
    pub configurations: Vec<ConfigurationWord<'a>>,
    /// The name of the default configuration. If there is none, it is the first configuration.
    pub default: Option<&'a [u8]>,
    /// The algorithms of the hash nodes of each image.
    pub algorithms: Vec<Algo>,
    /// The texts that are for one image or one configuration.
    pub own_texts: OwnTexts<'a>,
    /// Where the payload of each image comes from.
    pub payloads: Vec<PartSource<'a>>,
    /// Where the payloads are in the tree.
    pub form: Form,
}

/// What a command builds.
#[derive(Drop)]
pub enum BuildPlan<'a> {
    /// A legacy image.
    Legacy(LegacyPlan<'a>),
    /// A flattened image tree.
    Fit(FitPlan<'a>),
}

impl<'a> BuildPlan<'a> {
    /// Returns where each part or payload comes from.
    pub fn sources(&self) -> &[PartSource<'a>]
        ensures { result.now ≡ sources_of self.now }
    {
        match self {
            BuildPlan::Legacy(plan) => &plan.parts,
            BuildPlan::Fit(plan) => &plan.payloads,
        }
    }
}

/// Returns what `build-legacy` builds. Fails with BadValue if the value of an option is malformed
/// or a part is neither a length nor `@FILE`, or with OutOfMemory.
pub fn legacy_plan<'a>(alloc: Global, options: &ArgMatches<'a>) -> Result<LegacyPlan<'a>, NoRequest>
    ensures plan { IfOk result (IsLegacyPlan options.now) }
    ensures failure { IfErr result (IsFailureOutcome (IsBadValue (IsLegacyPlan options.now))) }
{
    let fields = fields(options)?;
    let arguments = all_values(options, "lengths");
    let parts = parse_parts(alloc, arguments)?;
    Ok(LegacyPlan { fields, parts })
}

/// Returns the fields of the header that the options give. Fails with BadValue.
fn fields<'a>(options: &ArgMatches<'a>) -> Result<Fields<'a>, Failure<'static>>
    ensures fields { IfOk result (IsFields options.now) }
    ensures bad { IfErr result (IsBadValue (IsFields options.now)) }
{
    Ok(Fields {
        time: number(options, "time")?,
        load: number(options, "load")?,
        entry: number(options, "entry")?,
        os: code(CodeField::Os, value(options, "os", ""))?,
        arch: code(CodeField::Arch, value(options, "arch", ""))?,
        image_type: code(CodeField::ImageType, value(options, "type", ""))?,
        compression: code(
            CodeField::Compression,
            value(options, "compression", NO_COMPRESSION),
        )?,
        name: value(options, "name", "").as_bytes(),
    })
}

/// Parses a code. Fails with BadValue.
fn code(field: CodeField, argument: &str) -> Result<u8, Failure<'static>>
    ensures value { IfOk result (IsCode field argument.now) }
    ensures bad { IfErr result (IsBadValue (IsCode field argument.now)) }
{
    parse_code(field, argument).ok_or(Failure::BadValue)
}

/// Parses parts. Fails with BadValue at an argument that is neither a length nor `@FILE`, or with
/// OutOfMemory.
fn parse_parts<'a>(alloc: Global, arguments: &[&'a str]) -> Result<Vec<PartSource<'a>>, NoRequest>
    ensures parts { IfOk result (λ parts. ArePartSources (texts_of arguments.now) parts.items) }
    ensures failure { IfErr result (IsFailureOutcome
        (IsBadValue (ArePartSources (texts_of arguments.now)))) }
{
    let mut parts = Vec::with_capacity(alloc, arguments.len())?;
    for argument in arguments {
        parts.push(parse_part(argument).ok_or(Failure::BadValue)?)?;
    }
    Ok(parts)
}

/// Returns what `build-fit` builds.
///
/// Errors, the first that applies: BadValue, if the time is not a number, there is no such form,
/// the default names none of the configurations, an algorithm is unknown or given twice, or a text
/// for one image or one configuration is malformed, is for none of them, or is the second
/// description of one; BadImage at the first argument that is not an image; BadConfiguration at the
/// first word that is not a configuration, or one that cannot be built. Or OutOfMemory.
pub fn fit_plan<'a>(alloc: Global, options: &ArgMatches<'a>) -> Result<FitPlan<'a>, NoRequest>
    ensures plan { IfOk result (IsFitPlan options.now) }
    ensures lengths { IfOk result (λ plan. length plan.payloads.items
        ≡ length plan.images.items) }
    ensures failure { IfErr result (IsFailureOutcome (IsFitPlanFailure options.now)) }
{
    let head = Head {
        description: value(options, "description", "").as_bytes(),
        time: number(options, "time")?,
    };
    let form = form(options)?;
    let words = all_values(options, "config");
    let default = default_name(options, words)?;
    let algorithms = algorithms(alloc, options)?;
    let own_texts = own_texts(alloc, options)?;
    let arguments = all_values(options, "images");
    let built = parse_images(alloc, arguments)?;
    let configurations = parse_configurations(alloc, words, &built.images)?;
    Ok(FitPlan {
        head,
        images: built.images,
        texts: built.texts,
        configurations,
        default,
        algorithms,
        own_texts,
        payloads: built.payloads,
        form,
    })
}

/// Images of `build-fit`.
#[derive(Drop)]
struct BuiltImages<'a> {
    /// The images, with empty payloads.
    images: Vec<ImageSpec<'a>>,
    /// The texts of each image instead of its codes, if there are any.
    texts: Vec<Option<ImageTexts<'a>>>,
    /// Where the payload of each image comes from.
    payloads: Vec<PartSource<'a>>,
}

/// Parses images, and where their payloads come from. Fails with BadImage at the first argument
/// that is not an image, or with OutOfMemory.
fn parse_images<'a>(alloc: Global, arguments: &[&'a str]) -> Result<BuiltImages<'a>, NoRequest>
    ensures images { IfOk result (λ built. AreImages (texts_of arguments.now) built.images.items
        built.texts.items built.payloads.items) }
    ensures failure { IfErr result (IsFailureOutcome (IsBadImage (texts_of arguments.now))) }
{
    let mut images = Vec::with_capacity(alloc, arguments.len())?;
    let mut texts = Vec::with_capacity(alloc, arguments.len())?;
    let mut payloads = Vec::with_capacity(alloc, arguments.len())?;
    for (index, argument) in arguments.iter().enumerate() {
        let word = parse_image(argument).ok_or(Failure::BadImage(index))?;
        images.push(word.image)?;
        texts.push(word.texts)?;
        payloads.push(word.payload)?;
    }
    Ok(BuiltImages {
        images,
        texts,
        payloads,
    })
}

//! Building a flattened image tree with a plan of its configurations and hash nodes, of pieces of
//! the caller's memory.

ghost use Rattle.std.specs.Prelude.{◌≡◌, ◌+◌, ◌≤◌, ◌<◌, ◌↔◌, List, IfErr, IfNone, IfOk, IfSome};
ghost use Rattle.std.specs.Prelude.{IsSome, IsTrue, drop, length, map, take};
ghost use Rattle.std.specs.List.{AllByRecursion};
ghost use Rattle.std.specs.Option.{option_map};
ghost use Rattle.bi_base.specs.Slices.{bytes_of};
ghost use Rattle.bi_norm.specs.FitBuilding.{descriptions_models, image_texts_model, texts_models};
ghost use Rattle.bi_c.specs.Answers.{FillsBuffer};
ghost use Rattle.bi_c.specs.Checks.{IsElementFailure, IsWrong};
ghost use Rattle.bi_c.specs.PieceBuilding.{IsPieceInside, bytes_of_piece};
ghost use Rattle.bi_c.specs.PlanBuilding.{AreConfigurationsOf, AreOptions, AreOtherOptions};
ghost use Rattle.bi_c.specs.PlanBuilding.{ArePlanParts, AreSettingsOf, AreTextsInside};
ghost use Rattle.bi_c.specs.PlanBuilding.{IsConfigurationInside, IsConfigurationOf, IsPlanFailure};
ghost use Rattle.bi_c.specs.PlanBuilding.{IsPlannedTree, OptionsCheck, PlanPieces};
ghost use Rattle.bi_c.specs.PlanBuilding.{description_if_given};
ghost use Rattle.bi_c.specs.PlanBuilding.{algorithm_of as algorithm_with, piece_if_given};
ghost use Rattle.bi_c.specs.PlanBuilding.{pieces_of_call, texts_if_given};
ghost use Rattle.bi_c.specs.declared.argument.Argument.TheVariants.{Algorithms, Configurations};
ghost use Rattle.bi_c.specs.declared.argument.Argument.TheVariants.{Texts};
ghost use Rattle.bi_c.specs.declared.failure.Failure.TheVariants.{OutOfMemory};
ghost use Rattle.bi_c.specs.declared.plan_building.BuildOptions.{BuildOptions as OptionsModel};
ghost use Rattle.bi_c.specs.declared.region.Region.{Region as RegionModel};

use crate::answer::{Answer, fail, fill};
use crate::argument::{Argument, wrong_limit};
use crate::arguments::{form_of, has_bit, limits_of};
use crate::building::{is_inside, piece, pieces};
use crate::failure::{Failure, failure_of};
use crate::fit_building::{BuildElement, specs_of};
use crate::region::Region;
use bi_base::Limits;
use bi_fit::{ConfigurationSpec, Head};
use bi_hash::Algo;
use bi_norm::{Form, ImageSpec, ImageTexts, PlanSpec, build_fit_as};
use std::alloc::Global;

/// The size of the struct of options in bytes.
const OPTIONS_SIZE: usize = 64;

/// Some of the regions of a list, one after another.
#[repr(C)]
#[derive(Clone, Copy, Debug, PartialEq, Eq)]
pub struct Range {
    /// The index of the first one.
    pub first: usize,
    /// How many there are.
    pub count: usize,
}

/// What is given of an image of a flattened image tree to be built besides its codes. All are
/// regions of the input.
#[repr(C)]
#[derive(Clone, Copy, Debug, PartialEq, Eq)]
pub struct BuildTexts {
    /// The description.
    pub description: Region,
    /// The image type, instead of the name of its code.
    pub image_type: Region,
    /// The processor architecture, instead of the name of its code.
    pub arch: Region,
    /// The operating system, instead of the name of its code.
    pub os: Region,
    /// The compression, instead of the name of its code.
    pub compression: Region,
    /// A sum: 1 if there is a description, and 2 if there are the four texts.
    pub given: u32,
}

/// A configuration of a flattened image tree to be built. Its texts are regions of the input, and
/// each range is one of the list of the call.
#[repr(C)]
#[derive(Clone, Copy, Debug, PartialEq, Eq)]
pub struct BuildConfiguration {
    /// The name.
    pub name: Region,
    /// The description, if there is one.
    pub description: Region,
    /// The boards that it is for.
    pub compatible: Range,
    /// The names of the images under `kernel`.
    pub kernel: Range,
    /// The names of the images under `fdt`.
    pub fdt: Range,
    /// The names of the images under `ramdisk`.
    pub ramdisk: Range,
    /// The names of the images under `firmware`.
    pub firmware: Range,
    /// The names of the images under `loadables`.
    pub loadables: Range,
    /// The names of the images under `script`.
    pub script: Range,
    /// 1 if there is a description, and otherwise 0.
    pub given: u32,
}

/// The options of building a flattened image tree. Its texts are regions of the input.
#[repr(C)]
#[derive(Clone, Copy, Debug, PartialEq, Eq)]
pub struct BuildOptions {
    /// The size of this struct in bytes.
    pub size: usize,
    /// The description of the tree.
    pub description: Region,
    /// The name of the default configuration, if there is one.
    pub default_name: Region,
    /// The time of creation, in seconds since 1970.
    pub time: u32,
    /// Where the payloads are.
    pub form: u32,
    /// The greatest length of the file in bytes.
    pub limit: u32,
    /// The greatest depth.
    pub depth: u32,
    /// 1 if there is a default, and otherwise 0.
    pub given: u32,
}

/// The arrays of a call.
#[derive(Clone, Copy)]
struct Arrays<'a> {
    /// The images.
    images: &'a [BuildElement],
    /// What is given of the images besides their codes.
    texts: &'a [BuildTexts],
    /// The configurations.
    configurations: &'a [BuildConfiguration],
    /// The regions of the input that the ranges of the configurations are about.
    lists: &'a [Region],
    /// The numbers of the algorithms.
    algorithms: &'a [u32],
}

/// What the options of a call request.
#[derive(Clone, Copy)]
struct Settings<'a> {
    /// The description and the time.
    head: Head<'a>,
    /// The name of the default configuration, if there is one.
    default: Option<&'a [u8]>,
    /// Where the payloads are.
    form: Form,
    /// The limits.
    limits: Limits,
}

/// What the elements of the arrays of a call give, except the configurations.
#[derive(Drop)]
struct PlanParts<'a> {
    /// The images.
    images: Vec<ImageSpec<'a>>,
    /// The texts of each image, if it has some instead of its codes.
    texts: Vec<Option<ImageTexts<'a>>>,
    /// The description of each image, if it has one.
    descriptions: Vec<Option<&'a [u8]>>,
    /// The texts in the regions of the list.
    lists: Vec<&'a [u8]>,
    /// The algorithms of the hash nodes.
    algorithms: Vec<Algo>,
}

/// Writes a flattened image tree with these images, and with the configurations and the hash nodes
/// that are planned, to a buffer. Returns the status.
#[unsafe(no_mangle)]
pub extern "C" fn bootimg_build_fit_as(
    alloc: Global,
    input: &[u8],
    options: &BuildOptions,
    images: &[BuildElement],
    texts: &[BuildTexts],
    configurations: &[BuildConfiguration],
    lists: &[Region],
    algorithms: &[u32],
    buffer: &mut [u8],
    answer: &mut Answer,
) -> u32
    ensures { let pieces : PlanPieces = record {
      input = input.now;
      options = options.now;
      images = images.now;
      texts = texts.now;
      configurations = configurations.now;
      lists = lists.now;
      algorithms = algorithms.now;
    } in
        FillsBuffer (IsPlannedTree pieces) (IsPlanFailure pieces)
        buffer.old buffer.new answer.new result }
{
    let arrays = Arrays {
        images,
        texts,
        configurations,
        lists,
        algorithms,
    };
    match build_planned(alloc, input, options, arrays) {
        Ok(text) => fill(&text, 0, buffer, answer),
        Err(failure) => fail(failure, answer),
    }
}

/// Returns the flattened image tree that is planned.
///
/// Errors: WrongArgument, if an argument is not valid; those of `build_fit_as`.
fn build_planned(
    alloc: Global,
    input: &[u8],
    options: &BuildOptions,
    arrays: Arrays<'_>,
) -> Result<Vec<u8>, Failure>
    ensures built { let pieces = pieces_of_call input.now options.now arrays.entry in
        IfOk result (λ text. IsPlannedTree pieces text.items 0) }
    ensures failed { IfErr result
        (IsPlanFailure (pieces_of_call input.now options.now arrays.entry)) }
{
    let Some(settings) = settings_of(input, options) else {
        return Err(Failure::WrongArgument(wrong_option(input, options), 0));
    };
    let parts = parts_of(alloc, input, arrays)?;
    let configurations = configurations_of(alloc, input, &parts.lists, arrays.configurations)?;
    let plan = PlanSpec {
        configurations: &configurations,
        default: settings.default,
        algorithms: &parts.algorithms,
        texts: &parts.texts,
        descriptions: &parts.descriptions,
    };
    let Settings {
        head,
        form,
        limits,
        ..
    } = settings;
    match build_fit_as(alloc, head, &parts.images, plan, form, limits) {
        Ok(text) => Ok(text),
        Err(error) => Err(failure_of(error)),
    }
}

/// Returns what these options request. Returns None if they are not valid.
fn settings_of<'a>(input: &'a [u8], options: &BuildOptions) -> Option<Settings<'a>>
    ensures settings { IfSome result (AreSettingsOf input.entry.now options.now) }
    ensures none { IfNone result (¬ (AreOptions input.entry.now options.now)) }
{
    if options.size != OPTIONS_SIZE || options.given > 1 {
        return None;
    }
    Some(Settings {
        head: Head {
            description: piece(input, options.description)?,
            time: options.time,
        },
        default: piece_if(has_bit(1, options.given), input, options.default_name)?,
        form: form_of(options.form)?,
        limits: limits_of(options.limit, options.depth)?,
    })
}

/// Returns the first argument of these options that is wrong, if one is.
fn wrong_option(input: &[u8], options: &BuildOptions) -> Argument
    ensures { ¬ (AreOptions input.now options.now) →
        IsWrong (OptionsCheck input.now options.now) result 0 }
{
    if !are_other_options(input, options) {
        return Argument::Options;
    }
    if limits_of(options.limit, options.depth).is_none() {
        return wrong_limit(options.limit);
    }
    Argument::Form
}

/// Returns whether what these options have besides the limits and the form is valid.
fn are_other_options(input: &[u8], options: &BuildOptions) -> bool
    ensures { IsTrue result ↔ AreOtherOptions input.now options.now }
{
    options.size == OPTIONS_SIZE
        && options.given < 2
        && is_inside(input, options.description)
        && is_inside(input, options.default_name)
}

/// Returns what the elements of these arrays give, except the configurations.
///
/// Errors: WrongArgument, if an element is not valid; OutOfMemory.
fn parts_of<'a>(
    alloc: Global,
    input: &'a [u8],
    arrays: Arrays<'_>,
) -> Result<PlanParts<'a>, Failure>
    ensures parts { IfOk result (ArePlanParts input.entry.now arrays.entry) }
    ensures failed { IfErr result (λ failure. (options : OptionsModel) →
        AreOptions input.entry.now options →
        IsPlanFailure (pieces_of_call input.entry.now options arrays.entry) failure) }
{
    Ok(PlanParts {
        images: specs_of(alloc, input, arrays.images)?,
        texts: texts_of(alloc, input, arrays.texts)?,
        descriptions: descriptions_of(alloc, input, arrays.texts)?,
        lists: pieces(alloc, input, arrays.lists, Argument::Lists)?,
        algorithms: algorithms_of(alloc, arrays.algorithms)?,
    })
}

/// Returns the texts that each of these elements has instead of codes, if it has some.
///
/// Errors: WrongArgument, if an element is not valid; OutOfMemory.
fn texts_of<'a>(
    alloc: Global,
    input: &'a [u8],
    elements: &[BuildTexts],
) -> Result<Vec<Option<ImageTexts<'a>>>, Failure>
    ensures inside { IfOk result (λ texts.
        AllByRecursion (AreTextsInside input.entry.now) elements.now) }
    ensures texts { IfOk result (λ texts.
        texts_models texts.items ≡ map (texts_if_given input.entry.now) elements.now) }
    ensures failed { IfErr result
        (IsElementFailure Texts (AreTextsInside input.entry.now) elements.now) }
{
    let mut texts = Vec::new(alloc);
    for element in elements {
        let Some(given) = texts_if(input, *element) else {
            return Err(Failure::WrongArgument(Argument::Texts, texts.len()));
        };
        match texts.push(given) {
            Ok(()) => {}
            Err(_) => return Err(Failure::OutOfMemory),
        }
    }
    Ok(texts)
}

/// Returns the texts that an element has instead of codes, if it has some. Returns None if the
/// element is not valid.
fn texts_if<'a>(input: &'a [u8], element: BuildTexts) -> Option<Option<ImageTexts<'a>>>
    ensures inside { IfSome result (λ texts. AreTextsInside input.entry.now element) }
    ensures texts { IfSome result (λ texts.
        option_map image_texts_model texts ≡ texts_if_given input.entry.now element) }
    ensures none { IfNone result (¬ (AreTextsInside input.entry.now element)) }
{
    if element.given > 3 {
        return None;
    }
    piece(input, element.description)?;
    let texts = ImageTexts {
        image_type: piece(input, element.image_type)?,
        arch: piece(input, element.arch)?,
        os: piece(input, element.os)?,
        compression: piece(input, element.compression)?,
    };
    if has_bit(2, element.given) {
        Some(Some(texts))
    } else {
        Some(None)
    }
}

/// Returns the description that each of these elements has, if it has one.
///
/// Errors: WrongArgument, if an element is not valid; OutOfMemory.
fn descriptions_of<'a>(
    alloc: Global,
    input: &'a [u8],
    elements: &[BuildTexts],
) -> Result<Vec<Option<&'a [u8]>>, Failure>
    ensures descriptions { IfOk result (λ descriptions. descriptions_models descriptions.items
        ≡ map (description_if_given input.entry.now) elements.now) }
    ensures failed { IfErr result (λ failure.
        AllByRecursion (AreTextsInside input.entry.now) elements.now → failure ≡ OutOfMemory) }
{
    let mut descriptions = Vec::new(alloc);
    for element in elements {
        let Some(given) = piece_if(has_bit(1, element.given), input, element.description) else {
            return Err(Failure::WrongArgument(Argument::Texts, descriptions.len()));
        };
        match descriptions.push(given) {
            Ok(()) => {}
            Err(_) => return Err(Failure::OutOfMemory),
        }
    }
    Ok(descriptions)
}

/// Returns the bytes of a region of an input, if something is given. Returns None if the region is
/// not inside the input.
fn piece_if<'a>(is_given: bool, input: &'a [u8], region: Region) -> Option<Option<&'a [u8]>>
    ensures inside { IfSome result (λ given. IsPieceInside input.entry.now region) }
    ensures given { IfSome result (λ given. option_map (λ bytes. bytes.now) given
        ≡ piece_if_given is_given input.entry.now region) }
    ensures none { IfNone result (¬ (IsPieceInside input.entry.now region)) }
{
    let bytes = piece(input, region)?;
    if is_given {
        Some(Some(bytes))
    } else {
        Some(None)
    }
}

/// Returns these configurations. The pieces are the bytes of the regions of the list.
///
/// Errors: WrongArgument, if a configuration is not valid; OutOfMemory.
fn configurations_of<'r>(
    alloc: Global,
    input: &'r [u8],
    pieces: &'r [&'r [u8]],
    elements: &[BuildConfiguration],
) -> Result<Vec<ConfigurationSpec<'r>>, Failure>
    ensures configurations { IfOk result (λ configurations. (lists : List RegionModel) →
        bytes_of pieces.entry.now ≡ map (bytes_of_piece input.entry.now) lists →
        AreConfigurationsOf input.entry.now lists elements.now configurations.items) }
    ensures failed { IfErr result (λ failure. (lists : List RegionModel) →
        bytes_of pieces.entry.now ≡ map (bytes_of_piece input.entry.now) lists →
        IsElementFailure Configurations (IsConfigurationInside input.entry.now lists) elements.now
        failure) }
{
    let mut configurations = Vec::new(alloc);
    for element in elements {
        let Some(configuration) = configuration_of(input, pieces, element) else {
            return Err(Failure::WrongArgument(Argument::Configurations, configurations.len()));
        };
        match configurations.push(configuration) {
            Ok(()) => {}
            Err(_) => return Err(Failure::OutOfMemory),
        }
    }
    Ok(configurations)
}

/// Returns a configuration. The pieces are the bytes of the regions of the list. Returns None if a
/// region or a range of the configuration is outside, or `given` is not a flag.
fn configuration_of<'r>(
    input: &'r [u8],
    pieces: &'r [&'r [u8]],
    element: &BuildConfiguration,
) -> Option<ConfigurationSpec<'r>>
    ensures configuration { IfSome result (λ configuration. (lists : List RegionModel) →
        bytes_of pieces.entry.now ≡ map (bytes_of_piece input.entry.now) lists →
        IsConfigurationOf input.entry.now lists element.now configuration) }
    ensures none { IfNone result ((lists : List RegionModel) →
        bytes_of pieces.entry.now ≡ map (bytes_of_piece input.entry.now) lists →
        ¬ (IsConfigurationInside input.entry.now lists element.now)) }
{
    if element.given > 1 {
        return None;
    }
    Some(ConfigurationSpec {
        name: piece(input, element.name)?,
        description: piece_if(has_bit(1, element.given), input, element.description)?,
        compatible: part(pieces, element.compatible)?,
        kernel: part(pieces, element.kernel)?,
        fdt: part(pieces, element.fdt)?,
        ramdisk: part(pieces, element.ramdisk)?,
        firmware: part(pieces, element.firmware)?,
        loadables: part(pieces, element.loadables)?,
        script: part(pieces, element.script)?,
    })
}

/// Returns the pieces in a range. Returns None if the range ends after the last piece.
fn part<'r>(pieces: &'r [&'r [u8]], range: Range) -> Option<&'r [&'r [u8]]>
    ensures inside { IfSome result (λ listed.
        range.first + range.count ≤ length pieces.entry.now) }
    ensures listed { IfSome result (λ listed.
        listed.now ≡ take range.count (drop range.first pieces.entry.now)) }
    ensures none { IfNone result (¬ (range.first + range.count ≤ length pieces.entry.now)) }
{
    if range.first > pieces.len() {
        return None;
    }
    let rest = &pieces[range.first..];
    if range.count > rest.len() {
        return None;
    }
    Some(&rest[..range.count])
}

/// Returns the algorithms with these numbers.
///
/// Errors: WrongArgument, if there is no algorithm with a number; OutOfMemory.
fn algorithms_of(alloc: Global, numbers: &[u32]) -> Result<Vec<Algo>, Failure>
    ensures inside { IfOk result (λ algorithms. AllByRecursion (λ number. number < 6) numbers.now) }
    ensures algorithms { IfOk result (λ algorithms.
        algorithms.items ≡ map algorithm_with numbers.now) }
    ensures failed { IfErr result
        (IsElementFailure Algorithms (λ number. number < 6) numbers.now) }
{
    let mut algorithms = Vec::new(alloc);
    for number in numbers {
        let Some(algorithm) = algorithm_of(*number) else {
            return Err(Failure::WrongArgument(Argument::Algorithms, algorithms.len()));
        };
        match algorithms.push(algorithm) {
            Ok(()) => {}
            Err(_) => return Err(Failure::OutOfMemory),
        }
    }
    Ok(algorithms)
}

/// Returns the algorithm with this number, if there is one.
fn algorithm_of(number: u32) -> Option<Algo>
    ensures in_range { IsSome result ↔ number < 6 }
    ensures value { IfSome result (λ algorithm. algorithm ≡ algorithm_with number) }
{
    match number {
        0 => Some(Algo::Crc32),
        1 => Some(Algo::Md5),
        2 => Some(Algo::Sha1),
        3 => Some(Algo::Sha256),
        4 => Some(Algo::Sha384),
        5 => Some(Algo::Sha512),
        _ => None,
    }
}

//! The description of a boot image: a text that depends on its meaning alone.

ghost use Rattle.std.specs.Prelude.{◌≡◌, ◌<◌, ◌≤◌, ⊤, IfOk, OnOk, IfErr, IsAscii, length};
ghost use Rattle.std.specs.Prelude.{string_bytes};
ghost use Rattle.bi_base.specs.Commands.{Appended, AppendFailed};
ghost use Rattle.bi_base.specs.Pipes.{IsPiped};
ghost use Rattle.bi_base.specs.Reading.{too_large};
ghost use Rattle.bi_norm.specs.Meaning.{Meaning};
ghost use Rattle.bi_norm.specs.Reading.{meaning_of};
ghost use Rattle.bi_common.specs.declared.format.Format.TheVariants.{Lines, Json};
ghost use Rattle.bi_common.specs.HeldImages.{IsHeldImage};
ghost use Rattle.bi_common.specs.LineTokens.{tokens_of_lines};
ghost use Rattle.bi_common.specs.PayloadBounds.{IsOverPayloadBound};
ghost use Rattle.bi_describe.specs.DeepDescribing.{IsDeepDescribeError, IsDeepDescription};
ghost use Rattle.bi_describe.specs.DeepDescribing.{IsDeepImageError, IsDeepTextOf, deep_laws};
ghost use Rattle.bi_describe.specs.DeepDescribing.{deep_promise, deep_text};
ghost use Rattle.bi_describe.specs.Devicetrees.{AreInside, DeepMeaning, Insides as Trees};
ghost use Rattle.bi_describe.specs.MadeInsides.{HoldsDeep, IsDeepOf};
ghost use Rattle.bi_describe.specs.ReadDeep.{IsReadDeep};
ghost use Rattle.bi_describe.specs.DescribedImages.{IsDescribed, IsDescriptionOf};
ghost use Rattle.bi_describe.specs.DescribedImages.{described_lines, described_tokens};
ghost use Rattle.bi_describe.specs.Describing.{CanBeDescribed, IsImageError, description_text};
ghost use Rattle.bi_describe.specs.Describing.{IsDescription, IsDescribeError};
ghost use Rattle.bi_describe.specs.Describing.{describe_promise, describe_laws};

mod bounded_pen;
pub(crate) mod deep;
pub(crate) mod deep_pen;
mod digests;
mod entries;
mod fit;
mod image_nodes;
mod image_payload;
pub(crate) mod inside;
pub(crate) mod insides;
mod json;
pub(crate) mod kept;
mod legacy;
mod lines;
mod nodes;
mod part;
mod properties;

use bi_base::{Command, Error, Fault, Limits, MemoryPen, Pen, Sink, SinkPen, are_bytes, pipe_to};
use bi_common::format::Format;
use bi_common::json_writer::{JsonPen, JsonWriter};
use bi_common::lines::{LinePen, LineWriter};
use bi_norm::BootImage;
use bounded_pen::BoundedPen;
use deep::DeepImage;
use fit::DescribedFit;
use insides::Insides;
use legacy::DescribedLegacy;
use std::alloc::Global;
use std::io::{Read, Write};

/// Returns the description of what a boot image means.
///
/// Errors, the first that applies: those of `BootImage::read`; TooLarge at the limit, if the
/// payloads of a flattened image tree together are longer than that, each counted for each image
/// that has it, or if the description is. OutOfMemory may come instead of any of these, but only
/// after the checks of a legacy image, or of the header and the memory reservation block of a blob.
/// No payload is hashed before the lengths of the payloads are checked: this is tested, and in no
/// clause.
///
/// # Example
///
/// ```
/// use bi_base::Limits;
/// use bi_commands::describe::describe;
///
/// let limits = Limits::new(0x7fff_ffff, 64).unwrap();
/// let text = describe(rt.alloc(), board, limits)?;
/// assert!(rt; text.as_str().starts_with("kind fit\nboot-cpu 0\nnode /\n"));
/// ```
pub fn describe(alloc: Global, file: &[u8], limits: Limits) -> Result<String, Error>
    ensures described { IfOk result (λ text. IsDescription Lines limits file.now
        (string_bytes text)) }
    ensures failed { IfErr result (IsDescribeError Lines limits file.now) }
{
    describe_as(alloc, file, limits, Format::Lines)
}

/// Returns the description of what a boot image means, as one text of JSON and a newline. It says
/// what the lines of `describe` say. The errors are those of `describe`, but the limit on the
/// description is on the JSON and its newline.
pub fn describe_json(alloc: Global, file: &[u8], limits: Limits) -> Result<String, Error>
    ensures described { IfOk result (λ text. IsDescription Json limits file.now
        (string_bytes text)) }
    ensures failed { IfErr result (IsDescribeError Json limits file.now) }
{
    describe_as(alloc, file, limits, Format::Json)
}

/// Returns the description of what a boot image means, in a form.
fn describe_as(alloc: Global, file: &[u8], limits: Limits, format: Format) -> Result<String, Error>
    ensures described { IfOk result (λ text. IsDescription format limits file.now
        (string_bytes text)) }
    ensures failed { IfErr result (IsDescribeError format limits file.now) }
{
    let image = BootImage::read(alloc, file, limits)?;
    text_of_image(alloc, &image, limits, format)
}

/// Returns the description of a boot image, in a form. Requires: the image was read.
fn text_of_image(
    alloc: Global,
    image: &BootImage,
    limits: Limits,
    format: Format,
) -> Result<String, Error>
    requires held { IsHeldImage image.now }
    ensures within { OnOk result (CanBeDescribed format limits (meaning_of image.now)) }
    ensures described { IfOk result (λ text. string_bytes text
        ≡ description_text format (meaning_of image.now)) }
    ensures failed { IfErr result (IsImageError format limits (meaning_of image.now)) }
{
    let mut described = describe_image(alloc, image, limits, format)?;
    let mut pen = MemoryPen::new(alloc);
    described.put(format, &mut pen);
    description_is_ascii(image, format);
    match String::from_utf8(pen.into_vec()?) {
        Ok(text) => Ok(text),
        Err(_) => unreachable!(),
    }
}

/// Describing, as a command: `describe`, or `describe_json`.
#[derive(Clone, Copy, Debug, PartialEq, Eq)]
pub struct Describer {
    /// The form of the description.
    pub format: Format,
}

impl Command for Describer {
    type Value = ();

    type Failure = Error;

    ghost can_run = { λ _. ⊤ };

    ghost promise = { λ describer. describe_promise describer.format };

    /// Appends the description piece by piece. Each refusal and each allocation comes before the
    /// first byte.
    fn run<S: Sink>(
        &self,
        alloc: Global,
        input: &[u8],
        limits: Limits,
        sink: &mut S,
    ) -> Result<(), Error> {
        let image = BootImage::read(alloc, input, limits)?;
        describe_into(alloc, &image, limits, self.format, sink)?;
        Ok(())
    }

    ghost wraps_from = { λ _ _ _ _ same. same };

    ghost laws = { λ describer. describe_laws describer.format };
}

/// Reads a boot image to its end, writes its description, and flushes: `pipe_to` with a
/// `Describer`.
///
/// The errors are those of `pipe_to`, and of the file those of `describe`.
pub fn describe_to<R: Read, W: Write>(
    alloc: Global,
    reader: &mut R,
    writer: &mut W,
    limits: Limits,
) -> Result<(), Error>
    ensures { IsPiped (describe_promise Lines limits) limits (R.remaining reader.old)
        (R.remaining reader.new) (W.contents writer.old) (W.contents writer.new) result }
{
    let describer = Describer {
        format: Format::Lines,
    };
    pipe_to(alloc, &describer, reader, writer, limits)
}

/// Reads a boot image to its end, writes its description as one text of JSON and a newline, and
/// flushes.
///
/// The errors are those of `pipe_to`, and of the file those of `describe_json`.
pub fn describe_json_to<R: Read, W: Write>(
    alloc: Global,
    reader: &mut R,
    writer: &mut W,
    limits: Limits,
) -> Result<(), Error>
    ensures { IsPiped (describe_promise Json limits) limits (R.remaining reader.old)
        (R.remaining reader.new) (W.contents writer.old) (W.contents writer.new) result }
{
    let describer = Describer {
        format: Format::Json,
    };
    pipe_to(alloc, &describer, reader, writer, limits)
}

/// What the description of a boot image is made from.
#[derive(Drop)]
pub(crate) enum DescribedImage<'a, 'b> {
    /// Of a legacy image.
    Legacy(DescribedLegacy<'a>),
    /// Of a flattened image tree.
    Fit(DescribedFit<'a, 'b>),
}

impl<'a, 'b> DescribedImage<'a, 'b> {
    /// Returns what the description of a boot image is made from. Requires: the image was read.
    ///
    /// Errors: TooLarge at the limit, if the payloads are longer, or if the description is, which
    /// need not be found here; OutOfMemory.
    fn new(
        alloc: Global,
        image: &'b BootImage<'a>,
        limits: Limits,
    ) -> Result<DescribedImage<'a, 'b>, Error>
        requires held { IsHeldImage image.now }
        ensures within { OnOk result (¬ (IsOverPayloadBound limits (meaning_of image.now))) }
        ensures described { IfOk result (IsDescribed (meaning_of image.entry.now)) }
        ensures failed { IfErr result (λ error. (format : Format)
            → IsImageError format limits (meaning_of image.now) error) }
        ensures deep_failed { IfErr result (λ error. (format : Format) (insides : Trees)
            → AreInside limits (meaning_of image.now) insides
            → IsDeepImageError format limits (meaning_of image.now) error) }
    {
        match image {
            BootImage::Legacy(image) => {
                Ok(DescribedImage::Legacy(DescribedLegacy::new(alloc, image)?))
            }
            BootImage::Fit(fit) => {
                Ok(DescribedImage::Fit(DescribedFit::new(alloc, fit, limits)?))
            }
        }
    }

    /// Puts the lines of the description.
    pub(crate) fn put_lines<L: LinePen>(&mut self, pen: &mut L)
        ensures put { L.puts pen.old (tokens_of_lines (described_lines self.old)) pen.new }
        ensures same { (meaning : Meaning) → IsDescribed meaning self.old
            → IsDescribed meaning self.new }
    {
        match self {
            DescribedImage::Legacy(image) => image.put_lines(pen),
            DescribedImage::Fit(fit) => fit.put_lines(pen),
        }
    }

    /// Puts the object of the description.
    fn put_object<J: JsonPen>(&self, json: &mut J)
        ensures { J.puts json.old (described_tokens self.now) json.new }
    {
        match self {
            DescribedImage::Legacy(image) => image.put_object(json),
            DescribedImage::Fit(fit) => fit.put_object(json),
        }
    }

    /// Puts the description, in a form.
    fn put<P: Pen>(&mut self, format: Format, pen: &mut P)
        ensures put { (meaning : Meaning) → IsDescribed meaning self.old
            → P.puts pen.old (description_text format meaning) pen.new }
        ensures same { (meaning : Meaning) → IsDescribed meaning self.old
            → IsDescribed meaning self.new }
    {
        match format {
            Format::Lines => self.put_lines(&mut LineWriter::new(pen)),
            Format::Json => {
                self.put_object(&mut JsonWriter::new(pen));
                pen.put(b"\n");
            }
        }
    }
}

/// Returns what the description of a boot image is made from, which is no longer than the limit in
/// a form. Requires: the image was read.
///
/// Errors: TooLarge at the limit, if the payloads or the description are longer; OutOfMemory.
pub(crate) fn describe_image<'a, 'b>(
    alloc: Global,
    image: &'b BootImage<'a>,
    limits: Limits,
    format: Format,
) -> Result<DescribedImage<'a, 'b>, Error>
    requires held { IsHeldImage image.now }
    ensures within { OnOk result (CanBeDescribed format limits (meaning_of image.now)) }
    ensures described { IfOk result (IsDescribed (meaning_of image.entry.now)) }
    ensures failed { IfErr result (IsImageError format limits (meaning_of image.now)) }
{
    let mut described = DescribedImage::new(alloc, image, limits)?;
    let mut room = BoundedPen::new(limits.file());
    described.put(format, &mut room);
    room.check(limits.file())?;
    Ok(described)
}

/// Does nothing. Its contract states that the description of an image is ASCII, in each form.
/// Requires: the image was read.
pub(crate) fn description_is_ascii(image: &BootImage, format: Format)
    requires held { IsHeldImage image.now }
    ensures { IsAscii (description_text format (meaning_of image.now)) }
{
    if let BootImage::Legacy(image) = image {
        are_bytes(image.fields().name);
    }
}

/// Appends the description of what a boot image means, in a form. Each refusal and each allocation
/// comes before the first byte. Requires: the image was read.
fn describe_into<S: Sink>(
    alloc: Global,
    image: &BootImage,
    limits: Limits,
    format: Format,
    sink: &mut S,
) -> Result<(), Error>
    requires held { IsHeldImage image.now }
    ensures appended { OnOk result (Appended S.appends
        (IsDescriptionOf format limits (meaning_of image.now)) sink.old sink.new) }
    ensures failed { IfErr result (AppendFailed S.fails
        (IsDescriptionOf format limits (meaning_of image.now))
        (IsImageError format limits (meaning_of image.now)) sink.old sink.new) }
{
    let mut described = describe_image(alloc, image, limits, format)?;
    let mut pen = SinkPen::new(sink);
    described.put(format, &mut pen);
    pen.result()
}

// ---- deep descriptions

/// Returns the deep description of what a boot image means, in a form: its description, and after
/// the line of each payload or part that is a devicetree the lines of that. A payload is a
/// devicetree if `Blob::read` accepts it within the limits, and its root has no child `images`. In
/// JSON the payload has a member `devicetree`.
///
/// The errors are those of `describe`, but the limit on the description is on the deep one.
pub fn describe_deep(
    alloc: Global,
    file: &[u8],
    limits: Limits,
    format: Format,
) -> Result<String, Error>
    ensures described { IfOk result (λ text. IsDeepDescription format limits file.now
        (string_bytes text)) }
    ensures failed { IfErr result (IsDeepDescribeError format limits file.now) }
{
    let image = BootImage::read(alloc, file, limits)?;
    deep_text_of_image(alloc, &image, limits, format)
}

/// Returns the deep description of a boot image, in a form. Requires: the image was read.
fn deep_text_of_image(
    alloc: Global,
    image: &BootImage,
    limits: Limits,
    format: Format,
) -> Result<String, Error>
    requires held { IsHeldImage image.now }
    ensures described { IfOk result (λ text. IsDeepTextOf format limits (meaning_of image.now)
        (string_bytes text)) }
    ensures failed { IfErr result (IsDeepImageError format limits (meaning_of image.now)) }
{
    let mut deep = deep_image(alloc, image, limits, format)?;
    let mut pen = MemoryPen::new(alloc);
    deep.put(format, &mut pen);
    deep_is_ascii(image, limits, format);
    match String::from_utf8(pen.into_vec()?) {
        Ok(text) => Ok(text),
        Err(_) => unreachable!(),
    }
}

/// Does nothing. Its contract states that the deep description of an image is ASCII, in each form.
/// Requires: the image was read.
pub(crate) fn deep_is_ascii(image: &BootImage, limits: Limits, format: Format)
    requires held { IsHeldImage image.now }
    ensures { (insides : Trees) → AreInside limits (meaning_of image.now) insides → IsAscii
        (deep_text format (record { meaning = meaning_of image.now; insides = insides })) }
{
    if let BootImage::Legacy(image) = image {
        are_bytes(image.fields().name);
    }
}

/// Describing with what is inside the payloads, as a command: `describe_deep`.
#[derive(Clone, Copy, Debug, PartialEq, Eq)]
pub struct DeepDescriber {
    /// The form of the description.
    pub format: Format,
}

impl Command for DeepDescriber {
    type Value = ();

    type Failure = Error;

    ghost can_run = { λ _. ⊤ };

    ghost promise = { λ describer. deep_promise describer.format };

    /// Appends the deep description piece by piece. Each refusal and each allocation comes before
    /// the first byte.
    fn run<S: Sink>(
        &self,
        alloc: Global,
        input: &[u8],
        limits: Limits,
        sink: &mut S,
    ) -> Result<(), Error> {
        let image = BootImage::read(alloc, input, limits)?;
        describe_deep_into(alloc, &image, limits, self.format, sink)?;
        Ok(())
    }

    ghost wraps_from = { λ _ _ _ _ same. same };

    ghost laws = { λ describer. deep_laws describer.format };
}

/// Appends the deep description of what a boot image means, in a form. Each refusal and each
/// allocation comes before the first byte. Requires: the image was read.
fn describe_deep_into<S: Sink>(
    alloc: Global,
    image: &BootImage,
    limits: Limits,
    format: Format,
    sink: &mut S,
) -> Result<(), Error>
    requires held { IsHeldImage image.now }
    ensures appended { OnOk result (Appended S.appends
        (IsDeepTextOf format limits (meaning_of image.now)) sink.old sink.new) }
    ensures failed { IfErr result (AppendFailed S.fails
        (IsDeepTextOf format limits (meaning_of image.now))
        (IsDeepImageError format limits (meaning_of image.now)) sink.old sink.new) }
{
    let mut deep = deep_image(alloc, image, limits, format)?;
    let mut pen = SinkPen::new(sink);
    deep.put(format, &mut pen);
    pen.result()
}

/// Reads a boot image to its end, writes its deep description in a form, and flushes: `pipe_to`
/// with a `DeepDescriber`.
///
/// The errors are those of `pipe_to`, and of the file those of `describe_deep`.
pub fn describe_deep_to<R: Read, W: Write>(
    alloc: Global,
    reader: &mut R,
    writer: &mut W,
    limits: Limits,
    format: Format,
) -> Result<(), Error>
    ensures { IsPiped (deep_promise format limits) limits (R.remaining reader.old)
        (R.remaining reader.new) (W.contents writer.old) (W.contents writer.new) result }
{
    pipe_to(alloc, &DeepDescriber { format }, reader, writer, limits)
}

/// Returns what the deep description of a boot image is made from, which is no longer than the
/// limit in a form. Requires: the image was read.
///
/// Errors: TooLarge at the limit, if the payloads or the deep description are longer; OutOfMemory.
pub(crate) fn deep_image<'a, 'b>(
    alloc: Global,
    image: &'b BootImage<'a>,
    limits: Limits,
    format: Format,
) -> Result<DeepImage<'a, 'b>, Error>
    requires held { IsHeldImage image.now }
    ensures described { IfOk result (IsDeepOf format limits (meaning_of image.entry.now)) }
    ensures failed { IfErr result (IsDeepImageError format limits (meaning_of image.now)) }
{
    let mut deep = read_deep(alloc, image, limits)?;
    check_deep_length(&mut deep, limits, format)?;
    Ok(deep)
}

/// Returns what the deep description of a boot image is made from. Requires: the image was read.
///
/// Errors: TooLarge at the limit, if the payloads are longer, or if the deep description is, which
/// need not be found here; OutOfMemory.
pub(crate) fn read_deep<'a, 'b>(
    alloc: Global,
    image: &'b BootImage<'a>,
    limits: Limits,
) -> Result<DeepImage<'a, 'b>, Error>
    requires held { IsHeldImage image.now }
    ensures read { IfOk result (IsReadDeep limits (meaning_of image.entry.now)) }
    ensures failed { IfErr result (λ error. (format : Format)
        → IsDeepImageError format limits (meaning_of image.now) error) }
{
    let insides = Insides::read(alloc, image, limits)?;
    let described = DescribedImage::new(alloc, image, limits)?;
    Ok(DeepImage { described, insides })
}

/// Checks that a deep description is no longer than the limit, in a form. Keeps nothing of it.
///
/// Error: TooLarge at the limit, if it is longer.
pub(crate) fn check_deep_length(
    deep: &mut DeepImage,
    limits: Limits,
    format: Format,
) -> Result<(), Fault>
    ensures within { OnOk result ((meaning : DeepMeaning) → HoldsDeep meaning deep.old
        → length (deep_text format meaning) ≤ limits.file) }
    ensures fault { IfErr result (λ fault. (fault ≡ too_large limits.file)
        × ((meaning : DeepMeaning) → HoldsDeep meaning deep.old
        → limits.file < length (deep_text format meaning))) }
    ensures same { (meaning : DeepMeaning) → HoldsDeep meaning deep.old
        → HoldsDeep meaning deep.new }
{
    let mut counted = BoundedPen::new(limits.file());
    deep.put(format, &mut counted);
    counted.check(limits.file())
}

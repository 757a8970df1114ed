//! Extracting a part or a payload of a boot image.

ghost use Rattle.std.specs.Prelude.{◌≡◌, ◌⊎◌, ⊤, IfOk, IfErr};
ghost use Rattle.bi_base.specs.declared.fault.Error.TheVariants.{OutOfMemory};
ghost use Rattle.bi_base.specs.Pipes.{IsPiped};
ghost use Rattle.bi_fit.specs.Content.{IsHeld, tree_of};
ghost use Rattle.bi_norm.specs.Meaning.{OfLegacy, OfFit};
ghost use Rattle.bi_commands.specs.declared.extract.ExtractError.TheVariants.{Failed};
ghost use Rattle.bi_commands.specs.Extracting.{Chosen, IsReason, choice_of, choice_by_name};
ghost use Rattle.bi_commands.specs.Extracting.{choice_by_configuration, choice_by_default};
ghost use Rattle.bi_commands.specs.Extracting.{error_of_listing};
ghost use Rattle.bi_commands.specs.Extracting.{IsChosen, IsExtractError};
ghost use Rattle.bi_commands.specs.Extracting.{extract_promise, extract_laws};

use bi_base::{Command, Error, Limits, Sink, pipe_to};
use bi_fit::{ConfigError, Fit, Key};
use bi_legacy::Legacy;
use bi_norm::BootImage;
use std::alloc::Global;
use std::io::{Read, Write};

/// What is to be extracted from a boot image.
#[derive(Clone, Copy, Debug, PartialEq, Eq)]
pub enum Select<'a> {
    /// The part of this index, counted from 0, of a legacy image.
    Part(u32),
    /// The payload of the image of this name of a flattened image tree.
    Image(&'a [u8]),
    /// A payload that a configuration of a flattened image tree lists: by the name of the
    /// configuration, the key, and the index, counted from 0, in what it lists under the key.
    Config(&'a [u8], Key, u32),
    /// A payload that the default configuration lists: by the key, and the index, counted from 0,
    /// in what it lists under the key.
    Default(Key, u32),
}

/// Why nothing, or not all, was extracted.
#[derive(Clone, Copy, Debug, PartialEq, Eq, thiserror::Error)]
pub enum ExtractError {
    /// The file is refused, memory ran out, or reading or writing failed.
    #[error("failed")]
    Failed(Error),
    /// The selection does not fit this kind of image.
    #[error("the selection does not fit this kind of image")]
    WrongKind,
    /// The legacy image has no part of this index.
    #[error("no such part")]
    NoPart,
    /// The flattened image tree has no image of this name.
    #[error("no such image")]
    NoImage,
    /// The configuration lists no images under the key, for this reason. Running out of memory is
    /// Failed instead.
    #[error("no list of images")]
    Config(ConfigError),
    /// The configuration lists no image at this index under the key.
    #[error("no such entry")]
    NoIndex,
    /// The image has no payload, not even an empty one.
    #[error("no payload")]
    NoPayload,
}

impl From<Error> for ExtractError {
    ghost from_gives = { λ error extract_error. extract_error ≡ Failed error };

    fn from(error: Error) -> ExtractError {
        ExtractError::Failed(error)
    }
}

impl From<ConfigError> for ExtractError {
    ghost from_gives = { λ error extract_error. extract_error ≡ error_of_listing error };

    fn from(error: ConfigError) -> ExtractError {
        match error {
            ConfigError::OutOfMemory => ExtractError::Failed(Error::OutOfMemory),
            error => ExtractError::Config(error),
        }
    }
}

/// Returns the bytes of a boot image that are selected: a slice of the file. No hash of them is
/// checked.
///
/// Errors, the first that applies: Failed with the error of `BootImage::read`; WrongKind, if a part
/// is selected of a flattened image tree, or anything else of a legacy image; NoPart; NoImage;
/// Config with NoConfig, NoKey, BadList or Missing; NoIndex; NoPayload. NoConfig also comes if the
/// default configuration is selected and there is no default. Failed with OutOfMemory occurs only
/// for a legacy image, or for a file whose header and memory reservation block, as those of a blob,
/// have no fault.
///
/// # Example
///
/// ```
/// use bi_base::Limits;
/// use bi_commands::extract::{ExtractError, Select, extract};
///
/// let limits = Limits::new(0x7fff_ffff, 64).unwrap();
/// let payload = extract(rt.alloc(), board, Select::Image(b"fdt-1"), limits)?;
/// assert_eq!(rt; payload.len(), 106);
/// let other = extract(rt.alloc(), board, Select::Image(b"fdt-2"), limits);
/// assert!(rt; other == Err(ExtractError::NoImage));
/// ```
pub fn extract<'a>(
    alloc: Global,
    file: &'a [u8],
    select: Select,
    limits: Limits,
) -> Result<&'a [u8], ExtractError>
    ensures chosen { IfOk result (λ bytes. IsChosen select.entry limits file.entry.now bytes.now) }
    ensures failed { IfErr result (IsExtractError select.entry limits file.entry.now) }
{
    match BootImage::read(alloc, file, limits)? {
        BootImage::Legacy(image) => select_part(&image, select),
        BootImage::Fit(fit) => select_payload(alloc, &fit, select),
    }
}

/// Returns the part of a legacy image that is selected.
fn select_part<'a>(image: &Legacy<'a>, select: Select) -> Result<&'a [u8], ExtractError>
    ensures chosen { IfOk result (λ bytes. choice_of select.entry (OfLegacy image.now.image)
        ≡ Chosen bytes.now) }
    ensures failed { IfErr result (λ error. IsReason error
        (choice_of select.entry (OfLegacy image.now.image))) }
{
    match select {
        Select::Part(index) => image.part(index as usize).ok_or(ExtractError::NoPart),
        Select::Image(_) | Select::Config(..) | Select::Default(..) => Err(ExtractError::WrongKind),
    }
}

/// Returns the payload of a flattened image tree that is selected. Requires: the tree was read.
fn select_payload<'a>(
    alloc: Global,
    fit: &Fit<'a>,
    select: Select,
) -> Result<&'a [u8], ExtractError>
    requires held { IsHeld fit.now }
    ensures chosen { IfOk result (λ bytes. choice_of select.entry (OfFit (tree_of fit.now))
        ≡ Chosen bytes.now) }
    ensures failed { IfErr result (λ error.
        IsReason error (choice_of select.entry (OfFit (tree_of fit.now)))
        ⊎ (error ≡ Failed OutOfMemory)) }
{
    match select {
        Select::Part(_) => Err(ExtractError::WrongKind),
        Select::Image(name) => payload_by_name(fit, name),
        Select::Config(name, key, index) => payload_by_configuration(alloc, fit, name, key, index),
        Select::Default(key, index) => payload_by_default(alloc, fit, key, index),
    }
}

/// Returns the payload of the image of this name. Requires: the tree was read.
fn payload_by_name<'a>(fit: &Fit<'a>, name: &[u8]) -> Result<&'a [u8], ExtractError>
    requires held { IsHeld fit.now }
    ensures chosen { IfOk result (λ bytes. choice_by_name (tree_of fit.now) name.now
        ≡ Chosen bytes.now) }
    ensures failed { IfErr result (λ error. IsReason error
        (choice_by_name (tree_of fit.now) name.now)) }
{
    let Some(index) = fit.image(name) else {
        return Err(ExtractError::NoImage);
    };
    fit.payload(index).ok_or(ExtractError::NoPayload)
}

/// Returns the payload at this index of what the configuration of this name lists under a key.
fn payload_by_configuration<'a>(
    alloc: Global,
    fit: &Fit<'a>,
    name: &[u8],
    key: Key,
    index: u32,
) -> Result<&'a [u8], ExtractError>
    ensures chosen { IfOk result (λ bytes.
        choice_by_configuration (tree_of fit.now) name.now key index ≡ Chosen bytes.now) }
    ensures failed { IfErr result (λ error.
        IsReason error (choice_by_configuration (tree_of fit.now) name.now key index)
        ⊎ (error ≡ Failed OutOfMemory)) }
{
    let listed = fit.config_payloads(alloc, name, key)?;
    let named = listed.get(index as usize).ok_or(ExtractError::NoIndex)?;
    named.payload.ok_or(ExtractError::NoPayload)
}

/// Returns the payload at this index of what the default configuration lists under a key.
fn payload_by_default<'a>(
    alloc: Global,
    fit: &Fit<'a>,
    key: Key,
    index: u32,
) -> Result<&'a [u8], ExtractError>
    ensures chosen { IfOk result (λ bytes. choice_by_default (tree_of fit.now) key index
        ≡ Chosen bytes.now) }
    ensures failed { IfErr result (λ error.
        IsReason error (choice_by_default (tree_of fit.now) key index)
        ⊎ (error ≡ Failed OutOfMemory)) }
{
    let Some(name) = fit.default_config() else {
        return Err(ExtractError::Config(ConfigError::NoConfig));
    };
    payload_by_configuration(alloc, fit, name, key, index)
}

/// Extracting, as a command: `extract` with this selection.
#[derive(Clone, Copy, Debug, PartialEq, Eq)]
pub struct Extractor<'a> {
    /// What is extracted.
    pub select: Select<'a>,
}

impl<'a> Command for Extractor<'a> {
    type Value = ();

    type Failure = ExtractError;

    ghost can_run = { λ _. ⊤ };

    ghost promise = { λ extractor. extract_promise extractor.select };

    fn run<S: Sink>(
        &self,
        alloc: Global,
        input: &[u8],
        limits: Limits,
        sink: &mut S,
    ) -> Result<(), ExtractError> {
        let bytes = extract(alloc, input, self.select, limits)?;
        sink.put(bytes)?;
        Ok(())
    }

    ghost wraps_from = { λ _ _ _ _ same. same };

    ghost laws = { λ extractor. extract_laws extractor.select };
}

/// Reads a boot image to its end, writes the bytes of it that are selected, and flushes: `pipe_to`
/// with an `Extractor`.
///
/// The errors are those of `pipe_to`, inside `Failed`, and of the file those of `extract`.
pub fn extract_to<R: Read, W: Write>(
    alloc: Global,
    reader: &mut R,
    writer: &mut W,
    select: Select,
    limits: Limits,
) -> Result<(), ExtractError>
    ensures { IsPiped (extract_promise select.entry limits) limits (R.remaining reader.old)
        (R.remaining reader.new) (W.contents writer.old) (W.contents writer.new) result }
{
    pipe_to(alloc, &Extractor { select }, reader, writer, limits)
}

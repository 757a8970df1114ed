//! The text of an image of `build-fit`.

ghost use Rattle.std.specs.Prelude.{◌≡◌, ◌≢◌, ◌==◌, ◌∷◌, [], None, IfSome, IfNone};
ghost use Rattle.std.specs.Prelude.{option_map, if◌then◌else◌};
ghost use Rattle.bi_norm.specs.FitBuilding.{image_texts_model, multi};
ghost use Rattle.bootimg.specs.CodeWords.{four_texts};
ghost use Rattle.bootimg.specs.TextsOfWords.{text_of_word};
ghost use Rattle.bootimg.specs.CommandLine.{list_of, IsAddress, IsImage, IsImageText};
ghost use Rattle.bootimg.specs.Words.{parts_of};
ghost use Rattle.bootimg.specs.CommandLine.{NoneIs};
ghost use Rattle.bootimg.specs.declared.command_line.image.ImageFields.{ImageFields};

use crate::codes::{CodeField, CodeWord, parse_code_word};
use crate::command_line::part::{PartSource, parse_part};
use crate::numbers::parse_number;
use bi_legacy::codes::IH_TYPE_MULTI;
use bi_norm::{ImageSpec, ImageTexts};

/// An image of `build-fit`, as a word gives it.
#[derive(Clone, Copy)]
pub struct ImageWord<'a> {
    /// The image, with an empty payload.
    pub image: ImageSpec<'a>,
    /// The texts of its node, instead of its codes. There are none if one of the codes has no
    /// text, or for a multi-file image: neither can be built.
    pub texts: Option<ImageTexts<'a>>,
    /// Where its payload comes from.
    pub payload: PartSource<'a>,
}

/// The fields of the text of an image, between its colons.
#[derive(Clone, Copy)]
pub struct ImageFields<'a> {
    /// The name.
    pub name: &'a str,
    /// The image type.
    pub image_type: &'a str,
    /// The processor architecture.
    pub arch: &'a str,
    /// The operating system.
    pub os: &'a str,
    /// The compression.
    pub compression: &'a str,
    /// The load address.
    pub load: &'a str,
    /// The entry point.
    pub entry: &'a str,
    /// The length of the payload, or `@FILE`.
    pub length: &'a str,
}

/// Parses `NAME:TYPE:ARCH:OS:COMPRESSION:LOAD:ENTRY:LEN`, where LEN may be `@FILE`. Returns None
/// exactly for any other text.
pub fn parse_image(argument: &str) -> Option<ImageWord<'_>>
    ensures some { IfSome result (IsImageText argument.now) }
    ensures none { IfNone result (NoneIs (IsImageText argument.now)) }
{
    parse_fields(split_image(argument)?)
}

/// Splits the text of an image at its colons. Returns None if it has not eight fields.
pub fn split_image(argument: &str) -> Option<ImageFields<'_>>
    ensures some { IfSome result (λ fields. parts_of argument.now ≡ list_of fields) }
    ensures none { IfNone result ((fields : ImageFields) → parts_of argument.now
        ≢ list_of fields) }
{
    let (name, rest) = split_field(argument)?;
    let (image_type, rest) = split_field(rest)?;
    let (arch, rest) = split_field(rest)?;
    let (os, rest) = split_field(rest)?;
    let (compression, rest) = split_field(rest)?;
    let (load, rest) = split_field(rest)?;
    let (entry, length) = split_field(rest)?;
    match split_field(length) {
        None => Some(ImageFields {
            name,
            image_type,
            arch,
            os,
            compression,
            load,
            entry,
            length,
        }),
        Some(_) => None,
    }
}

/// Splits a text at its first colon. Returns None if it has none.
pub fn split_field(argument: &str) -> Option<(&str, &str)>
    ensures some { IfSome result (λ split. parts_of argument.now
        ≡ split.0.now ∷ parts_of split.1.now) }
    ensures none { IfNone result (parts_of argument.now ≡ argument.now ∷ []) }
{
    argument.split_once(':')
}

/// Parses the fields of the text of an image. Returns None if one of them is malformed.
fn parse_fields(fields: ImageFields<'_>) -> Option<ImageWord<'_>>
    ensures some { IfSome result (IsImage fields.entry) }
    ensures none { IfNone result (NoneIs (IsImage fields.entry)) }
{
    let image_type = parse_code_word(CodeField::ImageType, fields.image_type)?;
    let arch = parse_code_word(CodeField::Arch, fields.arch)?;
    let os = parse_code_word(CodeField::Os, fields.os)?;
    let compression = parse_code_word(CodeField::Compression, fields.compression)?;
    let image = ImageSpec {
        name: fields.name.as_bytes(),
        image_type: image_type.code,
        arch: arch.code,
        os: os.code,
        compression: compression.code,
        load: parse_address(fields.load)?,
        entry: parse_address(fields.entry)?,
        payload: &[],
    };
    Some(ImageWord {
        image,
        texts: node_texts(image_type, arch, os, compression),
        payload: parse_part(fields.length)?,
    })
}

/// Returns the texts in the node of an image with these codes. Returns None if one of the codes has
/// no text, or for a multi-file image.
fn node_texts<'a>(
    image_type: CodeWord<'a>,
    arch: CodeWord<'a>,
    os: CodeWord<'a>,
    compression: CodeWord<'a>,
) -> Option<ImageTexts<'a>>
    ensures { option_map image_texts_model result
        ≡ (if image_type.entry.code == multi then None
        else four_texts (text_of_word image_type.entry) (text_of_word arch.entry)
        (text_of_word os.entry) (text_of_word compression.entry)) }
{
    if image_type.code == IH_TYPE_MULTI {
        return None;
    }
    Some(ImageTexts {
        image_type: image_type.text?.as_bytes(),
        arch: arch.text?.as_bytes(),
        os: os.text?.as_bytes(),
        compression: compression.text?.as_bytes(),
    })
}

/// Parses an address, or `-` for none. Returns None exactly for any other text.
pub fn parse_address(argument: &str) -> Option<Option<u32>>
    ensures some { IfSome result (IsAddress argument.now) }
    ensures none { IfNone result (NoneIs (IsAddress argument.now)) }
{
    if argument == "-" {
        return Some(None);
    }
    Some(Some(parse_number(argument)?))
}

//! The values of fields of a legacy header.

ghost use Rattle.std.specs.Prelude.{◌≡◌, [], IfOk, IfErr};
ghost use Rattle.std.specs.Option.{option_map};
ghost use Rattle.bi_legacy.specs.Meaning.{image_of};
ghost use Rattle.bi_common.specs.CommonLines.{named_field};
ghost use Rattle.bi_common.specs.MadeFields.{field_of};
ghost use Rattle.bi_values.specs.Getting.{IsValueReason};
ghost use Rattle.bi_values.specs.ValueOutputs.{output_text, result_of_output};
ghost use Rattle.bi_values.specs.ValueResults.{number_of_field as number_word, number_result};
ghost use Rattle.bi_values.specs.ValueResults.{bytes_of_field as field_bytes, result_of_field};
ghost use Rattle.bi_values.specs.ValueResults.{shown_field as shown_word};

use crate::get_error::GetError;
use crate::outputs::ValueOutput;
use crate::value_form::ValueForm;
use crate::value_name::HeaderField;
use bi_common::fields::Field;
use bi_legacy::Fields;
use bi_legacy::codes::{arch_name, compression_name, os_name, type_name};

/// Returns what is written in a form for a field. `index` is that of its name in the list of names.
///
/// Fails with NoNumber, if the name is to be a number.
pub(crate) fn output_of_field<'a>(
    fields: Fields<'a>,
    field: HeaderField,
    form: ValueForm,
    index: usize,
) -> Result<ValueOutput<'a>, GetError>
    ensures output { IfOk result (λ output. result_of_field form field (image_of fields.entry [])
        ≡ result_of_output output) }
    ensures failed { IfErr result (IsValueReason index
        (result_of_field form field (image_of fields.entry []))) }
{
    match form {
        ValueForm::Shown | ValueForm::Text => Ok(ValueOutput::Word(shown_field(fields, field))),
        ValueForm::Number => number_of_field(fields, field, index),
        ValueForm::Raw => Ok(bytes_of_field(fields, field)),
    }
}

/// Returns the word for a field in a listing.
fn shown_field<'a>(fields: Fields<'a>, field: HeaderField) -> Field<'a, 'a>
    ensures { field_of result ≡ shown_word field (image_of fields.entry []) }
{
    match field {
        HeaderField::Name => Field::Shown(fields.name),
        HeaderField::Time => Field::Decimal(u64::from(fields.time)),
        HeaderField::Load => Field::Hexadecimal(fields.load),
        HeaderField::Entry => Field::Hexadecimal(fields.entry),
        HeaderField::Os => code_word(os_name(fields.os), fields.os),
        HeaderField::Arch => code_word(arch_name(fields.arch), fields.arch),
        HeaderField::ImageType => code_word(type_name(fields.image_type), fields.image_type),
        HeaderField::Compression => {
            code_word(compression_name(fields.compression), fields.compression)
        }
    }
}

/// Returns the word for a code: its name, or its number if it has none.
fn code_word(name: Option<&'static str>, code: u8) -> Field<'static, 'static>
    ensures { field_of result ≡ named_field (option_map (λ name. name.now) name.entry) code }
{
    match name {
        Some(name) => Field::Text(name.as_bytes()),
        None => Field::Decimal(u64::from(code)),
    }
}

/// Returns the number of a field. Fails with NoNumber for the name.
fn number_of_field<'a>(
    fields: Fields<'a>,
    field: HeaderField,
    index: usize,
) -> Result<ValueOutput<'a>, GetError>
    ensures output { IfOk result (λ output. number_result
        (number_word field (image_of fields.entry [])) ≡ result_of_output output) }
    ensures failed { IfErr result (IsValueReason index
        (number_result (number_word field (image_of fields.entry [])))) }
{
    match field {
        HeaderField::Name => Err(GetError::NoNumber(index)),
        HeaderField::Time => Ok(ValueOutput::Word(Field::Hexadecimal(fields.time))),
        HeaderField::Load => Ok(ValueOutput::Word(Field::Hexadecimal(fields.load))),
        HeaderField::Entry => Ok(ValueOutput::Word(Field::Hexadecimal(fields.entry))),
        HeaderField::Os => Ok(ValueOutput::Code(fields.os)),
        HeaderField::Arch => Ok(ValueOutput::Code(fields.arch)),
        HeaderField::ImageType => Ok(ValueOutput::Code(fields.image_type)),
        HeaderField::Compression => Ok(ValueOutput::Code(fields.compression)),
    }
}

/// Returns the bytes of a field in the header.
fn bytes_of_field<'a>(fields: Fields<'a>, field: HeaderField) -> ValueOutput<'a>
    ensures { output_text result ≡ field_bytes field (image_of fields.entry []) }
{
    match field {
        HeaderField::Name => ValueOutput::Bytes(fields.name),
        HeaderField::Time => ValueOutput::Cell(fields.time),
        HeaderField::Load => ValueOutput::Cell(fields.load),
        HeaderField::Entry => ValueOutput::Cell(fields.entry),
        HeaderField::Os => ValueOutput::Byte(fields.os),
        HeaderField::Arch => ValueOutput::Byte(fields.arch),
        HeaderField::ImageType => ValueOutput::Byte(fields.image_type),
        HeaderField::Compression => ValueOutput::Byte(fields.compression),
    }
}

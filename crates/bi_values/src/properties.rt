//! The values of properties.

ghost use Rattle.std.specs.Prelude.{◌≡◌, ◌&&◌, IfOk, IfErr};
ghost use Rattle.std.specs.Option.{option_map};
ghost use Rattle.bi_fdt.specs.Views.{node_of};
ghost use Rattle.bi_fit.specs.Content.{tree_of};
ghost use Rattle.bi_fit.specs.Names.{is_payload_name as is_payload_name_of};
ghost use Rattle.bi_common.specs.MadeFields.{field_of};
ghost use Rattle.bi_values.specs.FoundValues.{node_by_names, value_at};
ghost use Rattle.bi_values.specs.Getting.{IsValueReason};
ghost use Rattle.bi_values.specs.ValueNames.{names_of_path};
ghost use Rattle.bi_values.specs.ImagePaths.{is_path_of_image};
ghost use Rattle.bi_values.specs.ValueOutputs.{result_of_output};
ghost use Rattle.bi_values.specs.ValueResults.{number_of_value as number_word};
ghost use Rattle.bi_values.specs.ValueResults.{result_of_property, result_of_value};

use crate::get_error::GetError;
use crate::outputs::ValueOutput;
use crate::value_form::ValueForm;
use bi_base::{cell_at, two_cells_at};
use bi_common::fields::{Field, are_quotable_texts};
use bi_fdt::NodeRef;
use bi_fit::{Fit, is_payload_name};

/// Returns what is written in a form for a property of a flattened image tree. `index` is that of
/// its name in the list of names.
///
/// Errors: NoProperty; NoText or NoNumber, if the value is not in this form.
pub(crate) fn output_of_property<'a>(
    fit: &Fit<'a>,
    path: &[Vec<u8>],
    name: &[u8],
    form: ValueForm,
    index: usize,
) -> Result<ValueOutput<'a>, GetError>
    ensures output { IfOk result (λ output. result_of_property form
        (value_at (tree_of fit.entry.now) (names_of_path path.now) name.now)
        ≡ result_of_output output) }
    ensures failed { IfErr result (IsValueReason index
        (result_of_property form (value_at (tree_of fit.now) (names_of_path path.now) name.now))) }
{
    match find_value(fit, path, name) {
        Some(value) => output_of_value(value, form, index),
        None => Err(GetError::NoProperty(index)),
    }
}

/// Returns the value of a property of a flattened image tree, if there is one. An image node has no
/// property that holds its payload or names its region.
fn find_value<'a>(fit: &Fit<'a>, path: &[Vec<u8>], name: &[u8]) -> Option<&'a [u8]>
    ensures { option_map (λ value. value.now) result
        ≡ value_at (tree_of fit.entry.now) (names_of_path path.now) name.now }
{
    if is_of_payload(path, name) {
        return None;
    }
    node_at(fit.blob().root(), path)?.property(name)
}

/// Returns whether a property of the node that these names lead to would hold the payload of an
/// image node or name its region.
fn is_of_payload(path: &[Vec<u8>], name: &[u8]) -> bool
    ensures { result ≡ (is_path_of_image (names_of_path path.now) && is_payload_name_of name.now) }
{
    is_image_path(path) && is_payload_name(name)
}

/// Returns whether these names lead to an image node, if they lead to a node.
fn is_image_path(path: &[Vec<u8>]) -> bool
    ensures { result ≡ is_path_of_image (names_of_path path.now) }
{
    match path {
        [first, _] => first.as_slice() == b"images".as_slice(),
        _ => false,
    }
}

/// Returns the node that names lead to from a node, if there is one.
fn node_at<'a, 'b>(from: NodeRef<'a, 'b>, path: &[Vec<u8>]) -> Option<NodeRef<'a, 'b>>
    ensures { option_map node_of result
        ≡ node_by_names (node_of from.entry) (names_of_path path.now) }
{
    let mut node = from;
    for name in path {
        node = node.child(name)?;
    }
    Some(node)
}

/// Returns what is written in a form for a value.
fn output_of_value<'a>(
    value: &'a [u8],
    form: ValueForm,
    index: usize,
) -> Result<ValueOutput<'a>, GetError>
    ensures output { IfOk result (λ output. result_of_value form value.entry.now
        ≡ result_of_output output) }
    ensures failed { IfErr result (IsValueReason index (result_of_value form value.now)) }
{
    match form {
        ValueForm::Shown => Ok(ValueOutput::Word(Field::Value(value))),
        ValueForm::Text => {
            if are_quotable_texts(value) {
                Ok(ValueOutput::Texts(value))
            } else {
                Err(GetError::NoText(index))
            }
        }
        ValueForm::Number => match number_of_value(value) {
            Some(number) => Ok(ValueOutput::Word(number)),
            None => Err(GetError::NoNumber(index)),
        },
        ValueForm::Raw => Ok(ValueOutput::Bytes(value)),
    }
}

/// Returns the number of a value of four or eight bytes.
fn number_of_value<'a>(value: &[u8]) -> Option<Field<'a, 'a>>
    ensures { option_map field_of result ≡ number_word value.now }
{
    match value.len() {
        4 => Some(Field::Hexadecimal(cell_at(value, 0))),
        8 => Some(Field::Hexadecimal64(two_cells_at(value, 0))),
        _ => None,
    }
}

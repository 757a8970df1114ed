//! Getting values of a boot image.

ghost use Rattle.std.specs.Prelude.{◌≡◌, ◌⊎◌, ⊤, IfOk, IfErr, OnOk, map};
ghost use Rattle.bi_base.specs.Commands.{Appended, CommandFailed};
ghost use Rattle.bi_base.specs.declared.fault.Error.TheVariants.{OutOfMemory};
ghost use Rattle.bi_norm.specs.Reading.{meaning_of};
ghost use Rattle.bi_values.specs.declared.get_error.GetError.TheVariants.{Failed};
ghost use Rattle.bi_values.specs.Getting.{IsFirstReason, IsGetError, IsTextOfValues};
ghost use Rattle.bi_values.specs.Getting.{IsValueReason, get_laws, get_promise};
ghost use Rattle.bi_values.specs.ValueNames.{value_name_model, value_name_models};
ghost use Rattle.bi_values.specs.ValueOutputs.{result_of_output};
ghost use Rattle.bi_values.specs.ValueResults.{value_result, value_results};

use crate::fields::output_of_field;
use crate::get_error::GetError;
use crate::outputs::{ValueOutput, put_outputs};
use crate::properties::output_of_property;
use crate::value_form::ValueForm;
use crate::value_name::ValueName;
use bi_base::{Command, Limits, MemoryPen, Sink, SinkPen};
use bi_norm::BootImage;
use std::alloc::Global;

/// Returns the values with these names of a boot image, in their order and in a form.
///
/// Errors, the first that applies: Failed with the error of `BootImage::read`; then for each name
/// in order WrongKind, if a field is named of a FIT, or a property of a legacy image; NoProperty,
/// if no node has the path, or the node has no such property, where an image node has none of the
/// four properties that hold its payload or name its region; NoText; NoNumber. Failed
/// with OutOfMemory occurs only for a legacy image, or for a file whose header and memory
/// reservation block, as those of a blob, have no fault.
pub fn get(
    alloc: Global,
    file: &[u8],
    names: &[ValueName],
    form: ValueForm,
    limits: Limits,
) -> Result<Vec<u8>, GetError>
    ensures values { IfOk result (λ text. IsTextOfValues form (value_name_models names.now) limits
        file.now text.items) }
    ensures failed { IfErr result (IsGetError form (value_name_models names.now) limits
        file.now) }
{
    let image = BootImage::read(alloc, file, limits)?;
    let outputs = outputs_of(alloc, &image, names, form)?;
    let mut pen = MemoryPen::new(alloc);
    put_outputs(&outputs, &mut pen);
    Ok(pen.into_vec()?)
}

/// Appends the values with these names of a boot image to a sink, in their order and in a form.
///
/// The errors are those of `get`, and Failed with an error of the sink. After an error of `get` the
/// sink is unchanged. After one of the sink, the sink is as a failed `put` of all values leaves it.
pub fn get_into<S: Sink>(
    alloc: Global,
    file: &[u8],
    names: &[ValueName],
    form: ValueForm,
    limits: Limits,
    sink: &mut S,
) -> Result<(), GetError>
    ensures appended { OnOk result (Appended S.appends
        (IsTextOfValues form (value_name_models names.now) limits file.now) sink.old sink.new) }
    ensures failed { IfErr result (CommandFailed S.fails Failed
        (IsTextOfValues form (value_name_models names.now) limits file.now)
        (IsGetError form (value_name_models names.now) limits file.now) sink.old sink.new) }
{
    let image = BootImage::read(alloc, file, limits)?;
    let outputs = outputs_of(alloc, &image, names, form)?;
    let mut pen = SinkPen::new(sink);
    put_outputs(&outputs, &mut pen);
    pen.result()?;
    Ok(())
}

/// Getting values, as a command: `get_into` with these names and this form.
#[derive(Clone, Copy)]
pub struct Getter<'a> {
    /// The names of the values.
    pub names: &'a [ValueName],
    /// The form of the values.
    pub form: ValueForm,
}

impl<'a> Command for Getter<'a> {
    type Value = ();

    type Failure = GetError;

    ghost can_run = { λ _. ⊤ };

    ghost promise = { λ getter. get_promise getter.form (value_name_models getter.names.now) };

    fn run<S: Sink>(
        &self,
        alloc: Global,
        input: &[u8],
        limits: Limits,
        sink: &mut S,
    ) -> Result<(), GetError> {
        get_into(alloc, input, self.names, self.form, limits, sink)
    }

    ghost wraps_from = { λ _ _ _ _ same. same };

    ghost laws = { λ getter. get_laws getter.form (value_name_models getter.names.now) };
}

/// Returns what is written in a form for the values with these names.
///
/// Fails with the first error of a name, or with Failed and OutOfMemory.
fn outputs_of<'a>(
    alloc: Global,
    image: &BootImage<'a>,
    names: &[ValueName],
    form: ValueForm,
) -> Result<Vec<ValueOutput<'a>>, GetError>
    ensures outputs { IfOk result (λ outputs.
        value_results form (meaning_of image.entry.now) (value_name_models names.entry.now)
        ≡ map result_of_output outputs.items) }
    ensures failed { IfErr result (λ error.
        IsFirstReason (value_results form (meaning_of image.now) (value_name_models names.now))
        error ⊎ (error ≡ Failed OutOfMemory)) }
{
    let mut outputs = Vec::new(alloc);
    for index in 0..names.len() {
        outputs.push(output_of(image, &names[index], form, index)?)?;
    }
    Ok(outputs)
}

/// Returns what is written in a form for the value with this name. `index` is that of the name in
/// the list of names.
fn output_of<'a>(
    image: &BootImage<'a>,
    name: &ValueName,
    form: ValueForm,
    index: usize,
) -> Result<ValueOutput<'a>, GetError>
    ensures output { IfOk result (λ output.
        value_result form (meaning_of image.entry.now) (value_name_model name.entry.now)
        ≡ result_of_output output) }
    ensures failed { IfErr result (IsValueReason index
        (value_result form (meaning_of image.now) (value_name_model name.now))) }
{
    match (image, name) {
        (BootImage::Fit(fit), ValueName::Property { path, name }) => {
            output_of_property(fit, path, name, form, index)
        }
        (BootImage::Legacy(image), ValueName::Field(field)) => {
            output_of_field(image.fields(), *field, form, index)
        }
        _ => Err(GetError::WrongKind),
    }
}

//! Values of small boot images, and the words for their names. Each function does nothing: what it
//! ensures is a fact about the definitions. Some of them call the function of a law, from which
//! their facts follow.

ghost use Rattle.bi_values.specs.KnownValues.{FieldValuesAreKnown, GetErrorsAreKnown};
ghost use Rattle.bi_values.specs.KnownValues.{NameWordsAreKnown, PropertyValuesAreKnown};
ghost use Rattle.bi_values.specs.KnownValues.{NamesOfValuesAreKnown, ValueReasonsAreKnown};

/// The values of some properties of a small flattened image tree are known, in each form.
pub fn property_values_are_known()
    ensures { PropertyValuesAreKnown }
{
    bi_legacy::laws::one_meaning();
}

/// The fields of a small legacy image are known, in each form.
pub fn field_values_are_known()
    ensures { FieldValuesAreKnown }
{
    bi_legacy::laws::one_meaning();
}

/// It is known which of some names is the first that has no value, and why.
pub fn get_errors_are_known()
    ensures { GetErrorsAreKnown }
{
    bi_legacy::laws::one_meaning();
}

/// Each error names one reason.
pub fn value_reasons_are_known()
    ensures { ValueReasonsAreKnown }
{}

/// Known words are those of known names of values, and others are those of none.
pub fn name_words_are_known()
    ensures { NameWordsAreKnown }
{}

/// The names of values, as the code has them, are known names.
pub fn names_of_values_are_known()
    ensures { NamesOfValuesAreKnown }
{}

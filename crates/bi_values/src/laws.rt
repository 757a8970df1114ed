//! Laws of values. Their functions do nothing: what each of them ensures is the law.

ghost use Rattle.bi_values.specs.ValueLaws.{FieldsAreListed, ValuesAreOfMeaning};

/// What is got of a file is a function of its meaning: two files that mean the same have the same
/// values, or the same first name without one.
pub fn values_are_of_meaning()
    ensures { ValuesAreOfMeaning }
{}

/// The word for a field of a legacy image is what follows the key of the field in a listing and in
/// a description.
pub fn fields_are_listed()
    ensures { FieldsAreListed }
{}

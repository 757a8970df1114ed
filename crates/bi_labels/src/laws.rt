//! Laws of texts with names. Their functions do nothing: what each of them ensures is the law.

ghost use Rattle.bi_labels.specs.LabelLaws.{LinesAreLabelled, ValuesAreLabelled};

/// Of a text of lines without newlines inside, each line has the name.
pub fn lines_are_labelled()
    ensures { LinesAreLabelled }
{}

/// The text of a value of JSON becomes that of an object with the name and the value.
pub fn values_are_labelled()
    ensures { ValuesAreLabelled }
{}

//! Small texts with names. Each function does nothing: what it ensures is a fact about the
//! definitions.

ghost use Rattle.bi_labels.specs.KnownLabels.{LabelledLinesAreKnown, LabelledValuesAreKnown};
ghost use Rattle.bi_labels.specs.KnownLabels.{LinesInTextsAreKnown};

/// Small texts have known lines.
pub fn lines_in_texts_are_known()
    ensures { LinesInTextsAreKnown }
{}

/// Texts of lines have the name before each line, an empty one too.
pub fn labelled_lines_are_known()
    ensures { LabelledLinesAreKnown }
{}

/// A text of JSON becomes one line, an object with the name.
pub fn labelled_values_are_known()
    ensures { LabelledValuesAreKnown }
{}

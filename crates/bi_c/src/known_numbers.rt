//! The numbers of the library for C. Each function does nothing: what it ensures is a fact about
//! the definitions.

ghost use Rattle.bi_c.specs.KnownNumbers.{StatusNumbersAreKnown, AnswersAreKnown};
ghost use Rattle.bi_c.specs.KnownNumbers.{ReasonsAreKnown, ExtractFailuresAreKnown};
ghost use Rattle.bi_c.specs.KnownNumbers.{NodeReasonsAreKnown, ValuesAreKnown, ArgumentsAreKnown};
ghost use Rattle.bi_c.specs.KnownNumbers.{AllowedBitsAreKnown, ValueFailuresAreKnown};
ghost use Rattle.bi_c.specs.KnownNumbers.{ArgumentNumbersAreKnown};

/// The statuses are the numbers of the header.
pub fn status_numbers_are_known()
    ensures { StatusNumbersAreKnown }
{}

/// The struct has known numbers after an output and after each failure.
pub fn answers_are_known()
    ensures { AnswersAreKnown }
{}

/// The numbers of the arguments are those of the header.
pub fn argument_numbers_are_known()
    ensures { ArgumentNumbersAreKnown }
{}

/// The reasons why nothing is extracted are the numbers of the header.
pub fn reasons_are_known()
    ensures { ReasonsAreKnown }
{}

/// The reasons why nothing is found by a path or a name are the numbers of the header.
pub fn node_reasons_are_known()
    ensures { NodeReasonsAreKnown }
{}

/// Each error of extracting has a known failure.
pub fn extract_failures_are_known()
    ensures { ExtractFailuresAreKnown }
{}

/// Each error of getting a value has a known failure.
pub fn value_failures_are_known()
    ensures { ValueFailuresAreKnown }
{}

/// The kinds of images, a yes and a no, the verdicts, the kinds of concerns and the keys are known
/// numbers.
pub fn values_are_known()
    ensures { ValuesAreKnown }
{}

/// The numbers of forms, keys, changes, a layout and addresses mean what the header says.
pub fn arguments_are_known()
    ensures { ArgumentsAreKnown }
{}

/// Each bit of the kinds of lines that are allowed is that of the header.
pub fn allowed_bits_are_known()
    ensures { AllowedBitsAreKnown }
{}

//! The values that `get` writes.

ghost use Rattle.std.specs.Prelude.{◌≡◌, length};
ghost use Rattle.bootimg.specs.Failures.{IsFailureOfGetting, IsIndexOfValue};
ghost use Rattle.bootimg.specs.ValueWords.{texts_of_value};

use crate::failure::Failure;
use bi_values::{GetError, Getter, ValueForm, ValueName};

/// The words that name a value.
#[derive(Clone, Copy)]
pub enum ValueWords<'a> {
    /// The path of a node, and the name of a property.
    Property(&'a str, &'a str),
    /// The word for a field.
    Field(&'a str),
}

/// Which values of an image are written, and in which form.
#[derive(Drop)]
pub struct GetPlan<'a> {
    /// The names of the values, in their order.
    pub names: Vec<ValueName>,
    /// The words for each of them.
    pub words: Vec<ValueWords<'a>>,
    /// The form.
    pub form: ValueForm,
    ghost paired: { length words.items ≡ length names.items },
}

impl<'a> ValueWords<'a> {
    /// Returns their number.
    pub fn count(self) -> usize
        ensures { result ≡ length (texts_of_value self.entry) }
    {
        match self {
            ValueWords::Property(..) => 2,
            ValueWords::Field(_) => 1,
        }
    }
}

impl<'a> GetPlan<'a> {
    /// Returns the command of the library for the plan.
    pub fn getter(&self) -> Getter<'_>
        ensures form { result.form ≡ self.now.form }
        ensures names { result.names.now ≡ self.now.names.items }
    {
        Getter {
            names: &self.names,
            form: self.form,
        }
    }

    /// Returns the failure for an error of getting the values. Requires: if the error has the index
    /// of a value, it is one of the values of the plan.
    pub fn failure(&self, error: GetError) -> Failure<'a>
        requires index { IsIndexOfValue (length self.now.names.items) error }
        ensures { IsFailureOfGetting self.now.words.items error result }
    {
        match error {
            GetError::Failed(error) => Failure::Call(error),
            GetError::WrongKind => Failure::WrongKind,
            GetError::NoProperty(index) => Failure::NoProperty(self.words[index]),
            GetError::NoText(index) => Failure::NoText(self.words[index]),
            GetError::NoNumber(index) => Failure::NoNumber(self.words[index]),
        }
    }
}

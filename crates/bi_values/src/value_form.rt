//! The forms in which a value is written.

/// How a value is written.
#[derive(Clone, Copy, Debug, PartialEq, Eq)]
pub enum ValueForm {
    /// A line: of a property as a description has it, of a field as a listing has it.
    Shown,
    /// Of a property a line for each of its texts, without quotes. A field is as shown.
    Text,
    /// A line: `0x` and two hexadecimal digits for each byte. A property must have four or eight
    /// bytes.
    Number,
    /// The bytes alone, without a newline: those of the value, or those of the field in the header.
    /// Of the name, they are the bytes before the first zero.
    Raw,
}

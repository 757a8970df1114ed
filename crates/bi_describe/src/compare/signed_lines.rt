//! Lines of descriptions, and lines of the differences.

ghost use Rattle.std.specs.Prelude.{◌≡◌, ◌++◌, IfOk, OnOk, string_bytes};
ghost use Rattle.bi_describe.specs.Differences.{sign_text, signed_text, text_of_differences};
ghost use Rattle.bi_describe.specs.MadeLines.{made_line, made_lines};

use std::alloc::{AllocError, Global};

/// A line of a description.
#[derive(Clone, Copy)]
pub(super) struct ComparedLine<'a> {
    /// Its text, without the newline.
    pub(super) text: &'a str,
    /// Its first words, which name what it is about.
    pub(super) key: &'a str,
}

/// What stands before a line of the differences.
#[derive(Clone, Copy, Debug, PartialEq, Eq)]
pub enum Sign {
    /// Nothing: the line says why two meanings differ if no line does.
    None,
    /// `-`: the line is one of the first description.
    Removed,
    /// `+`: the line is one of the second description.
    Added,
}

impl Sign {
    /// Returns the sign as it is printed.
    pub fn text(self) -> &'static str
        ensures { result.now ≡ sign_text self }
    {
        match self {
            Sign::None => "",
            Sign::Removed => "-",
            Sign::Added => "+",
        }
    }
}

/// A line of the differences.
#[derive(Clone, Copy)]
pub(super) struct SignedLine<'a> {
    pub(super) sign: Sign,
    /// Its text, without the newline.
    pub(super) text: &'a str,
}

/// Returns the text of these lines, each with its sign and a newline.
///
/// Fails only if memory runs out.
pub(super) fn text_of_lines(alloc: Global, lines: &[SignedLine]) -> Result<String, AllocError>
    ensures { IfOk result (λ text. string_bytes text
        ≡ text_of_differences (made_lines lines.now)) }
{
    let mut text = String::new(alloc);
    for line in lines {
        push_line(&mut text, line)?;
    }
    Ok(text)
}

/// Appends a line, with its sign and a newline.
fn push_line(text: &mut String, line: &SignedLine) -> Result<(), AllocError>
    ensures { OnOk result (string_bytes text.new ≡ string_bytes text.old
        ++ signed_text (made_line line.now)) }
{
    text.push_str(line.sign.text())?;
    text.push_str(line.text)?;
    text.push('\n')
}

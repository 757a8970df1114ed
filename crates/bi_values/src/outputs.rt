//! What is written for values, put to a pen.

ghost use Rattle.std.specs.Prelude.{◌≡◌, ◌<◌, false, flat_map};
ghost use Rattle.std.specs.Fmt.{digit_glyph};
ghost use Rattle.bi_base.specs.Cells.{cell};
ghost use Rattle.bi_fit.specs.Judgement.{listed_names};
ghost use Rattle.bi_common.specs.MadeFields.{field_of};
ghost use Rattle.bi_values.specs.ValueOutputs.{output_text};
ghost use Rattle.bi_values.specs.ValueResults.{code_number, text_lines, word_line};

use bi_base::Pen;
use bi_common::fields::Field;
use bi_common::lines::{LineWriter, put_line};
use bi_fit::split_name;

/// What is written for a value.
#[derive(Clone, Copy)]
pub(crate) enum ValueOutput<'a> {
    /// A line of this word.
    Word(Field<'a, 'a>),
    /// A line of this code, as `0x` and two hexadecimal digits.
    Code(u8),
    /// A line for each text of this value.
    Texts(&'a [u8]),
    /// These bytes alone.
    Bytes(&'a [u8]),
    /// The four bytes of a number alone.
    Cell(u32),
    /// A byte alone.
    Byte(u8),
}

/// Puts what is written for values.
pub(crate) fn put_outputs<P: Pen>(outputs: &[ValueOutput], pen: &mut P)
    ensures { P.puts pen.old (flat_map output_text outputs.now) pen.new }
{
    for output in outputs {
        put_output(*output, pen);
    }
}

/// Puts what is written for a value.
fn put_output<P: Pen>(output: ValueOutput, pen: &mut P)
    ensures { P.puts pen.old (output_text output.entry) pen.new }
{
    match output {
        ValueOutput::Word(word) => put_word(word, pen),
        ValueOutput::Code(code) => put_code(code, pen),
        ValueOutput::Texts(value) => put_texts(value, pen),
        ValueOutput::Bytes(bytes) => pen.put(bytes),
        ValueOutput::Cell(number) => pen.put(&bytes_of_cell(number)),
        ValueOutput::Byte(byte) => pen.put(&[byte]),
    }
}

/// Puts a line of a word.
fn put_word<P: Pen>(word: Field, pen: &mut P)
    ensures { P.puts pen.old (word_line (field_of word.entry)) pen.new }
{
    put_line(&[word], &mut LineWriter::new(pen));
}

/// Puts a line of a code, as `0x` and two hexadecimal digits.
fn put_code<P: Pen>(code: u8, pen: &mut P)
    ensures { P.puts pen.old (word_line (code_number code)) pen.new }
{
    put_word(
        Field::Text(&[b'0', b'x', digit(code / 16), digit(code % 16)]),
        pen,
    );
}

/// Returns a hexadecimal digit in lower case. Requires: the value is less than 16.
fn digit(value: u8) -> u8
    requires { value < 16 }
    ensures { result ≡ digit_glyph false value }
{
    if value < 10 {
        b'0' + value
    } else {
        b'a' + (value - 10)
    }
}

/// Puts a line for each text of a value.
fn put_texts<P: Pen>(value: &[u8], pen: &mut P)
    ensures { P.puts pen.old (text_lines (listed_names value.now)) pen.new }
{
    let mut rest = value;
    while let Some((text, later)) = split_name(rest) {
        put_word(Field::Text(text), pen);
        rest = later;
    }
}

/// Returns the four bytes of a number, the highest first.
#[tactic(auto, unfolding(bi_base::specs::Cells::cell))]
fn bytes_of_cell(number: u32) -> [u8; 4]
    ensures { result ≡ cell number }
{
    number.to_be_bytes()
}

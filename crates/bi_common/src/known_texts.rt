//! Small names, values and texts as they are printed. Each function does nothing: what it ensures
//! is a fact about the definitions.

ghost use Rattle.bi_common.specs.KnownWords.{LinesAreShown, NamesAreShown, ValuesAreShown};
ghost use Rattle.bi_common.specs.KnownJson.{JsonIsKnown, JsonTextsAreKnown};
ghost use Rattle.bi_common.specs.JsonLaws.{JsonLinesAreJson, JsonLinesAreAscii};

/// Names are shown as known words: an empty one, `-`, a space, `%`, the first and the last byte
/// that is shown as it is and those next to them, the greatest byte, and a plain name.
pub fn names_are_shown()
    ensures { NamesAreShown }
{}

/// Values of properties are shown as known words: texts in quotes, and other bytes in hexadecimal
/// digits.
pub fn values_are_shown()
    ensures { ValuesAreShown }
{}

/// Lines are shown as known texts: words of each kind, texts in quotes, and a value of no bytes.
pub fn lines_are_shown()
    ensures { LinesAreShown }
{}

/// Small texts are JSON, and others are not: a comma after the last member, a number that begins
/// with a zero, a control character or a quote in a string, or no text.
pub fn json_is_known()
    ensures { JsonIsKnown }
{}

/// Values of JSON have known texts: an object with an array, and strings with escapes.
pub fn json_texts_are_known()
    ensures { JsonTextsAreKnown }
{}

/// The text of each value of JSON whose numbers are below 2^64 is one line of JSON.
pub fn json_lines_are_json()
    ensures { JsonLinesAreJson }
{}

/// The text of each value of JSON is ASCII.
pub fn json_lines_are_ascii()
    ensures { JsonLinesAreAscii }
{}

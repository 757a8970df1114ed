//! Pens for the lines of deep descriptions.

ghost use Rattle.std.specs.Prelude.{◌≡◌};
ghost use Rattle.bi_common.specs.LineTokens.{one_field};
ghost use Rattle.bi_common.specs.Lines.{Text};
ghost use Rattle.bi_common.specs.MadeFields.{bytes_of_names};
ghost use Rattle.bi_describe.specs.IgnoredWords.{inside_path};

use crate::line_words::{has_word_after, put_next, put_next_path};
use bi_base::Pen;
use bi_common::fields::Field;
use bi_common::lines::LinePen;

/// Something that the lines of a deep description are put to, word by word. A path inside a payload
/// is a word, which is never made in memory: many long paths take no time once the pen has failed.
pub(crate) trait DeepPen: LinePen {
    /// Puts the path of a node inside the payload with this path, as a word.
    fn put_path_inside(&mut self, payload: &[u8], names: &[&[u8]])
        ensures { Self.puts self.old
            (one_field (Text (inside_path payload.now (bytes_of_names names.now)))) self.new };
}

/// A pen for the lines of a deep description that puts their text to another pen.
#[derive(Drop)]
pub(super) struct DeepWriter<'a, P> {
    pen: &'a mut P,
    /// Whether the line has a word.
    has_word: bool,
}

impl<'a, P: Pen> DeepWriter<'a, P> {
    ghost use Rattle.std.specs.Prelude.{false};

    /// Returns a pen for lines.
    pub(super) fn new(pen: &'a mut P) -> DeepWriter<'a, P>
        ensures same_borrow { result.pen.ghost_name ≡ pen.entry.ghost_name }
        ensures same_pen { result.pen.now ≡ pen.old }
        ensures no_word { result.has_word ≡ false }
    {
        DeepWriter {
            pen,
            has_word: false,
        }
    }
}

impl<'a, P: Pen> LinePen for DeepWriter<'a, P> {
    ghost use Rattle.bi_common.specs.LineTokens.{line_writing};
    ghost use Rattle.bi_common.specs.TokenLaws.{puts_no_tokens, puts_tokens_in_turn};
    ghost use Rattle.bi_describe.specs.DeepPens.{DeepPuts};

    ghost puts = { DeepPuts P.puts };

    fn put_word(&mut self, word: Field) {
        put_next(word, self.has_word, self.pen);
        self.has_word = has_word_after(word, self.has_word);
    }

    fn end_line(&mut self) {
        self.pen.put(b"\n");
        self.has_word = false;
    }

    ghost puts_nothing = { λ a. puts_no_tokens P.puts line_writing P.puts_nothing a.pen
        a.has_word };

    ghost puts_in_turn = { λ a b c. puts_tokens_in_turn P.puts line_writing P.puts_in_turn a.pen
        b.pen c.pen a.has_word b.has_word c.has_word };
}

impl<'a, P: Pen> DeepPen for DeepWriter<'a, P> {
    fn put_path_inside(&mut self, payload: &[u8], names: &[&[u8]]) {
        put_next_path(payload, names, self.has_word, self.pen);
        self.has_word = true;
    }
}

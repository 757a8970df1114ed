//! The paths of nodes inside a payload.

ghost use Rattle.std.specs.Prelude.{◌≡◌};

use super::super::deep_pen::DeepPen;
use bi_common::fields::Field;
use bi_common::lines::LinePen;

/// A pen for the lines of a tree that is inside a payload: it puts them to another pen, with the
/// paths of the nodes inside the payload.
#[derive(Drop)]
pub(super) struct InsidePen<'p, 'l, L> {
    payload: &'p [u8],
    pen: &'l mut L,
}

impl<'p, 'l, L: DeepPen> InsidePen<'p, 'l, L> {
    /// Returns a pen for the lines of the tree inside the payload with this path.
    pub(super) fn new(payload: &'p [u8], pen: &'l mut L) -> InsidePen<'p, 'l, L>
        ensures payload { result.payload.now ≡ payload.entry.now }
        ensures same_borrow { result.pen.ghost_name ≡ pen.entry.ghost_name }
        ensures same_pen { result.pen.now ≡ pen.old }
    {
        InsidePen { payload, pen }
    }
}

impl<'p, 'l, L: DeepPen> LinePen for InsidePen<'p, 'l, L> {
    ghost use Rattle.bi_describe.specs.InsidePens.{InsidePuts, inside_puts_in_turn};
    ghost use Rattle.bi_describe.specs.InsidePens.{inside_puts_nothing};

    ghost puts = { InsidePuts L.puts };

    fn put_word(&mut self, word: Field) {
        match word {
            Field::Path(names) => self.pen.put_path_inside(self.payload, names),
            _ => self.pen.put_word(word),
        }
    }

    fn end_line(&mut self) {
        self.pen.end_line();
    }

    ghost puts_nothing = { inside_puts_nothing L.puts L.puts_nothing };

    ghost puts_in_turn = { inside_puts_in_turn L.puts L.puts_in_turn };
}

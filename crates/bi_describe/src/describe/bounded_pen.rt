//! A pen that counts the bytes up to a limit.

ghost use Rattle.std.specs.Prelude.{◌≡◌, ◌≤◌, ◌<◌, ℕ, IfErr, List, OnOk, Some, length};
ghost use Rattle.bi_base.specs.Reading.{too_large};
ghost use Rattle.bi_describe.specs.BoundedPens.{BoundedPuts, TakesRoom};
ghost use Rattle.bi_describe.specs.BoundedPens.{bounded_puts_in_turn, bounded_puts_nothing};

use bi_base::{Cause, Fault, Pen, refuse};

/// A pen that keeps no bytes, and has room for as many as its limit.
#[derive(Clone, Copy)]
pub(super) struct BoundedPen {
    /// How many more bytes it has room for. None if more than its limit were put.
    room: Option<usize>,
}

impl BoundedPen {
    /// Returns a pen that nothing was put to.
    pub(super) fn new(limit: u32) -> BoundedPen
        ensures { result.room ≡ Some limit }
    {
        BoundedPen {
            room: Some(limit as usize),
        }
    }

    /// Checks that no more bytes than this limit were put to a pen with this limit.
    ///
    /// Error: TooLarge at the limit, if more were put.
    pub(super) fn check(self, limit: u32) -> Result<(), Fault>
        ensures ok { OnOk result ((text : List ℕ) → TakesRoom (Some limit) (length text)
            self.room → length text ≤ limit) }
        ensures fault { IfErr result (λ fault. (fault ≡ too_large limit)
            × ((text : List ℕ) → TakesRoom (Some limit) (length text) self.room
            → limit < length text)) }
    {
        match self.room {
            Some(_) => Ok(()),
            None => refuse(Cause::TooLarge, limit),
        }
    }
}

impl Pen for BoundedPen {
    ghost puts = { BoundedPuts };

    /// Counts the given bytes.
    fn put(&mut self, bytes: &[u8]) {
        self.room = match self.room {
            Some(room) => room.checked_sub(bytes.len()),
            None => None,
        };
    }

    fn has_failed(&self) -> bool {
        self.room.is_none()
    }

    ghost puts_nothing = { bounded_puts_nothing };

    ghost puts_in_turn = { bounded_puts_in_turn };
}

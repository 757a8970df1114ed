//! Scripts: what each call of a reader or a writer does.

ghost use Rattle.std.specs.Prelude.{◌≡◌, ◌≢◌, ◌+◌, ◌%◌, ◌<◌, ◌≤◌, ℕ};

use std::io::{self, ErrorKind};
use std::num::NonZeroU64;

/// What one call does.
#[derive(Clone, Copy, Debug, PartialEq, Eq)]
pub enum Turn {
    /// It reads or writes as many bytes as it can.
    TakesAll,
    /// It reads or writes this many bytes, or all if there are fewer. A read returns at least one
    /// byte before the end.
    Takes(usize),
    /// It is interrupted, and reads or writes nothing.
    IsInterrupted,
    /// It fails, as on a broken pipe, and reads or writes nothing.
    Fails,
}

/// What each call does: one turn for some calls in a row, and another turn for all others. A
/// script with a period begins again after that many calls.
#[derive(Clone, Copy, Debug, PartialEq, Eq)]
pub struct Script {
    first: u64,
    calls: u64,
    turn: Turn,
    others: Turn,
    period: Option<NonZeroU64>,
}

impl Script {
    ghost use Rattle.scripted_io.specs.Script.{turn_at, Follows};

    /// Returns the script in which each call has the given turn.
    pub fn always(turn: Turn) -> Script
        ensures { (number : ℕ) → turn_at result number ≡ turn }
    {
        Script {
            first: 0,
            calls: 0,
            turn,
            others: turn,
            period: None,
        }
    }

    /// Returns the script in which call `number`, counted from 0, fails, and all other calls have
    /// the turn `others`.
    pub fn failing_among(number: u64, others: Turn) -> Script
        ensures fails { turn_at result number ≡ Turn.Fails }
        ensures others { (other : ℕ) → other ≢ number → turn_at result other ≡ others }
    {
        Script {
            first: number,
            calls: 1,
            turn: Turn::Fails,
            others,
            period: None,
        }
    }

    /// Returns the script in which the first `calls` calls have the turn `turn`, and all later
    /// calls have `then`.
    pub fn first(calls: u64, turn: Turn, then: Turn) -> Script
        ensures turn { (number : ℕ) → number < calls → turn_at result number ≡ turn }
        ensures then { (number : ℕ) → calls ≤ number → turn_at result number ≡ then }
    {
        Script {
            first: 0,
            calls,
            turn,
            others: then,
            period: None,
        }
    }

    /// Returns the script in which `calls` calls have the turn `turn` and the next one has `then`,
    /// again and again.
    pub fn repeated(calls: u32, turn: Turn, then: Turn) -> Script
        ensures turn { (number : ℕ) → number % (calls + 1) < calls → turn_at result number ≡ turn }
        ensures then { (number : ℕ) → number % (calls + 1) ≡ calls → turn_at result number ≡ then }
    {
        Script {
            first: 0,
            calls: u64::from(calls),
            turn,
            others: then,
            period: NonZeroU64::new(u64::from(calls) + 1),
        }
    }

    /// Returns the turn of call `number`, counted from 0.
    fn turn(self, number: u64) -> Turn
        ensures { result ≡ turn_at self number }
    {
        let place = match self.period {
            Some(period) => number % period,
            None => number,
        };
        if self.first <= place && place - self.first < self.calls {
            self.turn
        } else {
            self.others
        }
    }

    /// Returns how many bytes call `number` may read or write, or fails as that call does.
    pub(crate) fn most(self, number: u64) -> io::Result<usize>
        ensures { Follows (turn_at self number) (λ most. result ≡ Ok most) result }
    {
        match self.turn(number) {
            Turn::TakesAll => Ok(usize::MAX),
            Turn::Takes(count) => Ok(count),
            Turn::IsInterrupted => Err(io::Error::from(ErrorKind::Interrupted)),
            Turn::Fails => Err(io::Error::from(ErrorKind::BrokenPipe)),
        }
    }
}

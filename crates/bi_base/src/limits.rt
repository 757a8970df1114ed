//! Limits on the sizes of files and on the depth of trees.

ghost use Rattle.std.specs.Prelude.{◌≡◌, ◌≤◌, ◌↔◌, IsSome, IfSome};
ghost use Rattle.bi_base.specs.Limits.{Limits, IsInRange};

use std::marker::Model;

/// The limits of a call. `file` is the greatest length in bytes of an input, and of an image or
/// payload that is written. `depth` is the greatest number of nodes of a blob's tree that are open
/// at once, including the root.
#[derive(Clone, Copy, Debug, PartialEq, Eq)]
pub struct Limits {
    file: u32,
    depth: u8,
}

impl Model for Limits {
    ghost Value = { Limits };

    ghost view = { λ limits. record { file = limits.file; depth = limits.depth } };

    ghost inverse = { λ bounds. record { file = bounds.file; depth = bounds.depth } };

    ghost invariant = { λ limits. IsInRange limits.file limits.depth };
}

impl Limits {
    /// Returns the limits with these bounds. Returns None unless `file` is 64 to 0x7fffffff and
    /// `depth` is 1 to 64.
    ///
    /// # Example
    ///
    /// ```
    /// use bi_base::Limits;
    ///
    /// assert!(rt; Limits::new(0x7fff_ffff, 64).is_some());
    /// assert!(rt; Limits::new(63, 64).is_none());
    /// ```
    pub fn new(file: u32, depth: u8) -> Option<Limits>
        ensures in_range { IsSome result ↔ IsInRange file depth }
        ensures value { IfSome result (λ limits. limits ≡ record { file = file; depth = depth }) }
    {
        if (64..=0x7fff_ffff).contains(&file) && (1..=64).contains(&depth) {
            Some(Limits { file, depth })
        } else {
            None
        }
    }

    /// Returns the greatest length in bytes of an input, and of an image or payload that is
    /// written: 64 to 0x7fffffff.
    pub fn file(self) -> u32
        ensures value { result ≡ self.file }
        ensures least { 64 ≤ result }
        ensures most { result ≤ 0x7fffffff }
    {
        self.file
    }

    /// Returns the greatest number of nodes of a blob's tree that are open at once, including the
    /// root: 1 to 64.
    pub fn depth(self) -> u8
        ensures value { result ≡ self.depth }
        ensures least { 1 ≤ result }
        ensures most { result ≤ 64 }
    {
        self.depth
    }
}

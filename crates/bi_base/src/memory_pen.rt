//! A pen that keeps the text in memory.

ghost use Rattle.std.specs.Prelude.{◌≡◌, ℕ, List, [], Option, Some, None, IfOk, IfErr};
ghost use Rattle.std.specs.Option.{option_map};
ghost use Rattle.bi_base.specs.MemoryPens.{MemoryPuts, memory_puts_nothing, memory_puts_in_turn};
ghost use Rattle.bi_base.specs.declared.fault.Error.TheVariants.{OutOfMemory};

use crate::fault::Error;
use crate::pens::Pen;
use std::alloc::Global;
use std::marker::Model;

/// A pen that keeps the text in memory. Contracts see it as the text, or as nothing if an
/// allocation has failed.
#[derive(Drop)]
pub struct MemoryPen {
    text: Option<Vec<u8>>,
}

impl Model for MemoryPen {
    ghost Value = { Option (List ℕ) };

    ghost view = { λ pen. option_map (λ text. text.items) pen.text };
}

impl MemoryPen {
    /// Returns a pen without a text. It allocates nothing yet.
    pub fn new(alloc: Global) -> MemoryPen
        ensures { result ≡ Some [] }
    {
        MemoryPen {
            text: Some(Vec::new(alloc)),
        }
    }

    /// Returns the whole text that was put. Fails with `OutOfMemory` if and only if an allocation
    /// for the text has failed.
    pub fn into_vec(self) -> Result<Vec<u8>, Error>
        ensures text { IfOk result (λ text. self ≡ Some text.items) }
        ensures failed { IfErr result (λ error. (self ≡ None) × (error ≡ OutOfMemory)) }
    {
        let MemoryPen { text } = self;
        text.ok_or(Error::OutOfMemory)
    }
}

impl Pen for MemoryPen {
    ghost puts = { MemoryPuts };

    /// Appends the given bytes to the text. If memory runs out, the text is dropped.
    fn put(&mut self, bytes: &[u8]) {
        if let Some(text) = &mut self.text {
            if text.extend_from_slice(bytes).is_err() {
                self.text = None;
            }
        }
    }

    fn has_failed(&self) -> bool {
        self.text.is_none()
    }

    ghost puts_nothing = { memory_puts_nothing };

    ghost puts_in_turn = { memory_puts_in_turn };
}

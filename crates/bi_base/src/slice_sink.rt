//! A sink that writes to a slice.

ghost use Rattle.std.specs.Prelude.{◌≡◌, OnErr};
ghost use Rattle.bi_base.specs.Sinks.{Wrote};

use crate::fault::Error;
use crate::sinks::Sink;

/// A sink that writes the bytes to the beginning of a slice, which it borrows. It allocates
/// nothing.
#[derive(Drop)]
pub struct SliceSink<'a> {
    bytes: &'a mut [u8],
    filled: usize,
}

impl<'a> SliceSink<'a> {
    ghost use Rattle.bi_base.specs.SliceSinks.{slice_of, filled_of};

    /// Returns a sink that writes to `bytes`, and has written nothing yet.
    pub fn new(bytes: &'a mut [u8]) -> SliceSink<'a>
        ensures same_slice { (slice_of result).ghost_name ≡ bytes.entry.ghost_name }
        ensures value { (slice_of result).now ≡ bytes.old }
        ensures none_filled { filled_of result ≡ 0 }
    {
        SliceSink { bytes, filled: 0 }
    }
}

impl<'a> Sink for SliceSink<'a> {
    ghost use Rattle.bi_base.specs.SliceSinks.{SliceGrows, SliceFails, slice_grows_nothing};
    ghost use Rattle.bi_base.specs.SliceSinks.{slice_grows_in_turn, slice_fails_after};
    ghost use Rattle.bi_base.specs.SliceSinks.{slice_fails_before};

    ghost appends = { SliceGrows };

    ghost fails = { SliceFails };

    /// Writes the given bytes after those that were written before. The only error is
    /// `WriteFailed`, if the slice does not have room for them. Nothing is then written.
    fn put(&mut self, bytes: &[u8]) -> Result<(), Error>
        ensures wrote { Wrote ⟦<SliceSink<'a> as Sink>⟧.appends ⟦<SliceSink<'a> as Sink>⟧.fails
            self.old bytes.now result self.new }
        ensures unchanged { OnErr result (self.new ≡ self.old) }
    {
        let size = self.bytes.len();
        if self.filled > size || size - self.filled < bytes.len() {
            return Err(Error::WriteFailed);
        }
        let end = self.filled + bytes.len();
        self.bytes[self.filled..end].copy_from_slice(bytes);
        self.filled = end;
        Ok(())
    }

    ghost appends_nothing = { slice_grows_nothing };

    ghost appends_in_turn = { slice_grows_in_turn };

    ghost fails_after = { slice_fails_after };

    ghost fails_before = { slice_fails_before };
}

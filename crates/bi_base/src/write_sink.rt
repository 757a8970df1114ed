//! A sink that writes the bytes to a writer.

ghost use Rattle.std.specs.Prelude.{◌≡◌, [], IfErr};
ghost use Rattle.bi_base.specs.Sinks.{FailsWithin};
ghost use Rattle.bi_base.specs.SinkLaws.{fails_after, fails_before};
ghost use Rattle.bi_base.specs.declared.fault.Error.TheVariants.{WriteFailed};

use crate::fault::Error;
use crate::sinks::Sink;
use crate::traced_write::TracedWriter;
use crate::writing::{flush, write_all};
use std::io::Write;

/// A sink that writes the bytes to a writer, which it borrows. It does not buffer them.
#[derive(Drop)]
pub struct WriteSink<'a, W> {
    writer: &'a mut W,
}

impl<'a, W: Write> WriteSink<'a, W> {
    ghost use Rattle.bi_base.specs.WriteSinks.{writer_of};

    /// Returns a sink that writes to this writer.
    pub fn new(writer: &'a mut W) -> WriteSink<'a, W>
        ensures same_writer { (writer_of result).ghost_name ≡ writer.entry.ghost_name }
        ensures value { (writer_of result).now ≡ writer.old }
    {
        WriteSink { writer }
    }

    /// Flushes the writer, and appends nothing.
    ///
    /// The only error is `WriteFailed`, after a failed flush. A plain writer does not record a
    /// failed call, so the contract cannot state why the error occurs, or that no failed flush is
    /// ignored. `BufferedSink::finish` promises both.
    pub fn finish(&mut self) -> Result<(), Error>
        ensures nothing { ⟦<WriteSink<'a, W> as Sink>⟧.appends self.old [] self.new }
        ensures failed { IfErr result (λ error. error ≡ WriteFailed) }
    {
        let mut target = TracedWriter::new(self.writer);
        flush(&mut target)
    }
}

impl<'a, W: Write> Sink for WriteSink<'a, W> {
    ghost use Rattle.bi_base.specs.WriteSinks.{WriterGrows, IsWriteFailed, writer_grows_nothing};
    ghost use Rattle.bi_base.specs.WriteSinks.{writer_grows_in_turn};

    ghost appends = { WriterGrows W.contents };

    ghost fails = { FailsWithin (WriterGrows W.contents) IsWriteFailed };

    /// Writes the given bytes, in as many calls as it takes. The only error is `WriteFailed`. A
    /// prefix of the bytes was then written.
    fn put(&mut self, bytes: &[u8]) -> Result<(), Error> {
        let mut target = TracedWriter::new(self.writer);
        write_all(&mut target, bytes)
    }

    ghost appends_nothing = { writer_grows_nothing W.contents };

    ghost appends_in_turn = { writer_grows_in_turn W.contents };

    ghost fails_after = { fails_after (WriterGrows W.contents) IsWriteFailed
        (writer_grows_in_turn W.contents) };

    ghost fails_before = { fails_before (WriterGrows W.contents) IsWriteFailed };
}

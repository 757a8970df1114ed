//! Commands on one image of several.

ghost use Rattle.bi_common.specs.Shown.{shown_text};
ghost use Rattle.bi_labels.specs.LabelledCommands.{labelled_laws, labelled_promise};

use crate::labelled_text::put_labelled;
use bi_base::{Command, Limits, Sink, SinkPen, VecSink};
use bi_common::format::Format;
use std::alloc::Global;

/// A command whose output has the name of the image in each line, as `put_labelled` puts it.
#[derive(Clone, Copy)]
pub struct LabelledCommand<'a, C> {
    /// The command.
    pub command: &'a C,
    /// The form of what the command writes.
    pub format: Format,
    /// The name of the image, which is printed as names are. An empty name is printed as `-`.
    pub name: &'a [u8],
}

impl<'a, C: Command> Command for LabelledCommand<'a, C> {
    type Value = C::Value;

    type Failure = C::Failure;

    ghost can_run = { λ labelled. C.can_run labelled.command.now };

    ghost promise = { λ labelled limits. labelled_promise labelled.format
        (shown_text labelled.name.now) (C.promise labelled.command.now limits) };

    /// Appends the output of the command with the name. The errors are those of the command, and
    /// that of missing memory, since the output is held in memory first.
    fn run<S: Sink>(
        &self,
        alloc: Global,
        input: &[u8],
        limits: Limits,
        sink: &mut S,
    ) -> Result<C::Value, C::Failure> {
        let mut held = VecSink::new(alloc);
        let value = self.command.run(alloc, input, limits, &mut held)?;
        let text = held.into_vec();
        let mut pen = SinkPen::new(sink);
        put_labelled(&text, self.name, self.format, &mut pen);
        pen.result()?;
        Ok(value)
    }

    ghost wraps_from = { λ labelled. C.wraps_from labelled.command.now };

    ghost laws = { λ labelled limits. labelled_laws labelled.format (shown_text labelled.name.now)
        (C.promise labelled.command.now limits) (C.laws labelled.command.now limits) };
}

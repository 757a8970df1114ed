//! The lines that the program writes to standard error.

ghost use Rattle.std.specs.Prelude.{◌≡◌, option_map};
ghost use Rattle.bootimg.specs.ErrorLines.{Extends, line_of};
ghost use Rattle.bootimg.specs.Failures.{name_text};
ghost use Rattle.bootimg.specs.Hints.{hint_line, hint_text};
ghost use Rattle.bootimg.specs.Runs.{Notes, NotesAlignment, NotesCount, Reports};
ghost use Rattle.bootimg.specs.Runs.{alignment_line, failure_line, inside_line, note_line};
ghost use Rattle.bootimg.specs.Runs.{positions_line};

use crate::command_line::ImageSource;
use crate::error_line::ErrorLine;
use crate::failure::Failure;
use crate::hints::Hint;
use crate::tasks::Done;
use bi_base::TracedWrite;

/// The exit status after any failure.
pub const FAILED: u8 = 2;

/// Writes the line of a failure with an image from this source, and a hint after it, if there is
/// one, and returns the exit status. The line has the name of the file if the failure is about the
/// image. A failed write is ignored.
pub fn report_failure<E: TracedWrite>(
    source: ImageSource<'_>,
    failure: Failure<'_>,
    hint: Option<Hint<'_>>,
    errors: &mut E,
) -> u8
    ensures line { Reports source.entry failure.entry (option_map hint_text hint.entry)
        (E.trace errors.old) (E.trace errors.new) }
    ensures status { result ≡ 2 }
{
    let mut line = ErrorLine::new(errors);
    put_failure(source, failure, &mut line);
    put_hint(hint, &mut line);
    line.write_held();
    FAILED
}

/// Appends the line of a failure.
fn put_failure<E: TracedWrite>(
    source: ImageSource<'_>,
    failure: Failure<'_>,
    line: &mut ErrorLine<'_, E>,
)
    ensures { Extends (line_of E.trace line.old) (failure_line source.entry failure.entry)
        (line_of E.trace line.new) }
{
    line.put(b"bootimg: ");
    put_source(source, failure, line);
    failure.put_text(line);
    line.put(b"\n");
}

/// Appends the line of a hint, if there is one.
fn put_hint<E: TracedWrite>(hint: Option<Hint<'_>>, line: &mut ErrorLine<'_, E>)
    ensures { Extends (line_of E.trace line.old)
        (hint_line (option_map hint_text hint.entry)) (line_of E.trace line.new) }
{
    if let Some(hint) = hint {
        line.put(b"bootimg: hint: ");
        hint.put_text(line);
        line.put(b"\n");
    }
}

/// Appends the name of the file, if the failure is about an image in a file.
fn put_source<E: TracedWrite>(
    source: ImageSource<'_>,
    failure: Failure<'_>,
    line: &mut ErrorLine<'_, E>,
)
    ensures { Extends (line_of E.trace line.old) (name_text source.entry failure.entry)
        (line_of E.trace line.new) }
{
    match source {
        ImageSource::File(name) if failure.is_about_image() => {
            line.put_name(name.as_bytes());
            line.put(b": ");
        }
        _ => {}
    }
}

/// Writes the notes, each if there is something to say: on the signature nodes of a text, on
/// payloads that are inside it now, and on an alignment and fixed positions that it does not keep
/// of its input. A failed write is ignored.
pub fn put_notes<E: TracedWrite>(done: Done, errors: &mut E)
    ensures { Notes done (E.trace errors.old) (E.trace errors.new) }
{
    note_signatures(done.kept.signatures, errors);
    note_inside(done.inside, errors);
    note_alignment(done.kept.lost_alignment, errors);
    note_positions(done.kept.lost_positions, errors);
}

/// Writes the line on the signature nodes of a text, if there are any.
fn note_signatures<E: TracedWrite>(signatures: usize, errors: &mut E)
    ensures { NotesCount signatures (note_line signatures) (E.trace errors.old)
        (E.trace errors.new) }
{
    if signatures > 0 {
        let mut line = ErrorLine::new(errors);
        put_signatures(signatures, &mut line);
        line.write_held();
    }
}

/// Writes the line on payloads that are inside the blob now, if there are any.
fn note_inside<E: TracedWrite>(inside: usize, errors: &mut E)
    ensures { NotesCount inside (inside_line inside) (E.trace errors.old) (E.trace errors.new) }
{
    if inside > 0 {
        let mut line = ErrorLine::new(errors);
        put_inside(inside, &mut line);
        line.write_held();
    }
}

/// Writes the line on an alignment that payloads lose, if they lose one.
fn note_alignment<E: TracedWrite>(alignment: Option<u32>, errors: &mut E)
    ensures { NotesAlignment alignment (E.trace errors.old) (E.trace errors.new) }
{
    if let Some(bytes) = alignment {
        let mut line = ErrorLine::new(errors);
        put_alignment(bytes, &mut line);
        line.write_held();
    }
}

/// Writes the line on payloads with fixed positions, if there are any.
fn note_positions<E: TracedWrite>(positions: usize, errors: &mut E)
    ensures { NotesCount positions (positions_line positions) (E.trace errors.old)
        (E.trace errors.new) }
{
    if positions > 0 {
        let mut line = ErrorLine::new(errors);
        put_positions(positions, &mut line);
        line.write_held();
    }
}

/// Appends the line on the signature nodes of a text.
fn put_signatures<E: TracedWrite>(signatures: usize, line: &mut ErrorLine<'_, E>)
    ensures { Extends (line_of E.trace line.old) (note_line signatures) (line_of E.trace line.new) }
{
    line.put(b"bootimg: note: ");
    line.put_number(signatures);
    line.put(b" signature nodes carried, not checked\n");
}

/// Appends the line on payloads that are inside the blob now.
fn put_inside<E: TracedWrite>(inside: usize, line: &mut ErrorLine<'_, E>)
    ensures { Extends (line_of E.trace line.old) (inside_line inside) (line_of E.trace line.new) }
{
    line.put(b"bootimg: note: ");
    line.put_number(inside);
    line.put(b" payloads are inside the blob now, see --external\n");
}

/// Appends the line on an alignment in bytes that payloads lose.
fn put_alignment<E: TracedWrite>(bytes: u32, line: &mut ErrorLine<'_, E>)
    ensures { Extends (line_of E.trace line.old) (alignment_line bytes)
        (line_of E.trace line.new) }
{
    line.put(b"bootimg: note: payloads are no longer aligned to ");
    line.put_number(bytes as usize);
    line.put(b" bytes, see --align\n");
}

/// Appends the line on payloads with fixed positions.
fn put_positions<E: TracedWrite>(positions: usize, line: &mut ErrorLine<'_, E>)
    ensures { Extends (line_of E.trace line.old) (positions_line positions)
        (line_of E.trace line.new) }
{
    line.put(b"bootimg: note: ");
    line.put_number(positions);
    line.put(b" fixed positions of payloads were not kept\n");
}

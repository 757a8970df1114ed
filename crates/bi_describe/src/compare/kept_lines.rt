//! The lines of a description, kept in one text.

ghost use Rattle.std.specs.Prelude.{◌≡◌, ◌<◌, ◌≤◌, ◌+◌, IfOk, IsAscii, IsTrue, Option, drop};
ghost use Rattle.std.specs.Prelude.{length, string_bytes};
ghost use Rattle.bi_common.specs.Lines.{text_of_lines};
ghost use Rattle.bi_describe.specs.DescribedImages.{described_lines};
ghost use Rattle.bi_describe.specs.LineMarks.{marks_fit, cut_line as line_cut};
ghost use Rattle.bi_describe.specs.LineMarks.{cut_lines as lines_cut};
ghost use Rattle.bi_describe.specs.MadeLines.{compared_line, compared_lines};

use super::line_keeper::{LineKeeper, Mark};
use super::signed_lines::ComparedLine;
use crate::describe::DescribedImage;
use crate::describe::deep::DeepImage;
use crate::describe::insides::Insides;
use crate::describe::kept::KeptImage;
use crate::ignored::PayloadPlace;
use std::alloc::{AllocError, Global};

/// The lines of a description.
#[derive(Drop)]
pub(super) struct KeptLines {
    /// All lines, each with a newline.
    text: String,
    /// How long each line is, and its key.
    marks: Vec<Mark>,
    ghost ascii: { IsAscii (string_bytes text) },
    ghost fit: { IsTrue (marks_fit (string_bytes text) marks.items) },
}

impl KeptLines {
    ghost use Rattle.bi_describe.specs.KeptImages.{IsKeptImage, IsKeptAscii};
    ghost use Rattle.bi_describe.specs.DeepAscii.{IsAsciiDeep, IsAsciiShown};
    ghost use Rattle.bi_describe.specs.DeepDescriptions.{deep_lines, lines_with_inside};
    ghost use Rattle.bi_describe.specs.Devicetrees.{DeepMeaning};
    ghost use Rattle.bi_describe.specs.Ignoring.{PayloadPlace as PlaceOf};
    ghost use Rattle.bi_describe.specs.KeptLines.{KeepsLines};
    ghost use Rattle.bi_describe.specs.MadeInsides.{HoldInsides, HoldsDeep, shown_by};
    ghost use Rattle.bi_describe.specs.ReducedMeanings.{ReducedMeaning, ReducedTree, reduced_lines};

    /// Returns the lines of a description. Requires: they are ASCII.
    ///
    /// Fails only if memory runs out.
    pub(super) fn new(
        alloc: Global,
        described: &mut DescribedImage,
    ) -> Result<KeptLines, AllocError>
        requires { IsAscii (text_of_lines (described_lines described.old)) }
        ensures { IfOk result (KeepsLines (described_lines described.old)) }
    {
        let mut keeper = LineKeeper::new(alloc);
        described.put_lines(&mut keeper);
        let (text, marks) = keeper.into_parts()?;
        match String::from_utf8(text) {
            Ok(text) => Ok(KeptLines { text, marks }),
            Err(_) => unreachable!(),
        }
    }

    /// Returns the lines of what stays of an image. Requires: they are ASCII, and they are those of
    /// what stays.
    ///
    /// Fails only if memory runs out.
    pub(super) fn of_kept(alloc: Global, image: &KeptImage) -> Result<KeptLines, AllocError>
        requires { IsKeptAscii image.now }
        ensures { IfOk result (λ lines. (meaning : ReducedMeaning) → IsKeptImage meaning image.now
            → KeepsLines (reduced_lines meaning) lines) }
    {
        let mut keeper = LineKeeper::new(alloc);
        image.put_lines(alloc, &mut keeper)?;
        let (text, marks) = keeper.into_parts()?;
        match String::from_utf8(text) {
            Ok(text) => Ok(KeptLines { text, marks }),
            Err(_) => unreachable!(),
        }
    }

    /// Returns the lines of a deep description, which is no longer than the limit.
    ///
    /// Fails only if memory runs out, or if the description is longer.
    pub(super) fn of_deep(
        alloc: Global,
        deep: &mut DeepImage,
        limit: usize,
    ) -> Result<KeptLines, AllocError>
        requires { IsAsciiDeep deep.old }
        ensures kept { IfOk result (λ lines. (meaning : DeepMeaning) → HoldsDeep meaning deep.old
            → KeepsLines (deep_lines meaning) lines) }
        ensures within { IfOk result (λ lines. length (string_bytes lines.text) ≤ limit) }
        ensures same { (meaning : DeepMeaning) → HoldsDeep meaning deep.old
            → HoldsDeep meaning deep.new }
    {
        let mut keeper = LineKeeper::with_limit(alloc, limit);
        deep.put_lines(&mut keeper);
        let (text, marks) = keeper.into_parts()?;
        if limit < text.len() {
            return Err(AllocError);
        }
        match String::from_utf8(text) {
            Ok(text) => Ok(KeptLines { text, marks }),
            Err(_) => unreachable!(),
        }
    }

    /// Returns the lines of what stays of an image, but for those of these payloads, and of what is
    /// inside.
    ///
    /// Fails only if memory runs out.
    pub(super) fn of_kept_deep(
        alloc: Global,
        image: &KeptImage,
        insides: &mut Insides,
        opened: &[&PayloadPlace],
    ) -> Result<KeptLines, AllocError>
        requires { IsAsciiShown image.now insides.old opened.now }
        ensures { IfOk result (λ lines. (meaning : ReducedMeaning)
            (trees : PlaceOf → Option ReducedTree) → IsKeptImage meaning image.now
            → HoldInsides trees insides.old → KeepsLines
            (lines_with_inside (shown_by trees opened.now) (reduced_lines meaning)) lines) }
    {
        let mut keeper = LineKeeper::new(alloc);
        image.put_deep_lines(alloc, insides, opened, &mut keeper)?;
        let (text, marks) = keeper.into_parts()?;
        match String::from_utf8(text) {
            Ok(text) => Ok(KeptLines { text, marks }),
            Err(_) => unreachable!(),
        }
    }

    /// Returns the text of the lines, each with a newline.
    pub(super) fn text(&self) -> &str
        ensures { result.now ≡ string_bytes self.entry.now.text }
    {
        &self.text
    }

    /// Returns the lines.
    ///
    /// Fails only if memory runs out.
    pub(super) fn lines(&self, alloc: Global) -> Result<Vec<ComparedLine<'_>>, AllocError>
        ensures { IfOk result (λ lines. compared_lines lines.items
            ≡ lines_cut (string_bytes self.entry.now.text) self.entry.now.marks.items) }
    {
        cut_lines(alloc, &self.text, &self.marks)
    }
}

/// Returns the lines of a text, whose lengths are given. Requires: the text is ASCII, and as long
/// as all lines.
///
/// Fails only if memory runs out.
fn cut_lines<'a>(
    alloc: Global,
    text: &'a str,
    marks: &[Mark],
) -> Result<Vec<ComparedLine<'a>>, AllocError>
    requires ascii { IsAscii text.now }
    requires fit { IsTrue (marks_fit text.now marks.now) }
    ensures { IfOk result (λ lines. compared_lines lines.items
        ≡ lines_cut text.entry.now marks.now) }
{
    let mut lines = Vec::new(alloc);
    let mut rest = text;
    for mark in marks {
        let (line, later) = cut_line(rest, *mark);
        lines.push(line)?;
        rest = later;
    }
    Ok(lines)
}

/// Returns the first line of a text, whose length is given, and what follows its newline. Requires:
/// the text is ASCII, and longer than the line.
fn cut_line(text: &str, mark: Mark) -> (ComparedLine<'_>, &str)
    requires ascii { IsAscii text.now }
    requires len { mark.len < length text.now }
    requires key { mark.key ≤ mark.len }
    ensures line { compared_line result.0 ≡ line_cut text.entry.now mark }
    ensures rest { result.1.now ≡ drop (mark.len + 1) text.entry.now }
{
    let line = ComparedLine {
        text: &text[..mark.len],
        key: &text[..mark.key],
    };
    (line, &text[mark.len + 1..])
}

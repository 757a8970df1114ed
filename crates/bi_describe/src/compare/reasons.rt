//! Why two meanings differ.

ghost use Rattle.std.specs.Prelude.{◌≡◌, IfOk, List};
ghost use Rattle.bi_common.specs.Lines.{Line};
ghost use Rattle.bi_describe.specs.Comparing.{differences_or_reason as differences_or_reason_of};
ghost use Rattle.bi_describe.specs.Comparing.{kinds_differ as lines_for_kinds, lines_or};
ghost use Rattle.bi_describe.specs.Comparing.{reason as reason_of};
ghost use Rattle.bi_describe.specs.KeptLines.{KeepsLines};
ghost use Rattle.bi_describe.specs.MadeLines.{made_line, made_lines};

use super::differences::differences;
use super::kept_lines::KeptLines;
use super::signed_lines::{Sign, SignedLine};
use std::alloc::{AllocError, Global};

/// Returns the differences of two descriptions, or if they are none the line that has the reason.
///
/// Fails only if memory runs out.
pub(super) fn differences_or_reason<'a>(
    alloc: Global,
    one: &'a KeptLines,
    other: &'a KeptLines,
) -> Result<Vec<SignedLine<'a>>, AllocError>
    ensures { IfOk result (λ found. (lines other_lines : List Line)
        → KeepsLines lines one.entry.now → KeepsLines other_lines other.entry.now
        → made_lines found.items ≡ differences_or_reason_of lines other_lines) }
{
    let lines = one.lines(alloc)?;
    let other_lines = other.lines(alloc)?;
    let differences = differences(alloc, &lines, &other_lines)?;
    push_if_none(differences, reason(one.text(), other.text()))
}

/// Appends a line to lines that are none.
fn push_if_none<'a>(
    mut lines: Vec<SignedLine<'a>>,
    line: SignedLine<'a>,
) -> Result<Vec<SignedLine<'a>>, AllocError>
    ensures { IfOk result (λ all. made_lines all.items
        ≡ lines_or (made_lines lines.entry.items) (made_line line.entry)) }
{
    if lines.is_empty() {
        lines.push(line)?;
    }
    Ok(lines)
}

/// Returns the line that says why two meanings of these descriptions differ, if no line does.
fn reason(description: &str, other: &str) -> SignedLine<'static>
    ensures { made_line result ≡ reason_of description.now other.now }
{
    let text = if description == other {
        "payloads differ that have the same size and SHA-256"
    } else {
        "the same lines in another order or number"
    };
    SignedLine {
        sign: Sign::None,
        text,
    }
}

/// Returns the lines for meanings of these different kinds.
///
/// Fails only if memory runs out.
pub(super) fn kinds_differ<'a>(
    alloc: Global,
    kind: &'a str,
    other: &'a str,
) -> Result<Vec<SignedLine<'a>>, AllocError>
    ensures { IfOk result (λ lines. made_lines lines.items
        ≡ lines_for_kinds kind.entry.now other.entry.now) }
{
    let lines = [
        SignedLine {
            sign: Sign::Removed,
            text: kind,
        },
        SignedLine {
            sign: Sign::Added,
            text: other,
        },
    ];
    Ok(Vec::from_array(alloc, lines)?)
}

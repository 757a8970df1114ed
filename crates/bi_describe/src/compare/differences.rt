//! The differences of two lists of lines.

ghost use Rattle.std.specs.Prelude.{◌≡◌, ◌++◌, ◌∷◌, [], IfOk, OnOk, ℕ, List, drop, flat_map, take};
ghost use Rattle.bi_describe.specs.Differences.{differences as differences_of};
ghost use Rattle.bi_describe.specs.Differences.{lines_only_in as only_in};
ghost use Rattle.bi_describe.specs.Differences.{signed_lines as signed_lines_of};
ghost use Rattle.bi_describe.specs.Differences.{added_lines, has_text, is_counterpart_by};
ghost use Rattle.bi_describe.specs.Differences.{only_line, removed_lines};
ghost use Rattle.bi_describe.specs.LineSets.{HasLineTexts, HasKeys, HasFirst, HasMissing, set_has};
ghost use Rattle.bi_describe.specs.LineSets.{missing_line, numbered_text, text_at};
ghost use Rattle.bi_describe.specs.MadeLines.{compared_line, compared_lines, made_line};
ghost use Rattle.bi_describe.specs.MadeLines.{made_lines};

use super::signed_lines::{ComparedLine, Sign, SignedLine};
use bi_base::crc32;
use std::alloc::{AllocError, Global};
use std::collections::{BTreeMap, BTreeSet};

/// Returns the differences of two lists of lines.
///
/// Fails only if memory runs out.
pub(super) fn differences<'a>(
    alloc: Global,
    one: &[ComparedLine<'a>],
    other: &[ComparedLine<'a>],
) -> Result<Vec<SignedLine<'a>>, AllocError>
    ensures { IfOk result (λ lines. made_lines lines.items
        ≡ differences_of (compared_lines one.now) (compared_lines other.now)) }
{
    let removed = lines_only_in(alloc, one, other)?;
    let added = lines_only_in(alloc, other, one)?;
    signed_lines(alloc, &removed, &added)
}

/// Returns the lines of the first list that are not in the second one.
fn lines_only_in<'a>(
    alloc: Global,
    lines: &[ComparedLine<'a>],
    others: &[ComparedLine<'a>],
) -> Result<Vec<ComparedLine<'a>>, AllocError>
    ensures { IfOk result (λ only. compared_lines only.items
        ≡ only_in (compared_lines lines.now) (compared_lines others.now)) }
{
    let apart = lines_apart(alloc, lines, others)?;
    if apart.is_empty() {
        return Ok(apart);
    }
    let missing = missing_texts(alloc, &apart, others)?;
    missing_lines(alloc, &apart, &missing)
}

/// Returns the lines of the first list that are not equal to the line at the same place of the
/// second one. All others are in the second one.
fn lines_apart<'a>(
    alloc: Global,
    lines: &[ComparedLine<'a>],
    others: &[ComparedLine],
) -> Result<Vec<ComparedLine<'a>>, AllocError>
    ensures { IfOk result (λ apart.
        only_in (compared_lines apart.items) (compared_lines others.now)
        ≡ only_in (compared_lines lines.now) (compared_lines others.now)) }
{
    let mut apart = Vec::new(alloc);
    for index in 0..lines.len() {
        push_apart(&mut apart, &lines[index], others, index)?;
    }
    Ok(apart)
}

/// Appends a line, if it is not equal to the line at this place of the others.
fn push_apart<'a>(
    lines: &mut Vec<ComparedLine<'a>>,
    line: &ComparedLine<'a>,
    others: &[ComparedLine],
    index: usize,
) -> Result<(), AllocError>
    ensures { OnOk result (only_in (compared_lines lines.new.items) (compared_lines others.now)
        ≡ only_in (compared_lines lines.old.items) (compared_lines others.now)
        ++ only_line (has_text (compared_lines others.now)) (compared_line line.now)) }
{
    if !is_text_at(others, index, line.text) {
        lines.push(*line)?;
    }
    Ok(())
}

/// Returns whether the line at this place is there and has this text.
fn is_text_at(lines: &[ComparedLine], index: usize, text: &str) -> bool
    ensures { result ≡ has_text (take 1 (drop index (compared_lines lines.now))) text.now }
{
    match lines.get(index) {
        Some(line) => line.text == text,
        None => false,
    }
}

/// Returns the texts of the lines of the first list that no line of the second one has.
fn missing_texts<'a>(
    alloc: Global,
    lines: &[ComparedLine<'a>],
    others: &[ComparedLine<'a>],
) -> Result<BTreeSet<(u32, &'a str)>, AllocError>
    ensures { IfOk result (HasMissing (compared_lines lines.now) (compared_lines others.now)) }
{
    let mut missing = texts_of(alloc, lines)?;
    for line in others {
        missing.remove(&numbered(line.text));
    }
    Ok(missing)
}

/// Returns the lines whose texts are missing.
fn missing_lines<'a>(
    alloc: Global,
    lines: &[ComparedLine<'a>],
    missing: &BTreeSet<(u32, &'a str)>,
) -> Result<Vec<ComparedLine<'a>>, AllocError>
    ensures { IfOk result (λ only. compared_lines only.items
        ≡ flat_map (missing_line missing.now) (compared_lines lines.now)) }
{
    let mut only = Vec::new(alloc);
    for line in lines {
        push_missing(&mut only, line, missing)?;
    }
    Ok(only)
}

/// Appends a line, if its text is missing.
fn push_missing<'a>(
    lines: &mut Vec<ComparedLine<'a>>,
    line: &ComparedLine<'a>,
    missing: &BTreeSet<(u32, &'a str)>,
) -> Result<(), AllocError>
    ensures { OnOk result (compared_lines lines.new.items ≡ compared_lines lines.old.items
        ++ missing_line missing.now (compared_line line.now)) }
{
    if missing.contains(&numbered(line.text)) {
        lines.push(*line)?;
    }
    Ok(())
}

/// Returns a text with its number, which is its checksum. To order two such pairs, their texts are
/// read only if their numbers are the same.
fn numbered(text: &str) -> (u32, &str)
    ensures { result ≡ numbered_text text.entry }
{
    (crc32(text.as_bytes()), text)
}

/// Returns the texts of these lines.
fn texts_of<'a>(
    alloc: Global,
    lines: &[ComparedLine<'a>],
) -> Result<BTreeSet<(u32, &'a str)>, AllocError>
    ensures { IfOk result (HasLineTexts (compared_lines lines.now)) }
{
    let mut texts = BTreeSet::new(alloc);
    for line in lines {
        texts.insert(numbered(line.text))?;
    }
    Ok(texts)
}

/// Returns the keys of these lines.
fn keys_of<'a>(
    alloc: Global,
    lines: &[ComparedLine<'a>],
) -> Result<BTreeSet<(u32, &'a str)>, AllocError>
    ensures { IfOk result (HasKeys (compared_lines lines.now)) }
{
    let mut keys = BTreeSet::new(alloc);
    for line in lines {
        keys.insert(numbered(line.key))?;
    }
    Ok(keys)
}

/// Returns the text of the first of these lines for each key.
fn first_by_key<'a>(
    alloc: Global,
    lines: &[ComparedLine<'a>],
) -> Result<BTreeMap<(u32, &'a str), &'a str>, AllocError>
    ensures { IfOk result (HasFirst (compared_lines lines.now)) }
{
    let mut first = BTreeMap::new(alloc);
    // The first line of a key is inserted last, so it stays.
    for index in (0..lines.len()).rev() {
        first.insert(numbered(lines[index].key), lines[index].text)?;
    }
    Ok(first)
}

/// Returns the lines that were removed, each with its counterpart, and then the lines that were
/// added without the counterparts.
fn signed_lines<'a>(
    alloc: Global,
    removed: &[ComparedLine<'a>],
    added: &[ComparedLine<'a>],
) -> Result<Vec<SignedLine<'a>>, AllocError>
    ensures { IfOk result (λ lines. made_lines lines.items
        ≡ signed_lines_of (compared_lines removed.now) (compared_lines added.now)) }
{
    let first = first_by_key(alloc, added)?;
    let keys = keys_of(alloc, removed)?;
    let mut lines = Vec::new(alloc);
    push_removed(&mut lines, removed, &first)?;
    push_added(&mut lines, added, &first, &keys)?;
    Ok(lines)
}

/// Appends the lines that were removed, each with its counterpart.
fn push_removed<'a>(
    lines: &mut Vec<SignedLine<'a>>,
    removed: &[ComparedLine<'a>],
    first: &BTreeMap<(u32, &'a str), &'a str>,
) -> Result<(), AllocError>
    ensures { OnOk result (made_lines lines.new.items ≡ made_lines lines.old.items
        ++ flat_map (removed_lines (text_at first.now)) (compared_lines removed.now)) }
{
    for line in removed {
        push_removed_line(lines, line, first)?;
    }
    Ok(())
}

/// Appends a line that was removed, with its counterpart.
fn push_removed_line<'a>(
    lines: &mut Vec<SignedLine<'a>>,
    line: &ComparedLine<'a>,
    first: &BTreeMap<(u32, &'a str), &'a str>,
) -> Result<(), AllocError>
    ensures { OnOk result (made_lines lines.new.items ≡ made_lines lines.old.items
        ++ removed_lines (text_at first.now) (compared_line line.now)) }
{
    push(lines, Sign::Removed, line.text)?;
    match first.get(&numbered(line.key)) {
        Some(text) => push(lines, Sign::Added, text),
        None => Ok(()),
    }
}

/// Appends the lines that were added, but the counterparts.
fn push_added<'a>(
    lines: &mut Vec<SignedLine<'a>>,
    added: &[ComparedLine<'a>],
    first: &BTreeMap<(u32, &'a str), &'a str>,
    keys: &BTreeSet<(u32, &'a str)>,
) -> Result<(), AllocError>
    ensures { OnOk result (made_lines lines.new.items ≡ made_lines lines.old.items
        ++ flat_map (added_lines (set_has keys.now) (text_at first.now))
        (compared_lines added.now)) }
{
    for line in added {
        push_added_line(lines, line, first, keys)?;
    }
    Ok(())
}

/// Appends a line that was added, if it is not a counterpart.
fn push_added_line<'a>(
    lines: &mut Vec<SignedLine<'a>>,
    line: &ComparedLine<'a>,
    first: &BTreeMap<(u32, &'a str), &'a str>,
    keys: &BTreeSet<(u32, &'a str)>,
) -> Result<(), AllocError>
    ensures { OnOk result (made_lines lines.new.items ≡ made_lines lines.old.items
        ++ added_lines (set_has keys.now) (text_at first.now) (compared_line line.now)) }
{
    if is_counterpart(line, first, keys) {
        return Ok(());
    }
    push(lines, Sign::Added, line.text)
}

/// Appends a line with a sign.
fn push<'a>(lines: &mut Vec<SignedLine<'a>>, sign: Sign, text: &'a str) -> Result<(), AllocError>
    ensures { OnOk result (made_lines lines.new.items ≡ made_lines lines.old.items
        ++ record { sign = sign; text = text.entry.now } ∷ []) }
{
    lines.push(SignedLine { sign, text })?;
    Ok(())
}

/// Returns whether a line that was added is the counterpart of one that was removed.
fn is_counterpart<'a>(
    line: &ComparedLine<'a>,
    first: &BTreeMap<(u32, &'a str), &'a str>,
    keys: &BTreeSet<(u32, &'a str)>,
) -> bool
    ensures { result ≡ is_counterpart_by (set_has keys.now) (text_at first.now)
        (compared_line line.now) }
{
    let key = numbered(line.key);
    keys.contains(&key) && first.get(&key).copied() == Some(line.text)
}

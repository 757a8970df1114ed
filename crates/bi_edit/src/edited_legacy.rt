//! Editing a legacy image.

ghost use Rattle.std.specs.Prelude.{◌≡◌, ℕ, List, IfOk, IfErr, OnOk};
ghost use Rattle.bi_base.specs.Slices.{bytes_of};
ghost use Rattle.bi_edit.specs.Applying.{IsApplyError, IsErrorAt};
ghost use Rattle.bi_edit.specs.Edits.{AllHaveParts, IsFirstWithoutPart, LacksPart, edited_legacy};
ghost use Rattle.bi_edit.specs.Edits.{edits_of_turn, has_part, in_edit_order, legacy_after};
ghost use Rattle.bi_edit.specs.Edits.{with_field, with_part};
ghost use Rattle.bi_edit.specs.LegacyEdits.{IsMadeOfLegacy};
ghost use Rattle.bi_legacy.specs.Meaning.{image_of};

use crate::applying::ApplyError;
use crate::edit::{Edit, FieldValue, TURNS};
use crate::kinds::part_number;
use bi_legacy::{Fields, Legacy};
use std::alloc::{AllocError, Global};
use std::marker::Model;

/// The header fields and the parts of a legacy image that is edited.
#[derive(Drop)]
pub(crate) struct LegacyContent<'a> {
    /// The fields of the header.
    pub(crate) fields: Fields<'a>,
    /// The parts, in their order.
    pub(crate) parts: Vec<&'a [u8]>,
}

impl<'a> Model for LegacyContent<'a> {
    ghost use Rattle.bi_legacy.specs.Emitting.{image_of_parts};
    ghost use Rattle.bi_legacy.specs.Meaning.{LegacyImage};

    ghost Value = { LegacyImage };

    ghost view = { λ content. image_of_parts content.fields content.parts.items };
}

impl<'a> LegacyContent<'a> {
    /// Returns the fields and the parts of an image that was read. Fails if memory runs out.
    pub(crate) fn of(alloc: Global, image: &Legacy<'a>) -> Result<LegacyContent<'a>, AllocError>
        ensures { IfOk result (λ content. content ≡ image.now.image) }
    {
        let fields = image.fields();
        let mut parts = Vec::with_capacity(alloc, image.part_count())?;
        for part in image.parts() {
            parts.push(part.bytes)?;
        }
        Ok(LegacyContent { fields, parts })
    }

    /// Makes edits, in the order of their turns, and those with the same turn in their order. An
    /// edit that is not of a legacy image changes nothing.
    ///
    /// Fails with the first edit of a part that is not there, or if memory runs out. What the image
    /// then has is not specified.
    pub(crate) fn apply(&mut self, alloc: Global, edits: &'a [Edit<'a>]) -> Result<(), ApplyError>
        ensures edited { OnOk result
            (self.new ≡ legacy_after self.old (in_edit_order edits.entry.now)) }
        ensures found { OnOk result (AllHaveParts self.old (in_edit_order edits.entry.now)) }
        ensures failed { IfErr result (IsApplyError
            (IsFirstWithoutPart self.old (in_edit_order edits.entry.now)) edits.entry.now) }
    {
        for turn in 0..TURNS {
            self.apply_turn(alloc, edits, turn)?;
        }
        Ok(())
    }

    /// Makes those of these edits that have this turn, in their order.
    fn apply_turn(
        &mut self,
        alloc: Global,
        edits: &'a [Edit<'a>],
        turn: usize,
    ) -> Result<(), ApplyError>
        ensures edited { OnOk result
            (self.new ≡ legacy_after self.old (edits_of_turn turn edits.entry.now)) }
        ensures found { OnOk result (AllHaveParts self.old (edits_of_turn turn edits.entry.now)) }
        ensures failed { IfErr result (IsApplyError
            (IsFirstWithoutPart self.old (edits_of_turn turn edits.entry.now))
            edits.entry.now) }
    {
        for (index, edit) in edits.iter().enumerate() {
            if edit.turn() == turn {
                self.apply_at(alloc, edit, index)?;
            }
        }
        Ok(())
    }

    /// Makes the edit that has this index in its list.
    fn apply_at(
        &mut self,
        alloc: Global,
        edit: &'a Edit<'a>,
        index: usize,
    ) -> Result<(), ApplyError>
        ensures edited { OnOk result (self.new ≡ edited_legacy self.old edit.entry.now) }
        ensures found { OnOk result (LacksPart self.old edit.entry.now → ⊥) }
        ensures failed { IfErr result (IsErrorAt index (LacksPart self.old edit.entry.now)) }
    {
        if self.apply_one(alloc, edit)? {
            Ok(())
        } else {
            Err(ApplyError::FindsNothing(index))
        }
    }

    /// Makes an edit. Returns false if its part is not there. Fails if memory runs out.
    fn apply_one(&mut self, alloc: Global, edit: &'a Edit<'a>) -> Result<bool, AllocError>
        ensures { IfOk result (IsMadeOfLegacy self.old edit.entry.now self.new) }
    {
        match edit {
            Edit::SetField(value) => {
                self.fields = with_value(self.fields, value);
                Ok(true)
            }
            Edit::SetPayload(part, bytes) => {
                set_part(alloc, &mut self.parts, part.as_bytes(), bytes)
            }
            Edit::SetTime(time) => {
                self.fields.time = *time;
                Ok(true)
            }
            Edit::RemoveNode(_) | Edit::RemoveProperty(_) => Ok(true),
            Edit::SetProperty(_, _) | Edit::SetDigests => Ok(true),
        }
    }
}

/// Returns header fields with this value of one of them.
fn with_value<'a>(fields: Fields<'a>, value: &'a FieldValue) -> Fields<'a>
    ensures { (parts : List (List ℕ)) → image_of result parts
        ≡ with_field value.entry.now (image_of fields.entry parts) }
{
    match value {
        FieldValue::Name(name) => Fields { name, ..fields },
        FieldValue::Time(time) => Fields {
            time: *time,
            ..fields
        },
        FieldValue::Load(load) => Fields {
            load: *load,
            ..fields
        },
        FieldValue::Entry(entry) => Fields {
            entry: *entry,
            ..fields
        },
        FieldValue::Os(os) => Fields { os: *os, ..fields },
        FieldValue::Arch(arch) => Fields {
            arch: *arch,
            ..fields
        },
        FieldValue::Compression(compression) => Fields {
            compression: *compression,
            ..fields
        },
    }
}

/// Gives the part whose number has these decimal digits these bytes. Returns false if it is not
/// there. Fails if memory runs out.
fn set_part<'a>(
    alloc: Global,
    parts: &mut Vec<&'a [u8]>,
    digits: &[u8],
    bytes: &'a [u8],
) -> Result<bool, AllocError>
    ensures there { IfOk result (λ found.
        found ≡ has_part 0 digits.now (bytes_of parts.old.items)) }
    ensures set { IfOk result (λ found. bytes_of parts.new.items
        ≡ with_part 0 digits.now bytes.entry.now (bytes_of parts.old.items)) }
{
    let count = parts.len() as u64;
    let Some(number) = part_number(alloc, digits)? else {
        return Ok(false);
    };
    if number >= count {
        return Ok(false);
    }
    parts[number as usize] = bytes;
    Ok(true)
}

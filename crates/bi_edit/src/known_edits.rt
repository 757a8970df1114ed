//! A small tree and what it is after edits. Each function does nothing: its contract is the fact.

ghost use Rattle.bi_edit.specs.KnownEditedFiles.{EditBoundsAreKnown, EditErrorsAreKnown};
ghost use Rattle.bi_edit.specs.KnownEditedFiles.{EditedMeaningsAreKnown, FormsOfFilesAreKnown};
ghost use Rattle.bi_edit.specs.KnownEditedFiles.{PlacesAreKnown};
ghost use Rattle.bi_edit.specs.KnownEditNotes.{NotesOfAlignedAreKnown, NotesOfPositionAreKnown};
ghost use Rattle.bi_edit.specs.KnownEditOutputs.{EditFileErrorsAreKnown, EditedTextsAreKnown};
ghost use Rattle.bi_edit.specs.KnownEditWords.{EditWordsAreKnown, OtherEditWordsAreKnown};
ghost use Rattle.bi_edit.specs.KnownEdits.{EditsAreKnown, LegacyEditsAreKnown, OrderIsKnown};
ghost use Rattle.bi_edit.specs.KnownEdits.{EditRefusalsAreKnown};

/// A small tree has known nodes and properties after each kind of edit.
pub fn edits_are_known()
    ensures edits { EditsAreKnown }
{}

/// Edits are made in a known order.
pub fn order_is_known()
    ensures order { OrderIsKnown }
{}

/// A legacy image of two parts has known fields and parts after edits.
pub fn legacy_edits_are_known()
    ensures edits { LegacyEditsAreKnown }
{}

/// Edits that find nothing, that are of the other kind of image, or that cannot be made are
/// refused.
pub fn refusals_are_known()
    ensures refusals { EditRefusalsAreKnown }
{}

/// Words for edits are for known nodes, properties and values.
pub fn edit_words_are_known()
    ensures words { EditWordsAreKnown }
    ensures others { OtherEditWordsAreKnown }
{}

/// Boot images have known meanings after edits.
pub fn edited_meanings_are_known()
    ensures meanings { EditedMeaningsAreKnown }
{}

/// Files have known forms, and places of payloads are known to be outside the blob or fixed.
pub fn forms_of_files_are_known()
    ensures forms { FormsOfFilesAreKnown }
    ensures places { PlacesAreKnown }
{}

/// Edits of small boot images have known errors, and compute digests of payloads within known
/// bounds.
pub fn edit_errors_are_known()
    ensures bounds { EditBoundsAreKnown }
    ensures errors { EditErrorsAreKnown }
{}

/// A user should know of edits that move the payload of a small file into the blob, or that take
/// its position or its alignment, and of nothing else.
pub fn edit_notes_are_known()
    ensures position { NotesOfPositionAreKnown }
    ensures aligned { NotesOfAlignedAreKnown }
{}

/// Small boot images have known texts after edits.
pub fn edited_texts_are_known()
    ensures { EditedTextsAreKnown }
{
    bi_norm::laws::one_meaning();
}

/// Editing small files fails with known errors, and with no others.
pub fn edit_file_errors_are_known()
    ensures { EditFileErrorsAreKnown }
{
    bi_norm::laws::one_meaning();
}

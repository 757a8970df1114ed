//! What calls return for small files and concerns. Each function does nothing: what it ensures is a
//! fact about the definitions. Some of them call the function of a law, from which their facts
//! follow.

ghost use Rattle.bi_c.specs.KnownCalls.{ConcernElementsAreKnown, ConcernTextsAreKnown};
ghost use Rattle.bi_c.specs.KnownCalls.{OffsetsOfPayloadsAreKnown, CallNumbersAreKnown};
ghost use Rattle.bi_c.specs.KnownCalls.{CallAnswersAreKnown, ArgumentBoundsAreKnown};
ghost use Rattle.bi_c.specs.KnownCalls.{PiecesAreKnown};
ghost use Rattle.bi_c.specs.KnownCodeCalls.{NamesOfCodesAreKnown};
ghost use Rattle.bi_c.specs.KnownLegacyCalls.{HeaderCallsAreKnown, LegacyBuildingIsKnown};
ghost use Rattle.bi_c.specs.KnownLegacyCalls.{LegacySelectionsAreKnown, TextCallsAreKnown};
ghost use Rattle.bi_c.specs.KnownNotes.{NoteNumbersAreKnown};
ghost use Rattle.bi_c.specs.KnownTreeCalls.{TreeBuildingIsKnown, TreeReasonsAreKnown};
ghost use Rattle.bi_c.specs.KnownTreeCalls.{TreeSelectionsAreKnown};
ghost use Rattle.bi_c.specs.KnownValueCalls.{ValueCallsAreKnown};

/// The element of a concern of each kind is known.
pub fn concern_elements_are_known()
    ensures { ConcernElementsAreKnown }
{}

/// The texts that concerns have are known.
pub fn concern_texts_are_known()
    ensures { ConcernTextsAreKnown }
{}

/// The offsets of what is selected in small files are known.
pub fn offsets_of_payloads_are_known()
    ensures { OffsetsOfPayloadsAreKnown }
{}

/// The numbers that calls on small files return are known, and which file a failure is about.
pub fn call_numbers_are_known()
    ensures { CallNumbersAreKnown }
{
    bi_legacy::laws::one_meaning();
}

/// The image whose name and parts are pieces of a small input is known.
pub fn pieces_are_known()
    ensures { PiecesAreKnown }
{}

/// What a call leaves in a buffer and in the struct of the caller is known, and its status.
pub fn call_answers_are_known()
    ensures { CallAnswersAreKnown }
{}

/// The greatest numbers of forms, layouts, changes and kinds of concerns are known.
pub fn argument_bounds_are_known()
    ensures { ArgumentBoundsAreKnown }
{}

/// What the calls on the kind and the fields of a small file leave is known. So is what a cause
/// means.
pub fn header_calls_are_known()
    ensures { HeaderCallsAreKnown }
{}

/// What is in the buffer after normalising, updating, checking or showing a small legacy image is
/// known, and what a file without a magic number leaves.
pub fn text_calls_are_known()
    ensures { TextCallsAreKnown }
{
    bi_legacy::laws::one_meaning();
    bi_show::known_texts::pages_are_known();
}

/// The element of the concern about a small legacy image is known, and what is selected of it.
pub fn legacy_selections_are_known()
    ensures { LegacySelectionsAreKnown }
{
    bi_legacy::laws::one_meaning();
}

/// The legacy image that is built of the pieces of a small input is known, and why none is built.
pub fn legacy_building_is_known()
    ensures { LegacyBuildingIsKnown }
{}

/// What is selected of a small flattened image tree is known.
pub fn tree_selections_are_known()
    ensures { TreeSelectionsAreKnown }
{
    bi_legacy::laws::one_meaning();
}

/// The reasons why a small flattened image tree lacks what is looked up are known.
pub fn tree_reasons_are_known()
    ensures { TreeReasonsAreKnown }
{}

/// The flattened image tree that is built of the pieces of a small input is known, and why none is
/// built.
pub fn tree_building_is_known()
    ensures { TreeBuildingIsKnown }
{}

/// What the call that gets a value returns for a small file is known.
pub fn value_calls_are_known()
    ensures { ValueCallsAreKnown }
{
    bi_legacy::laws::one_meaning();
}

/// The names of some codes are known, the codes of some names, and which numbers are wrong. The
/// name of a code is the name of no other code.
pub fn names_of_codes_are_known()
    ensures { NamesOfCodesAreKnown }
{}

/// The numbers in the notes on the normal forms of small files are known.
pub fn note_numbers_are_known()
    ensures { NoteNumbersAreKnown }
{
    bi_legacy::laws::one_meaning();
}

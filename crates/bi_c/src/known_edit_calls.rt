//! What elements of edits are for, and what the calls that edit small files return. The function
//! does nothing: what it ensures are facts about the definitions. It calls the functions of other
//! facts, from which its own follow.

ghost use Rattle.bi_c.specs.KnownEditCalls.{EditArgumentsAreKnown, EditCallsAreKnown};
ghost use Rattle.bi_c.specs.KnownEditCalls.{EditElementsAreKnown};

/// What elements of edits are for is known, and so is what the calls that edit small files return,
/// and why they fail.
pub fn edit_calls_are_known()
    ensures elements { EditElementsAreKnown }
    ensures arguments { EditArgumentsAreKnown }
    ensures calls { EditCallsAreKnown }
{
    bi_legacy::laws::one_meaning();
}

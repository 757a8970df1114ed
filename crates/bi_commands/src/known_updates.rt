//! Small boot images with what they mean after an update. Each function does nothing: what it
//! ensures is a fact about the definitions. One of them calls the function of a law, from which its
//! facts follow.

ghost use Rattle.bi_commands.specs.KnownExtracts.{UpdatedTextsAreKnown};
ghost use Rattle.bi_commands.specs.KnownUpdates.{UpdatedMeaningsAreKnown};

/// A legacy image and a small tree have known meanings after an update of the time, of the digests
/// and of both.
pub fn updated_meanings_are_known()
    ensures { UpdatedMeaningsAreKnown }
{}

/// A small file has a known text after an update of the time.
pub fn updated_texts_are_known()
    ensures { UpdatedTextsAreKnown }
{
    bi_legacy::laws::one_meaning();
}

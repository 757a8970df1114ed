//! Small boot images with what stays of them once something is ignored, and words for that. Each
//! function does nothing: what it ensures is a fact about the definitions. Some of them call the
//! function of a law, from which their facts follow.

ghost use Rattle.bi_describe.specs.KnownComparedWithout.{ComparedWithoutIsKnown};
ghost use Rattle.bi_describe.specs.KnownComparedWithout.{IgnoredValuesAreKnown};
ghost use Rattle.bi_describe.specs.KnownComparedWithout.{IgnoringErrorsAreKnown};
ghost use Rattle.bi_describe.specs.KnownIgnored.{IgnoredWordsAreKnown, LegacyThatStaysIsKnown};
ghost use Rattle.bi_describe.specs.KnownIgnored.{SameWithoutIsKnown, TreesThatStayAreKnown};

/// The lines that stay of a small flattened image tree are known texts.
pub fn trees_that_stay_are_known()
    ensures { TreesThatStayAreKnown }
{}

/// The lines that stay of a small legacy image are known texts.
pub fn legacy_that_stays_is_known()
    ensures { LegacyThatStaysIsKnown }
{}

/// It is known of small images whether they are the same without something.
pub fn same_without_is_known()
    ensures { SameWithoutIsKnown }
{}

/// Known values are for known words, and others are for none.
pub fn ignored_words_are_known()
    ensures { IgnoredWordsAreKnown }
{}

/// Some values of an option are for known words, and the first that is for none is known.
pub fn ignored_values_are_known()
    ensures { IgnoredValuesAreKnown }
{}

/// What is written of small files that are compared without something is known.
pub fn compared_without_is_known()
    ensures { ComparedWithoutIsKnown }
{
    bi_legacy::laws::one_meaning();
}

/// It is known which error small files have that are compared without something.
pub fn ignoring_errors_are_known()
    ensures { IgnoringErrorsAreKnown }
{
    bi_legacy::laws::one_meaning();
}

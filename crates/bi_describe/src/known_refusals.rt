//! Small boot images that cannot be described or compared. Each function does nothing: what it
//! ensures is a fact about the definitions. One calls the function of a law, from which its fact
//! follows.

ghost use Rattle.bi_describe.specs.KnownRefusals.{DescribeErrorsAreKnown};
ghost use Rattle.bi_describe.specs.KnownRefusals.{DescriptionBoundsAreKnown};
ghost use Rattle.bi_describe.specs.KnownRefusals.{DescribingErrorsAreKnown, ReadingErrorsAreKnown};

/// An image whose description is as long as the limit can be described, and one whose description
/// or whose payloads are longer cannot.
pub fn description_bounds_are_known()
    ensures { DescriptionBoundsAreKnown }
{}

/// Describing small files fails with known errors, and with no others: with one for a file that is
/// refused, by running out of memory for one that can be described, and with either if the payloads
/// or the description are longer than the limit.
pub fn describe_errors_are_known()
    ensures { DescribeErrorsAreKnown }
{
    bi_legacy::laws::one_meaning();
}

/// If two images are too long to describe, the error names the first, and no error names the
/// second. If one is too long, the error names that one.
pub fn describing_errors_are_known()
    ensures { DescribingErrorsAreKnown }
{}

/// If two files mean nothing, the error names the first, and no error names the second. If one
/// means nothing, the error names that one.
pub fn reading_errors_are_known()
    ensures { ReadingErrorsAreKnown }
{}

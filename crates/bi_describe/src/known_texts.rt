//! Small boot images with their descriptions and differences. Each function does nothing: what it
//! ensures is a fact about the definitions. Some of them call the function of a law, from which
//! their facts follow.

ghost use Rattle.bi_describe.specs.KnownDescribedFiles.{ComparedTextsAreKnown};
ghost use Rattle.bi_describe.specs.KnownDescribedFiles.{DescribedFilesAreKnown};
ghost use Rattle.bi_describe.specs.KnownDescriptions.{DescriptionsAreKnown};
ghost use Rattle.bi_describe.specs.KnownDifferences.{DifferencesAreKnown, ComparisonsAreKnown};

/// The differences of small lists of lines are known texts.
pub fn differences_are_known()
    ensures { DifferencesAreKnown }
{}

/// The descriptions of small boot images are known texts.
pub fn descriptions_are_known()
    ensures { DescriptionsAreKnown }
{}

/// What differs between small boot images are known texts.
pub fn comparisons_are_known()
    ensures { ComparisonsAreKnown }
{}

/// The descriptions of the smallest flattened image tree are known, as text and as JSON.
pub fn described_files_are_known()
    ensures { DescribedFilesAreKnown }
{
    bi_legacy::laws::one_meaning();
}

/// What `compare` writes of small files is known, as text and as JSON, and so is whether they mean
/// the same thing: of one file beside itself, and of two that differ.
pub fn compared_texts_are_known()
    ensures { ComparedTextsAreKnown }
{
    bi_legacy::laws::one_meaning();
}

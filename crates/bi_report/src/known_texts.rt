//! Small boot images with what is listed, reported, checked and found of them. Each function does
//! nothing: what it ensures is a fact about the definitions. Some of them call the function of a
//! law, from which their facts follow.

ghost use Rattle.bi_report.specs.KnownChecks.{BuiltCheckIsKnown, CheckErrorsAreKnown};
ghost use Rattle.bi_report.specs.KnownChecks.{PayloadBoundIsKnown, ProtectionIsKnown};
ghost use Rattle.bi_report.specs.KnownConcerns.{ConcernsAreKnown, StrongAlgorithmsAreKnown};
ghost use Rattle.bi_report.specs.KnownConcerns.{SkippedHashesAreKnown};
ghost use Rattle.bi_report.specs.KnownConcerns.{TrailingBytesAreKnown, LegacyConcernsAreKnown};
ghost use Rattle.bi_report.specs.KnownConcerns.{AllowedKindsAreKnown};
ghost use Rattle.bi_report.specs.KnownOutputs.{VerifyOutputsAreKnown, CheckOutputsAreKnown};
ghost use Rattle.bi_report.specs.KnownOutputs.{JsonListingsAreKnown};
ghost use Rattle.bi_report.specs.KnownScans.{ClaimsAreKnown, OffsetsAreKnown, ScansAreKnown};
ghost use Rattle.bi_report.specs.KnownScans.{ScanErrorsAreKnown};
ghost use Rattle.bi_report.specs.KnownSignatures.{SignatureConcernsAreKnown};
ghost use Rattle.bi_report.specs.KnownSignedFiles.{SignedFileIsKnown};
ghost use Rattle.bi_report.specs.KnownTexts.{ReportsAreKnown, LegacyListingsAreKnown};
ghost use Rattle.bi_report.specs.KnownTexts.{FitListingIsKnown, EachSourceIsListed};
ghost use Rattle.bi_report.specs.KnownTexts.{ConfigurationLinesAreKnown};

/// The reports on a legacy image and on small trees are known texts, one with each verdict.
pub fn reports_are_known()
    ensures { ReportsAreKnown }
{}

/// The listings of a kernel image and of a multi-file image are known texts.
pub fn legacy_listings_are_known()
    ensures { LegacyListingsAreKnown }
{}

/// The listing of a file with three images, the payloads of which follow the blob, is a known text.
pub fn fit_listing_is_known()
    ensures { FitListingIsKnown }
{}

/// The listing of a file with images whose payloads are given by `data`, `data-position` and
/// `data-offset`, with a memory reservation and another boot processor than 0, is a known text.
pub fn each_source_is_listed()
    ensures { EachSourceIsListed }
{}

/// The lines of the configurations of a small tree, and of its default, are a known text, with a
/// line for each way in which a key lists images or none.
pub fn configuration_lines_are_known()
    ensures { ConfigurationLinesAreKnown }
{}

/// The concerns about small trees have known lines: about hash nodes of each verdict, lists of each
/// kind, a default that names no configuration, and bytes after an image.
pub fn concerns_are_known()
    ensures { ConcernsAreKnown }
{}

/// An image whose good verdicts are by CRC-32, MD5 or SHA-1 alone has a line, and one with a good
/// verdict by SHA-256, SHA-384 or SHA-512 has none.
pub fn strong_algorithms_are_known()
    ensures { StrongAlgorithmsAreKnown }
{}

/// A hash node that U-Boot skips has a line, and protects nothing. Only a property of four bytes
/// that are not all zero makes U-Boot skip it.
pub fn skipped_hashes_are_known()
    ensures { SkippedHashesAreKnown }
{}

/// The concerns about signatures have known lines, and known JSON: about a signed node and what it
/// does not cover, a configuration without one, and unit addresses.
pub fn signature_concerns_are_known()
    ensures { SignatureConcernsAreKnown }
{}

/// The concerns about a signed file of three images have known lines: about an image that the
/// signature does not cover, and about variants of the file.
pub fn signed_file_is_known()
    ensures { SignedFileIsKnown }
{}

/// The bytes after the payload that ends last, here that of the first image, are those that have a
/// line.
pub fn trailing_bytes_are_known()
    ensures { TrailingBytesAreKnown }
{}

/// The bytes after the last part of a legacy image, in its data or after that, are those that have
/// a line. If there are none, or if they are allowed, the image is clean.
pub fn legacy_concerns_are_known()
    ensures { LegacyConcernsAreKnown }
{
    bi_legacy::laws::one_meaning();
}

/// Each kind of concerns is allowed by its own name, and a lack of signatures is allowed unless it
/// is asked about.
pub fn allowed_kinds_are_known()
    ensures { AllowedKindsAreKnown }
{}

/// A small image tree with SHA-256 is built, and its text is clean: checking it can only run out of
/// memory.
pub fn built_check_is_known()
    ensures { BuiltCheckIsKnown }
{}

/// Some algorithms of hash nodes protect images, and others do so only if what is missing is
/// allowed.
pub fn protection_is_known()
    ensures { ProtectionIsKnown }
{}

/// A file whose images share a region holds too much only under a limit that is lower than the
/// length of its payloads together.
pub fn payload_bound_is_known()
    ensures { PayloadBoundIsKnown }
{}

/// Checking small files fails with known errors, and with no others: with one for a file that is
/// refused, by running out of memory for one that is accepted, and with either if the payloads are
/// longer together than the limit.
pub fn check_errors_are_known()
    ensures { CheckErrorsAreKnown }
{}

/// Small images have known claims: those that are whole, and those whose header fails a check.
pub fn claims_are_known()
    ensures { ClaimsAreKnown }
{}

/// The scans of small files are known texts, and no others.
pub fn scans_are_known()
    ensures { ScansAreKnown }
{
    bi_norm::laws::one_meaning();
}

/// Scanning small files fails with known errors, and with no others: within limits that are lower
/// than the length of the file or than the claims of its images together, and else only by running
/// out of memory.
pub fn scan_errors_are_known()
    ensures { ScanErrorsAreKnown }
{}

/// The images at offsets of a small file are known: the one that begins there, or an empty one
/// after the end.
pub fn offsets_are_known()
    ensures { OffsetsAreKnown }
{}

/// What `verify` writes of small files is known, as text and as JSON, and so is whether no verdict
/// in it is other than Good: of a legacy image, of trees without hash nodes, with a good one and
/// with a bad one.
pub fn verify_outputs_are_known()
    ensures { VerifyOutputsAreKnown }
{
    bi_legacy::laws::one_meaning();
}

/// What `check` writes of small files is known, as text and as JSON, and so is whether it leaves no
/// concern: of a file without a concern, and of one with a concern that is allowed or not.
pub fn check_outputs_are_known()
    ensures { CheckOutputsAreKnown }
{
    bi_legacy::laws::one_meaning();
}

/// The listings of small files as JSON are known texts: of a kernel image, of three images whose
/// payloads follow the blob, and of configurations.
pub fn json_listings_are_known()
    ensures { JsonListingsAreKnown }
{
    bi_legacy::laws::one_meaning();
}

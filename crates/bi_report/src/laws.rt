//! Laws of what is listed, reported, checked and found. Their functions do nothing: what each of
//! them ensures is the law.

ghost use Rattle.bi_report.specs.CleanFiles.{BuiltIsClean, BuiltTextIsClean, CheckTellsClean};
ghost use Rattle.bi_report.specs.CleanFiles.{EmptyIsClean};
ghost use Rattle.bi_report.specs.JsonLaws.{ConcernsAreJson, ListingsAreJson, ReportsAreJson};
ghost use Rattle.bi_report.specs.JsonLaws.{ScansAreJson};
ghost use Rattle.bi_report.specs.ScanLaws.{EachImageIsFound, FoundImagesAreFew, OneScan};
ghost use Rattle.bi_report.specs.ScanLaws.{ScanHasNoFault, ScannedImagesAreWhole};

/// Checking a boot image writes nothing if and only if the image is clean: if everything in it is
/// protected, but for what is allowed.
pub fn empty_is_clean()
    ensures { EmptyIsClean }
{}

/// The value of `check`, as text and as JSON, is whether the image is clean. So its exit status is
/// 0 if and only if the image is clean.
pub fn check_tells_clean()
    ensures { CheckTellsClean }
{}

/// A built image tree, which has no signature, is clean if and only if none is asked for, and it
/// has no images, or each of them has a hash node and one of a strong algorithm, but for what is
/// allowed.
pub fn built_is_clean()
    ensures { BuiltIsClean }
{}

/// The text of such a tree, in any form, is clean if and only if the tree is, and checking it has
/// no error but `OutOfMemory`, within limits that hold the text and four open nodes. So nothing
/// follows its payloads, and together they are within the limit. If one of the algorithms is
/// strong and no signature is asked for, checking it writes nothing.
pub fn built_text_is_clean()
    ensures { BuiltTextIsClean }
{}

/// A boot image that is found inside a file, cut out at its offset and with its extent, is accepted
/// within the same limits, and means what it means inside the file.
pub fn scanned_images_are_whole()
    ensures { ScannedImagesAreWhole }
{}

/// A scan of a file finds each boot image that is accepted at an offset of the file, and nothing
/// else.
pub fn each_image_is_found()
    ensures { EachImageIsFound }
{
    bi_norm::laws::one_meaning();
}

/// A file has at most one scan within limits, in each form.
pub fn one_scan()
    ensures { OneScan }
{
    bi_norm::laws::one_meaning();
}

/// A file with a scan within limits has no fault of a scan within them.
pub fn scan_has_no_fault()
    ensures { ScanHasNoFault }
{}

/// A scan finds at most one boot image for each 64 bytes of the limit: so many bytes each of them
/// claims at least.
pub fn found_images_are_few()
    ensures { FoundImagesAreFew }
{}

/// A listing in JSON is one line of JSON.
pub fn listings_are_json()
    ensures { ListingsAreJson }
{}

/// A report of `verify` in JSON is one line of JSON.
pub fn reports_are_json()
    ensures { ReportsAreJson }
{}

/// A scan in JSON is one line of JSON.
pub fn scans_are_json()
    ensures { ScansAreJson }
{}

/// The concerns that `check` writes in JSON are one line of JSON.
pub fn concerns_are_json()
    ensures { ConcernsAreJson }
{}

//! Laws of what a devicetree blob is. The functions do nothing: what each one ensures is the law.

ghost use Rattle.bi_blob.specs.BlobLaws.{OneBlob, FewerNodesThanBytes, BlobHasNoFault};
ghost use Rattle.bi_blob.specs.BlobLaws.{OneBlobFault};
ghost use Rattle.bi_blob.specs.BlobLaws.{BlobOrFault};
ghost use Rattle.bi_blob.specs.BlobLaws.{BlobWhereNoFault, PassedWhereEncoded};
ghost use Rattle.bi_blob.specs.BlobLaws.{ClosedEventsHaveOneTree, FaultBeforeTreeComesFirst};
ghost use Rattle.bi_blob.specs.BlobLaws.{NodesAreFound, PropertiesAreFound};
ghost use Rattle.bi_blob.specs.KnownBlobs.{FilesAreBlobs, TokensAreNewestFirst};
ghost use Rattle.bi_blob.specs.KnownFaults.{HeadersHaveFaults, HeaderChecksHaveOrder};
ghost use Rattle.bi_blob.specs.KnownFaults.{Version16HasFaults, ReservationsHaveFaults};
ghost use Rattle.bi_blob.specs.KnownFaults.{TokensHaveFaults, TokenChecksHaveOrder};

/// A file is a blob of at most one boot processor, one list of memory reservations and one tree.
pub fn a_file_is_one_blob()
    ensures { OneBlob }
{}

/// A blob has fewer nodes than the file has bytes, so that a count of nodes does not overflow.
pub fn a_blob_has_fewer_nodes_than_bytes()
    ensures { FewerNodesThanBytes }
{}

/// A file that is a blob within limits has no fault under them.
pub fn a_blob_has_no_fault()
    ensures { BlobHasNoFault }
{}

/// A file has at most one fault under limits.
pub fn a_file_has_one_fault()
    ensures { OneBlobFault }
{}

/// A file of bytes is a blob within limits, or it has a fault under them.
pub fn a_file_is_a_blob_or_has_a_fault()
    ensures { BlobOrFault }
{}

/// A file of bytes is a blob within limits if and only if it has no fault under them.
pub fn a_file_is_a_blob_where_it_has_no_fault()
    ensures { BlobWhereNoFault }
{}

/// Tokens of a structure block that pass their checks are encoded in the file. The padding of the
/// last of them may end in any three bytes after the file.
pub fn passed_tokens_are_encoded()
    ensures { PassedWhereEncoded }
{}

/// Events are those of a tree that a blob can hold, within a limit on depth, if and only if each of
/// them may follow those before it and the last ends the root. They are then the events of no other
/// tree (Devicetree Specification, 5.4.2).
pub fn closed_events_have_one_tree()
    ensures { ClosedEventsHaveOneTree }
{}

/// A fault in the header or the memory reservation block of a file is the fault of the file. If
/// there is none there, the fault of the file, if it has one, is in its structure block.
pub fn fault_before_tree_comes_first()
    ensures { FaultBeforeTreeComesFirst }
{}

/// If names are distinct, a node at an index of a list of siblings is found by its name, and so is
/// a property of a node. Nothing else is found by a name. The node at the next index is the first
/// of the later siblings.
pub fn names_find_nodes_and_properties()
    ensures nodes { NodesAreFound }
    ensures properties { PropertiesAreFound }
{}

/// Small files are blobs of known boot processors, memory reservations and trees. Among them are
/// files with FDT_NOP, names that share bytes, properties in any order, blocks that are in any
/// order, overlap or have free bytes around them, and bytes after the blob; and files of versions
/// 16 to 18. The first tokens of one of them pass their checks, and lead to a known offset and to
/// known open nodes.
pub fn files_are_these_blobs()
    ensures blobs { FilesAreBlobs }
    ensures tokens { TokensAreNewestFirst }
{}

/// Small files with wrong headers have known faults: each check of a header is the first that fails
/// in one of them. Of two checks that fail, the first gives the fault.
pub fn headers_have_these_faults()
    ensures headers { HeadersHaveFaults }
    ensures order { HeaderChecksHaveOrder }
{}

/// Wrong small files of version 16 have known faults: the header has 36 bytes, and the structure
/// block may extend to `totalsize`.
pub fn version_16_has_these_faults()
    ensures faults { Version16HasFaults }
{}

/// Small files with wrong memory reservations have known faults.
pub fn reservations_have_these_faults()
    ensures reservations { ReservationsHaveFaults }
{}

/// Small files with a wrong token have known faults: each check of a token is the first that fails
/// in one of them. Of two checks that fail, the first gives the fault.
pub fn tokens_have_these_faults()
    ensures tokens { TokensHaveFaults }
    ensures order { TokenChecksHaveOrder }
{}

//! Small legacy images with known meanings and faults. Each function does nothing: what it ensures
//! is a fact about the definitions.

ghost use Rattle.bi_legacy.specs.KnownFaults.{LegacyFilesHaveFaults, PartTablesHaveFaults};
ghost use Rattle.bi_legacy.specs.KnownFaults.{LegacyChecksHaveOrder, EmitFaultsAreKnown};
ghost use Rattle.bi_legacy.specs.KnownFaults.{EmitChecksHaveOrder};
ghost use Rattle.bi_legacy.specs.KnownFiles.{FreeBytesHaveNoMeaning};

/// Bytes after the zero of a name, after the data, between the parts and after the last part have
/// no meaning.
pub fn free_bytes_have_no_meaning()
    ensures { FreeBytesHaveNoMeaning }
{}

/// Files with a wrong header or wrong data have known faults: each check of header and data is the
/// first that fails in one of them.
pub fn legacy_files_have_faults()
    ensures { LegacyFilesHaveFaults }
{}

/// Multi-file images and scripts with a wrong part table have known faults.
pub fn part_tables_have_faults()
    ensures { PartTablesHaveFaults }
{}

/// Of two checks of a file that fail, the first in their order gives the fault.
pub fn legacy_checks_have_order()
    ensures { LegacyChecksHaveOrder }
{}

/// Small images that cannot be written have known faults, and others can be written: each check of
/// an image is the first that fails in one of them.
pub fn emit_faults_are_known()
    ensures { EmitFaultsAreKnown }
{}

/// Of two checks of an image that fail, the first in their order gives the fault.
pub fn emit_checks_have_order()
    ensures { EmitChecksHaveOrder }
{}

//! Laws of CRC-32. The functions do nothing: what each one ensures is the law.

ghost use Rattle.std.specs.Prelude.{◌≡◌, codes};
ghost use Rattle.bi_base.specs.Crc.{crc32, SameForEveryCut};
ghost use Rattle.bi_base.specs.CrcTables.{AreCrcTables};

use crate::crc_tables::TABLES;

/// The register after one piece and then another is the register after both together, wherever the
/// bytes are cut.
pub fn crc_is_the_same_for_every_cut()
    ensures { SameForEveryCut }
{}

/// The CRC-32 of the nine digits "123456789" is 0xcbf43926, the check value of this CRC.
pub fn crc_has_its_check_value()
    ensures { crc32 (codes "123456789") ≡ 0xcbf43926 }
{}

/// Every entry of the sixteen tables is the defined one: entry `i` of the first table is the
/// register `i` after eight message bits of zero, and each later table has the entries after eight
/// more.
pub fn crc_tables_are_their_definition()
    ensures { AreCrcTables TABLES }
{}

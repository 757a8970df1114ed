//! The kinds of boot images.

ghost use Rattle.std.specs.Prelude.{◌≡◌, IfOk, IfErr};
ghost use Rattle.bi_norm.specs.declared.kind.Kind.{Kind};
ghost use Rattle.bi_norm.specs.Kinds.{BeginsAs, IsKindFault};

use bi_base::{Cause, Fault, be32_at, refuse};
use bi_blob::format::MAGIC as BLOB_MAGIC;
use bi_legacy::MAGIC as LEGACY_MAGIC;

/// A kind of boot image.
#[derive(Clone, Copy, Debug, PartialEq, Eq)]
pub enum Kind {
    /// A legacy image: a header of 64 bytes and the data.
    Legacy,
    /// A flattened image tree in a devicetree blob.
    Fit,
}

/// Returns the kind of a file by its first four bytes. Fails with Truncated at 0, if the file has
/// fewer than four bytes, or else with BadMagic at 0, if they are not the magic number of a kind.
pub fn kind_of(file: &[u8]) -> Result<Kind, Fault>
    ensures ok { IfOk result (BeginsAs file.now) }
    ensures exactly { (kind : Kind) → BeginsAs file.now kind → result ≡ Ok kind }
    ensures fault { IfErr result (IsKindFault file.now) }
{
    match be32_at(file, 0) {
        None => refuse(Cause::Truncated, 0),
        Some(LEGACY_MAGIC) => Ok(Kind::Legacy),
        Some(BLOB_MAGIC) => Ok(Kind::Fit),
        Some(_) => refuse(Cause::BadMagic, 0),
    }
}

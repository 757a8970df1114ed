//! The fields of a legacy header.

ghost use Rattle.std.specs.Prelude.{◌≡◌};
ghost use Rattle.bi_legacy.specs.Meaning.{has_part_table as is_part_table_type};

use crate::codes::{IH_TYPE_MULTI, IH_TYPE_SCRIPT};

/// The fields of a legacy header (U-Boot, include/image.h), except the checksums and the data size,
/// which follow from these and the parts.
#[derive(Clone, Copy, Debug, PartialEq, Eq)]
pub struct Fields<'a> {
    /// The time of creation, in seconds since 1970.
    pub time: u32,
    /// The address that the data is loaded to.
    pub load: u32,
    /// The address of the entry point.
    pub entry: u32,
    /// The code of the operating system.
    pub os: u8,
    /// The code of the processor architecture.
    pub arch: u8,
    /// The code of the image type. The data of multi (4) and script (6) images begins with a part
    /// table.
    pub image_type: u8,
    /// The code of the compression.
    pub compression: u8,
    /// The name: at most 32 bytes, none of them zero.
    pub name: &'a [u8],
}

/// Returns whether the data of an image of this type begins with a part table.
pub(crate) fn has_part_table(image_type: u8) -> bool
    ensures { result ≡ is_part_table_type image_type }
{
    image_type == IH_TYPE_MULTI || image_type == IH_TYPE_SCRIPT
}

//! The keys of a configuration under which images of a type are listed.

ghost use Rattle.std.specs.Prelude.{◌≡◌};
ghost use Rattle.bi_norm.specs.Converting.{keys_of_type as keys_for};

use bi_fit::Key;
use bi_legacy::codes::{
    IH_TYPE_FIRMWARE, IH_TYPE_FLATDT, IH_TYPE_KERNEL, IH_TYPE_MULTI, IH_TYPE_RAMDISK,
    IH_TYPE_SCRIPT, IH_TYPE_STANDALONE,
};

/// Returns the keys of the images that the parts of a legacy image of this type become, in their
/// order. Returns no keys if the type cannot be converted.
pub(crate) fn keys_of_type(image_type: u8) -> &'static [Key]
    ensures { result.now ≡ keys_for image_type }
{
    match image_type {
        IH_TYPE_STANDALONE => &[Key::Loadables],
        IH_TYPE_KERNEL => &[Key::Kernel],
        IH_TYPE_RAMDISK => &[Key::Ramdisk],
        IH_TYPE_MULTI => &[Key::Kernel, Key::Ramdisk, Key::Fdt],
        IH_TYPE_FIRMWARE => &[Key::Firmware],
        IH_TYPE_SCRIPT => &[Key::Script],
        IH_TYPE_FLATDT => &[Key::Fdt],
        _ => &[],
    }
}

//! The properties of a configuration that list images.

ghost use Rattle.std.specs.Prelude.{◌≡◌};
ghost use Rattle.bi_fit.specs.Building.{type_name as type_name_of};
ghost use Rattle.bi_fit.specs.Names.{key_name};

/// A property of a configuration node that lists images by their names.
#[derive(Clone, Copy, Debug, PartialEq, Eq)]
pub enum Key {
    /// `kernel`.
    Kernel,
    /// `fdt`.
    Fdt,
    /// `ramdisk`.
    Ramdisk,
    /// `firmware`.
    Firmware,
    /// `loadables`.
    Loadables,
    /// `script`.
    Script,
}

impl Key {
    /// The keys, in the order in which configurations are shown.
    pub const ALL: [Key; 6] = [
        Key::Kernel,
        Key::Fdt,
        Key::Ramdisk,
        Key::Firmware,
        Key::Loadables,
        Key::Script,
    ];

    /// Returns the name of the property in a configuration node.
    pub fn name(self) -> &'static str
        ensures { result.now ≡ key_name self }
    {
        match self {
            Key::Kernel => "kernel",
            Key::Fdt => "fdt",
            Key::Ramdisk => "ramdisk",
            Key::Firmware => "firmware",
            Key::Loadables => "loadables",
            Key::Script => "script",
        }
    }

    /// Returns the name of the type of the images that are listed under this key (U-Boot,
    /// boot/image.c: `uimage_type`).
    pub fn type_name(self) -> &'static str
        ensures { result.now ≡ type_name_of self }
    {
        match self {
            Key::Kernel => "kernel",
            Key::Fdt => "flat_dt",
            Key::Ramdisk => "ramdisk",
            Key::Firmware => "firmware",
            Key::Loadables => "standalone",
            Key::Script => "script",
        }
    }
}

//! The codes in a legacy header, and their names, as U-Boot's commands print them.

ghost use Rattle.std.specs.Prelude.{◌≡◌, option_map};
ghost use Rattle.bi_legacy.specs.Codes.{name_of_code, os_names, arch_names, type_names};
ghost use Rattle.bi_legacy.specs.Codes.{compression_names};

/// The type of a standalone program (U-Boot, include/image.h).
pub const IH_TYPE_STANDALONE: u8 = 1;

/// The type of a kernel.
pub const IH_TYPE_KERNEL: u8 = 2;

/// The type of a RAM disk.
pub const IH_TYPE_RAMDISK: u8 = 3;

/// The type of a multi-file image.
pub const IH_TYPE_MULTI: u8 = 4;

/// The type of a firmware.
pub const IH_TYPE_FIRMWARE: u8 = 5;

/// The type of a script.
pub const IH_TYPE_SCRIPT: u8 = 6;

/// The type of a devicetree blob.
pub const IH_TYPE_FLATDT: u8 = 8;

/// Returns the name of an operating system's code (U-Boot, include/image.h: `IH_OS_*`). Returns
/// None if the code has no name here.
pub fn os_name(code: u8) -> Option<&'static str>
    ensures { option_map (λ name. name.now) result ≡ name_of_code os_names code }
{
    match code {
        2 => Some("netbsd"),
        5 => Some("linux"),
        14 => Some("vxworks"),
        17 => Some("u-boot"),
        _ => None,
    }
}

/// Returns the name of a processor architecture's code (U-Boot, include/image.h: `IH_ARCH_*`).
/// Returns None if the code has no name here.
pub fn arch_name(code: u8) -> Option<&'static str>
    ensures { option_map (λ name. name.now) result ≡ name_of_code arch_names code }
{
    match code {
        2 => Some("arm"),
        3 => Some("x86"),
        5 => Some("mips"),
        7 => Some("ppc"),
        22 => Some("arm64"),
        24 => Some("x86_64"),
        26 => Some("riscv"),
        _ => None,
    }
}

/// Returns the name of an image type's code (U-Boot, include/image.h: `IH_TYPE_*`). Returns None if
/// the code has no name here.
pub fn type_name(code: u8) -> Option<&'static str>
    ensures { option_map (λ name. name.now) result ≡ name_of_code type_names code }
{
    match code {
        IH_TYPE_STANDALONE => Some("standalone"),
        IH_TYPE_KERNEL => Some("kernel"),
        IH_TYPE_RAMDISK => Some("ramdisk"),
        IH_TYPE_MULTI => Some("multi"),
        IH_TYPE_FIRMWARE => Some("firmware"),
        IH_TYPE_SCRIPT => Some("script"),
        IH_TYPE_FLATDT => Some("flat_dt"),
        _ => None,
    }
}

/// Returns the name of a compression's code (U-Boot, include/image.h: `IH_COMP_*`). Returns None if
/// the code has no name here.
pub fn compression_name(code: u8) -> Option<&'static str>
    ensures { option_map (λ name. name.now) result ≡ name_of_code compression_names code }
{
    match code {
        0 => Some("none"),
        1 => Some("gzip"),
        2 => Some("bzip2"),
        3 => Some("lzma"),
        4 => Some("lzo"),
        5 => Some("lz4"),
        6 => Some("zstd"),
        _ => None,
    }
}

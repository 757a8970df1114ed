//! The offsets of the fields of a header in bytes, by their names in U-Boot's include/image.h
//! (struct legacy_img_hdr).

/// The checksum of the header.
pub const IH_HCRC: usize = 4;

/// The time of creation.
pub const IH_TIME: usize = 8;

/// The size of the data.
pub const IH_SIZE: usize = 12;

/// The address that the data is loaded to.
pub const IH_LOAD: usize = 16;

/// The address of the entry point.
pub const IH_EP: usize = 20;

/// The checksum of the data.
pub const IH_DCRC: usize = 24;

/// The operating system.
pub const IH_OS: usize = 28;

/// The processor architecture.
pub const IH_ARCH: usize = 29;

/// The image type.
pub const IH_TYPE: usize = 30;

/// The compression.
pub const IH_COMP: usize = 31;

/// The name, which is the last field.
pub const IH_NAME: usize = 32;

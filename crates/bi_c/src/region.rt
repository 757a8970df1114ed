//! Where bytes of a file are.

/// Where bytes of a file are.
#[repr(C)]
#[derive(Clone, Copy, Debug, PartialEq, Eq)]
pub struct Region {
    /// The offset of the first byte in the file.
    pub offset: usize,
    /// The number of bytes.
    pub size: usize,
}

/// The region of what is not in the file.
pub(crate) const NOWHERE: Region = Region { offset: 0, size: 0 };

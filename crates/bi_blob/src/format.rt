//! Numbers of the format of a blob.

/// The number that a blob begins with (Devicetree Specification, 5.2: magic).
pub const MAGIC: u32 = 0xd00d_feed;

/// The number of the token that begins a node (Devicetree Specification, 5.4.1: FDT_BEGIN_NODE).
pub const BEGIN_NODE: u32 = 1;

/// The number of the token that ends a node (Devicetree Specification, 5.4.1: FDT_END_NODE).
pub const END_NODE: u32 = 2;

/// The number of the token of a property (Devicetree Specification, 5.4.1: FDT_PROP).
pub const PROP: u32 = 3;

/// The number of the token that readers ignore (Devicetree Specification, 5.4.1: FDT_NOP).
pub const NOP: u32 = 4;

/// The number of the token that ends the structure block (Devicetree Specification, 5.4.1:
/// FDT_END).
pub const END: u32 = 9;

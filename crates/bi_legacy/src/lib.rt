//! Legacy images of U-Boot, which `mkimage` writes without `-f`: reading them, and writing their
//! normal form.
#![tactic(auto)]

pub mod codes;
mod emitting;
mod fields;
mod header;
pub mod known_files;
pub mod laws;
mod legacy;
pub mod offsets;
mod part_ranges;
mod part_table;
mod parts;
mod pens;
mod text;

pub use emitting::{emit, emit_image, emit_updated_image};
pub use fields::Fields;
pub use header::{HEADER_SIZE, MAGIC};
pub use legacy::Legacy;
pub use parts::{Part, Parts};

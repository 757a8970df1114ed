//! What a devicetree blob is, and the text that is written for one: definitions, their laws, and
//! the numbers and names of the format.
//!
//! The reader of blobs and their layout both use them, and do not depend on each other. The
//! definitions are in `specs/`. What each function of `blob_laws` and `text_laws` ensures is a law.
#![tactic(auto)]

pub mod blob_laws;
pub mod format;
mod names;
pub mod text_laws;

pub use names::{is_child_name, is_property_name, name_prefix};

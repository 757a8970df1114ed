//! Plain trees: flattened image trees in which each payload is the value of a property. One is read
//! from a flattened image tree, can be changed, and is written as a blob.
#![tactic(auto)]

pub mod laws;
mod memory;
mod payloads;
mod reader;
mod writer;

pub use reader::read_plain_tree;
pub use writer::write_plain_tree;

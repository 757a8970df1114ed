//! The commands that report on a boot image, over any reader and writer.
#![tactic(auto)]

pub mod check;
mod details;
pub mod known_texts;
pub mod laws;
pub mod list;
mod listed;
pub mod scan;
pub mod used_hashes;
pub mod verify;

//! The command show, over any reader and writer.
#![tactic(auto)]

pub mod known_texts;
pub mod show;

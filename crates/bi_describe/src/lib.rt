//! The commands describe, over any reader and writer, and compare, over two files in memory.
#![tactic(auto)]

pub mod compare;
#[cfg(test)]
mod deep_tests;
pub mod describe;
pub mod ignored;
pub mod known_deep;
pub mod known_ignored;
pub mod known_refusals;
pub mod known_texts;
pub mod laws;
mod line_words;

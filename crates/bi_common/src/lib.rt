//! What the commands on boot images share: how names, lines and JSON are written, hash nodes and
//! their verdicts, the bound on payloads, and commands on an image at an offset.
#![tactic(auto)]

pub mod at_offset;
pub mod common_lines;
pub mod fields;
pub mod format;
pub mod hash_nodes;
mod json_strings;
pub mod json_writer;
pub mod known_texts;
pub mod lines;
pub mod payload_bounds;
pub mod shown;
pub mod unshown;
pub mod verdict_counts;

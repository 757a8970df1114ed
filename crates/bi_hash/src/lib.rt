//! The digests of hash nodes, and the verdicts on them.
#![tactic(auto)]

mod algo;
mod hash_node;
pub mod known_verdicts;
pub mod laws;
mod pieces;
mod region_digests;
mod verdicts;

pub use algo::Algo;
pub use hash_node::verdict;
pub use region_digests::{Region, RegionDigests};
pub use verdicts::Verdict;

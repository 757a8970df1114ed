//! Trees of devicetrees that can be changed.
#![tactic(auto)]

pub mod known_changes;
pub mod laws;
mod names;
mod node;
mod properties;
mod tree;

pub use names::number_name;
pub use node::TreeNode;
pub use properties::TreeProperty;
pub use tree::Tree;

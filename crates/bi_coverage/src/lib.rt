//! What the signatures of a flattened image tree cover, if they are valid. No signature is
//! verified.
#![tactic(auto)]

mod child_numbers;
mod concern;
mod covered_names;
pub mod known_coverage;
mod listed_paths;
mod name_set;
mod needed;
mod needed_part;
mod needs;
mod node_index;
mod path_parts;
mod paths;
mod reading;
mod references;
mod signed;
mod strings;

pub use concern::SignatureConcern;
pub use reading::{ConfigurationCoverage, SignatureCoverage, read_coverage};

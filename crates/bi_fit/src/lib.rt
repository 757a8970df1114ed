//! Flattened image trees (U-Boot's FIT images): reading one, its images with their payloads and
//! hashes, its configurations, its normal text, and building one.
#![tactic(auto)]

mod building;
mod changes;
mod comparing;
mod configurations;
mod document;
mod fit;
mod form;
mod hashes;
mod image;
mod images;
mod kept;
mod key;
pub mod known_files;
pub mod laws;
mod lists;
mod long_names;
mod memory;
mod name_order;
mod new_digests;
pub mod nodes;
mod payload_area;
mod payload_names;
mod property_names;
mod signatures;
mod text;
pub mod update_laws;

pub use building::{
    ConfigurationSpec, Head, NamedImage, Plan, append_built, append_built_by_types, few_algorithms,
};
pub use changes::Changes;
pub use configurations::{ConfigError, Configuration, Configurations, Named};
pub use fit::Fit;
pub use form::Form;
pub use hashes::Checked;
pub use image::{Image, Place};
pub use kept::Kept;
pub use key::Key;
pub use lists::split_name;
pub use name_order::NameOrder;
pub use payload_names::is_payload_name;
pub use property_names::PropertyNames;
pub use text::FitText;

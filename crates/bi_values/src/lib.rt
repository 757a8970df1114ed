//! Values of a boot image: of single properties, and of fields of a legacy header.
#![tactic(auto)]

mod fields;
mod get_error;
mod getting;
pub mod known_values;
pub mod laws;
mod outputs;
pub mod paths;
mod properties;
mod value_form;
mod value_name;

pub use get_error::GetError;
pub use getting::{Getter, get, get_into};
pub use value_form::ValueForm;
pub use value_name::{HeaderField, ValueName};

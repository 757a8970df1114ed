//! Edits of boot images: what they make of an image, and the words for them.
#![tactic(auto)]

mod applying;
mod edit;
mod edit_error;
mod edit_notes;
mod edited_fit;
mod edited_legacy;
mod editing;
mod form_choice;
mod kinds;
mod know;
pub mod known_edits;
pub mod laws;
mod outside_payloads;
mod places;
pub mod words;

pub use applying::{ApplyError, apply};
pub use edit::{Edit, FieldValue};
pub use edit_error::EditError;
pub use edit_notes::EditNotes;
pub use edited_fit::edit_fit;
pub use editing::{Editor, edit_file, edit_file_into, edit_file_to};
pub use form_choice::FormChoice;
pub use places::{ImageName, NodePath, NodePlace, PropertyPlace};

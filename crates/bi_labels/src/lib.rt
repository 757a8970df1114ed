//! Texts about several images: each line has the name of its image.
#![tactic(auto)]

mod known_labels;
mod labelled_command;
mod labelled_text;
pub mod laws;

pub use labelled_command::LabelledCommand;
pub use labelled_text::put_labelled;

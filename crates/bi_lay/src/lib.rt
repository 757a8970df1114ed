//! Lays out a devicetree blob: a document is built event by event, and its text is measured and
//! written to a sink.
#![tactic(auto)]

mod closed;
mod document;
mod items;
pub mod laws;
mod name_hasher_builder;
mod names;
mod numbered_names;
mod siblings;
mod sizes;
mod structure;
mod text;

pub use closed::ClosedDoc;
pub use document::Doc;
pub use items::Value;

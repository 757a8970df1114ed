//! The commands of `bootimg` on boot images: those on one image over any reader and writer, and
//! comparing over two files in memory. Some have crates of their own, which this one exports.
#![tactic(auto)]

pub mod build_fit;
pub mod build_legacy;
pub mod causes;
pub mod concerns;
pub mod convert;
pub mod extract;
pub mod extract_all;
pub mod known_promises;
pub mod known_refusals;
pub mod known_texts;
pub mod known_updates;
pub mod laws;
pub mod parts;
pub mod update;

pub use bi_common::{at_offset, format, shown, unshown};
pub use bi_describe::{compare, describe, ignored};
pub use bi_report::{check, list, scan, verify};
pub use bi_show::show;

//! Boot images of any kind: the kind of a file, reading an image, its normal form, and converting,
//! building and comparing.
#![tactic(auto)]

mod comparing;
mod converting;
mod cutting;
mod fit_building;
mod image;
mod keys;
mod kind;
pub mod known_files;
pub mod laws;
mod legacy;
mod legacy_text;
mod normal_form;

pub use bi_fit::{ConfigurationSpec, Form, Head, Kept};
pub use comparing::same_meaning;
pub use converting::{convert, convert_into};
pub use cutting::cut;
pub use fit_building::{
    ImageSpec, ImageTexts, PlanSpec, build_fit, build_fit_aligned, build_fit_as, build_fit_as_into,
    build_fit_into, lists_only,
};
pub use image::BootImage;
pub use kind::{Kind, kind_of};
pub use legacy::build_legacy;
pub use legacy_text::append_legacy;
pub use normal_form::{
    Normaliser, normalise, normalise_aligned, normalise_into, normalise_to, normalise_with_kept,
};

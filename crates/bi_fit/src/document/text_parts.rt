//! What a normal text is made of, in addition to the nodes of its file.

use crate::changes::Changes;
use crate::form::Form;
use crate::image::Image;
use crate::name_order::NameOrder;

/// What a normal text is made of, in addition to the nodes of its file.
#[derive(Clone, Copy)]
pub(super) struct TextParts<'a, 'b> {
    /// The order of the names of the file's properties.
    pub(super) order: &'b NameOrder<'a>,
    /// The images, with the payloads of the image nodes.
    pub(super) images: &'b [Image<'a>],
    /// The position of the node `images` among the children of the root, counted from 0.
    pub(super) images_position: usize,
    /// Where the text has the payloads.
    pub(super) form: Form,
    /// What an update changes.
    pub(super) changes: Changes,
    /// The digests that the hash nodes get, if they change.
    pub(super) digests: &'a [u8],
}

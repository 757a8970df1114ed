//! What the lines of a flattened image tree's nodes are made from.

use super::image_payload::ImagePayload;

/// A payload, or a part of a legacy image, by its size and its SHA-256.
#[derive(Clone, Copy)]
pub(crate) struct PayloadDigest {
    pub(crate) size: usize,
    pub(crate) sha256: [u8; 32],
}

/// What the tree has, in the order of the lines. The root neither begins nor ends.
#[derive(Clone, Copy)]
pub(crate) enum Entry<'a> {
    /// A node of this name begins.
    Begin(&'a [u8]),
    /// The payload of the innermost open node, an image node, if it has one.
    Payload(ImagePayload<'a>),
    /// The properties of the innermost open node begin.
    Properties,
    /// A property of the innermost open node.
    Property { name: &'a [u8], value: &'a [u8] },
    /// The properties of the innermost open node end, and its children begin.
    Children,
    /// The innermost open node ends.
    End,
}

//! Paths that are needed together.

/// Paths that are needed together: the path of a node, and those of nodes below it.
#[derive(Drop)]
pub(crate) struct NeededPart {
    pub(crate) path: Vec<u8>,
    pub(crate) below: Vec<Vec<u8>>,
}

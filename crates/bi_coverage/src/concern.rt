//! The concerns about the signatures of configurations.

/// A concern about a signature node of a configuration.
#[derive(Debug, Drop)]
pub enum SignatureConcern<'a> {
    /// There is no `hashed-nodes`, or it is not a list of names.
    NoNodes,
    /// The configuration names no image.
    NoImages,
    /// This path of the root, of the configuration or of an image is not recorded in
    /// `hashed-nodes`, or one that is needed together with it is not: the paths of the hash nodes
    /// of an image and of its child `cipher` are needed together with that of the image.
    Uncovered(Vec<u8>),
    /// This path is recorded in `hashed-nodes` and is not needed.
    Foreign(&'a [u8]),
    /// `hashed-strings` does not reach the end of the names of the properties of the recorded
    /// nodes.
    Strings,
}

//! What an update of a flattened image tree changes.

/// What an update of an image changes.
#[derive(Clone, Copy, Debug, Default, PartialEq, Eq)]
pub struct Changes {
    /// The new time of creation, in seconds since 1970, if it changes. In a flattened image tree it
    /// is the property `timestamp` of the root.
    pub time: Option<u32>,
    /// Whether each hash node with a known algorithm, of an image with a payload, gets the digest
    /// of the payload as its value.
    pub hashes: bool,
}

//! The verdicts on hash nodes.

/// The verdict on a hash node.
#[derive(Clone, Copy, Debug, PartialEq, Eq)]
pub enum Verdict {
    /// The node has no algorithm, no value, or an algorithm that is not NUL-terminated.
    Malformed,
    /// The algorithm is not a known one.
    UnknownAlgo,
    /// There is no payload to hash.
    NoPayload,
    /// The value is the payload's digest.
    Good,
    /// The value is not the payload's digest.
    Bad,
}

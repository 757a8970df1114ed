//! The forms of what a command writes.

/// The form of what a command writes. Both say the same, from the same values.
#[derive(Clone, Copy, Debug, PartialEq, Eq)]
pub enum Format {
    /// Lines.
    Lines,
    /// One text of JSON (RFC 8259) in ASCII, and a newline.
    Json,
}

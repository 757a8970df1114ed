//! Which streams of the program are terminals.

/// Whether standard output and standard error are terminals. The default is that neither is one.
#[derive(Clone, Copy, Default)]
pub struct Terminal {
    /// Whether standard output is one. No image and no payload is written to it then.
    pub output: bool,
    /// Whether standard error is one. Each line of a failure has a hint after it then.
    pub errors: bool,
}

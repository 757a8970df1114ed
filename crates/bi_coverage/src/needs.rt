//! What the signatures of a configuration need.

use crate::needed_part::NeededPart;

/// What the signatures of a configuration need: its references, and the parts that they must cover.
#[derive(Clone, Copy)]
pub(crate) struct Needs<'a, 'p> {
    pub(crate) references: &'p [&'a [u8]],
    pub(crate) parts: &'p [NeededPart],
}

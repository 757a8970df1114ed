//! Edits of boot images.

ghost use Rattle.std.specs.Prelude.{◌≡◌};
ghost use Rattle.bi_edit.specs.Edits.{turn_of};

use crate::places::{ImageName, NodePlace, PropertyPlace};

/// A value of a field of a legacy header. The type cannot be set.
#[derive(Drop)]
pub enum FieldValue {
    /// The name.
    Name(Vec<u8>),
    /// The time of creation, in seconds since 1970.
    Time(u32),
    /// The address that the data is loaded to.
    Load(u32),
    /// The address of the entry point.
    Entry(u32),
    /// The code of the operating system.
    Os(u8),
    /// The code of the processor architecture.
    Arch(u8),
    /// The code of the compression.
    Compression(u8),
}

/// An edit of a boot image. Edits are made in this order, whatever their order in a list: removals,
/// new values, payloads, times, digests. Edits of one kind are made in their order in the list.
#[derive(Drop)]
pub enum Edit<'a> {
    /// Removes a node of a flattened image tree with all nodes below it.
    RemoveNode(NodePlace),
    /// Removes a property of a flattened image tree.
    RemoveProperty(PropertyPlace),
    /// Sets the value of a property of a flattened image tree, or adds the property. Nodes on the
    /// way to it that are not there are added, each as the last child of its parent.
    SetProperty(PropertyPlace, Vec<u8>),
    /// Sets a field of a legacy header.
    SetField(FieldValue),
    /// Gives the image with this name of a flattened image tree these bytes as its payload, or the
    /// part with this number, in decimal digits, of a legacy image.
    SetPayload(ImageName, &'a [u8]),
    /// Sets the time of creation, in seconds since 1970. In a flattened image tree it is the
    /// property `timestamp` of the root.
    SetTime(u32),
    /// Sets the value of each hash node with a known algorithm, of an image of a flattened image
    /// tree with a payload, to the digest of the payload. A legacy image has no hash nodes.
    SetDigests,
}

/// The number of turns in which edits are made.
pub(crate) const TURNS: usize = 5;

/// The last of them: that of digests.
pub(crate) const TURN_OF_DIGESTS: usize = 4;

impl<'a> Edit<'a> {
    /// Returns the turn in which the edit is made: removals have the first.
    pub(crate) fn turn(&self) -> usize
        ensures { result ≡ turn_of self.now }
    {
        match self {
            Edit::RemoveNode(_) | Edit::RemoveProperty(_) => 0,
            Edit::SetProperty(_, _) | Edit::SetField(_) => 1,
            Edit::SetPayload(_, _) => 2,
            Edit::SetTime(_) => 3,
            Edit::SetDigests => 4,
        }
    }
}

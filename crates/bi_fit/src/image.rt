//! The images of a flattened image tree that was read.

ghost use Rattle.std.specs.Prelude.{List, ℕ};
ghost use Rattle.bi_fit.specs.Content.{image_model, IsAtItsPlace};
ghost use Rattle.bi_fit.specs.PayloadRegions.{IsRegionOfPayload};

use bi_hash::Region;

/// Where the payload of an image is in its file. The number is the offset of its first byte.
#[derive(Clone, Copy, Debug, PartialEq, Eq)]
pub enum Place {
    /// There is no payload, or the image is not in a file.
    Absent,
    /// The payload is the value of the property `data`.
    Data(u32),
    /// The properties `data-offset` and `data-size` name the payload.
    DataOffset(u32),
    /// The properties `data-position` and `data-size` name the payload.
    DataPosition(u32),
}

/// An image: a child of the node `/images`.
#[derive(Clone, Copy, Debug, PartialEq, Eq)]
pub struct Image<'a> {
    /// The name of the node.
    pub name: &'a [u8],
    /// The payload, if there is one.
    pub payload: Option<&'a [u8]>,
    /// Where the payload is in the file.
    pub place: Place,
}

impl<'a> Image<'a> {
    /// Returns the region of the file that is the payload. Returns None if there is no payload, or
    /// the image is not in a file.
    pub fn region(&self) -> Option<Region>
        ensures { (file : List ℕ) → IsAtItsPlace file (image_model self.now)
            → IsRegionOfPayload file (image_model self.now).payload result }
    {
        let begin = match self.place {
            Place::Data(begin) | Place::DataOffset(begin) | Place::DataPosition(begin) => begin,
            Place::Absent => return None,
        };
        Some(Region {
            begin: begin as usize,
            length: self.payload?.len(),
        })
    }
}

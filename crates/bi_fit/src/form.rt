//! Where a text has the payloads of its images.

ghost use Rattle.std.specs.Prelude.{◌≡◌};
ghost use Rattle.bi_base.specs.Aligns.{align_bytes};

use bi_base::Align;

/// Where a text has the payloads of its images.
#[derive(Clone, Copy, Debug, PartialEq, Eq)]
pub enum Form {
    /// Each payload is the value of the property `data` of its image node.
    Embedded,
    /// The payloads follow the blob. `data-offset` and `data-size` of each image node have the
    /// offset and the size of its payload. The length of the blob is a multiple of four, and each
    /// payload, even an empty one, begins at a multiple of four.
    External,
    /// As External, with this alignment instead of four: the length of the blob is a multiple of
    /// it, and each payload, even an empty one, begins at a multiple of it in the file.
    Aligned(Align),
}

impl Form {
    ghost use Rattle.bi_fit.specs.Text.{alignment_of, blob_alignment};

    /// Returns the alignment of the blob's length and of the payloads that follow the blob.
    pub(crate) fn align(self) -> Align
        ensures { align_bytes result ≡ blob_alignment (alignment_of self) }
    {
        match self {
            Form::Embedded | Form::External => Align::four(),
            Form::Aligned(align) => align,
        }
    }
}

//! Images that begin at an offset of an input.

ghost use Rattle.std.specs.Prelude.{◌≡◌};
ghost use Rattle.bi_common.specs.Offsets.{input_from};

/// Returns the image at an offset of an input: the input from there on.
pub fn image_at(input: &[u8], offset: usize) -> &[u8]
    ensures { result.now ≡ input_from offset input.entry.now }
{
    input.get(offset..).unwrap_or_default()
}

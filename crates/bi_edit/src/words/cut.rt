//! Cutting a text in two.

ghost use Rattle.std.specs.Option.{option_map};
ghost use Rattle.bi_edit.specs.Cuts.{IsCutAt};

/// Cuts a text at the first of these bytes. Returns what is before it, which is the whole text if
/// there is none, and what is after it.
pub(super) fn cut(text: &[u8], byte: u8) -> (&[u8], Option<&[u8]>)
    ensures { IsCutAt byte text.entry.now result.0.now (option_map (λ later. later.now) result.1) }
{
    for (index, other) in text.iter().enumerate() {
        if *other == byte {
            return (&text[..index], Some(&text[index + 1..]));
        }
    }
    (text, None)
}

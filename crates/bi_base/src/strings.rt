//! NUL-terminated strings.

ghost use Rattle.std.specs.Prelude.{◌≡◌, ◌==◌, position};
ghost use Rattle.std.specs.Option.{option_copied};
ghost use Rattle.bi_base.specs.Strings.{before_nul as before_nul_of};
ghost use Rattle.bi_base.specs.Strings.{text_before_nul as text_before_nul_of};

/// Returns the bytes before the first zero byte, or all of them if none is zero.
pub fn before_nul(bytes: &[u8]) -> &[u8]
    ensures { result.now ≡ before_nul_of bytes.entry.now }
{
    for (index, byte) in bytes.iter().enumerate() {
        if *byte == 0 {
            return &bytes[..index];
        }
    }
    bytes
}

/// Returns the bytes before the first zero byte. Returns None if none is zero.
#[tactic(auto, unfolding(crate::specs::Strings::text_before_nul))]
pub fn text_before_nul(value: &[u8]) -> Option<&[u8]>
    ensures { option_copied result ≡ text_before_nul_of value.now }
{
    let end = position_of_nul(value)?;
    Some(&value[..end])
}

/// Returns the index of the first zero byte, if there is one.
fn position_of_nul(bytes: &[u8]) -> Option<usize>
    ensures { result ≡ position (λ byte. byte == 0) bytes.now }
{
    bytes.iter().position(|&byte| byte == 0)
}

//! Names in a blob, which a zero byte ends (Devicetree Specification, 5.4.1, 5.5).

ghost use Rattle.std.specs.Prelude.{◌≡◌, ◌≤◌, ◌↔◌, length, IsSome, IfSome};
ghost use Rattle.bi_blob.specs.Tokens.{name_from};
ghost use Rattle.bi_blob.specs.Tree.{HasNoZero};
ghost use Rattle.bi_blob.specs.BlobFaults.{HasName};

/// Returns the name at offset `at`. Returns None if no zero byte ends it before `end`. Requires:
/// `end` is at most the number of the bytes.
pub(crate) fn name_at<'a>(bytes: &'a [u8], at: usize, end: usize) -> Option<&'a [u8]>
    requires { end ≤ length bytes.now }
    ensures some { IsSome result ↔ HasName bytes.entry.now at end }
    ensures value { IfSome result (λ name. name.now ≡ name_from bytes.entry.now at) }
    ensures no_zero { IfSome result (λ name. HasNoZero name.now) }
{
    let rest = bytes.get(at..end)?;
    let length = rest.iter().position(|byte| *byte == 0)?;
    Some(&rest[..length])
}

//! The parts of a path.

ghost use Rattle.std.specs.Prelude.{◌≡◌, ◌==◌, MatchOption};
ghost use Rattle.std.specs.List.{position_or_len};
ghost use Rattle.bi_coverage.specs.PathParts.{BeginsWithNoSlash, BeginsWithNode};

/// Returns the first name of a path, and the rest of the path after it. Returns None if the path
/// does not begin with a `/`.
pub(crate) fn split_path(path: &[u8]) -> Option<(&[u8], &[u8])>
    ensures { MatchOption result
        (BeginsWithNoSlash path.now)
        (λ split. BeginsWithNode path.now split.0.now split.1.now) }
{
    let (first, names) = path.split_first()?;
    if *first != b'/' {
        return None;
    }
    Some(names.split_at(slash_at(names)))
}

/// Returns the index of the first `/`, or the number of the bytes if there is none.
fn slash_at(names: &[u8]) -> usize
    ensures { result ≡ position_or_len (λ byte. byte == 47) names.now }
{
    for (index, byte) in names.iter().enumerate() {
        if *byte == b'/' {
            return index;
        }
    }
    names.len()
}

//! The paths of nodes.

ghost use Rattle.std.specs.Prelude.{◌≡◌, IfOk};
ghost use Rattle.bi_base.specs.Slices.{bytes_of};
ghost use Rattle.bi_coverage.specs.Paths.{path_text};

use std::alloc::{AllocError, Global};

/// Returns a copy of a path. Fails if memory runs out.
pub(crate) fn copy_path(alloc: Global, path: &[u8]) -> Result<Vec<u8>, AllocError>
    ensures { IfOk result (λ copy. copy.items ≡ path.now) }
{
    let mut copy = Vec::new(alloc);
    copy.extend_from_slice(path)?;
    Ok(copy)
}

/// Returns the path of the node with these names on its path, without the root: each after a `/`,
/// or `/` alone for the root. Fails if memory runs out.
pub(crate) fn path_text(alloc: Global, names: &[&[u8]]) -> Result<Vec<u8>, AllocError>
    ensures { IfOk result (λ path. path.items ≡ path_text (bytes_of names.now)) }
{
    let mut path = Vec::new(alloc);
    if names.is_empty() {
        path.push(b'/')?;
    }
    for name in names {
        path.push(b'/')?;
        path.extend_from_slice(name)?;
    }
    Ok(path)
}

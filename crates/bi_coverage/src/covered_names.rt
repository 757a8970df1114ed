//! The children of image nodes that a signature must cover.

ghost use Rattle.std.specs.Prelude.{◌≡◌, filter, IfOk};
ghost use Rattle.bi_base.specs.Slices.{bytes_of};
ghost use Rattle.bi_blob.specs.Tree.{names};
ghost use Rattle.bi_fdt.specs.Views.{node_of};
ghost use Rattle.bi_fit.specs.Names.{is_hash_name};
ghost use Rattle.bi_coverage.specs.IndexedFits.{covered_by_images};
ghost use Rattle.bi_coverage.specs.Signatures.{covered_names};
ghost use Rattle.bi_coverage.specs.Values.{names_in_lists};

use bi_fdt::NodeRef;
use bi_fit::Fit;
use bi_fit::nodes::Siblings;
use std::alloc::{AllocError, Global};

/// Returns the names of the children of an image node that a signature must cover: those of the
/// hash nodes, in order, and then `cipher`, if there is a child with this name. Fails if memory
/// runs out.
fn covered_names<'a>(alloc: Global, image: NodeRef<'a, '_>) -> Result<Vec<&'a [u8]>, AllocError>
    ensures { IfOk result (λ found. bytes_of found.items
        ≡ covered_names (names (node_of image.entry).children)) }
{
    let mut found = hash_names(alloc, image)?;
    if image.child(b"cipher").is_none() {
        return Ok(found);
    }
    found.push(b"cipher")?;
    Ok(found)
}

/// Returns the names of the hash nodes of an image node, in order. Fails if memory runs out.
fn hash_names<'a>(alloc: Global, image: NodeRef<'a, '_>) -> Result<Vec<&'a [u8]>, AllocError>
    ensures { IfOk result (λ found. bytes_of found.items
        ≡ filter is_hash_name (names (node_of image.entry).children)) }
{
    let mut found: Vec<&'a [u8]> = Vec::new(alloc);
    for child in Siblings::children(image) {
        if child.name().starts_with(b"hash") {
            found.push(child.name())?;
        }
    }
    Ok(found)
}

/// Returns, for each image in order, the names of the children that a signature must cover. Fails
/// if memory runs out.
pub(crate) fn covered_by_image<'a>(
    alloc: Global,
    fit: &Fit<'a>,
) -> Result<Vec<Vec<&'a [u8]>>, AllocError>
    ensures { IfOk result (λ found. names_in_lists found.items ≡ covered_by_images fit.now) }
{
    let mut found = Vec::new(alloc);
    for image in fit.image_nodes() {
        found.push(covered_names(alloc, image)?)?;
    }
    Ok(found)
}

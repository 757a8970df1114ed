//! The paths that the signatures of a configuration must cover.

ghost use Rattle.std.specs.Prelude.{◌≡◌, ◌+◌, ◌*◌, ◌<◌, ◌≤◌, map, length};
ghost use Rattle.std.specs.Prelude.{IfOk, IfErr, OnOk};
ghost use Rattle.bi_base.specs.Reading.{too_large};
ghost use Rattle.bi_base.specs.Slices.{bytes_of};
ghost use Rattle.bi_coverage.specs.Paths.{each_once, with_all_new};
ghost use Rattle.bi_coverage.specs.Signatures.{image_part as image_part_of, paths_of_part};
ghost use Rattle.bi_coverage.specs.Signatures.{paths_of_parts};
ghost use Rattle.bi_coverage.specs.Signatures.{total_length};
ghost use Rattle.bi_coverage.specs.Signatures.{single_part as single_part_of};
ghost use Rattle.bi_coverage.specs.NeededParts.{part_value};

use crate::name_set::NameSet;
use crate::needed_part::NeededPart;
use crate::paths::path_text;
use bi_base::{Cause, Fault, refuse};
use std::alloc::{AllocError, Global};

/// Returns the path of the node with these names on its path, without paths below it. Fails if
/// memory runs out.
pub(crate) fn single_part(alloc: Global, names: &[&[u8]]) -> Result<NeededPart, AllocError>
    ensures { IfOk result (λ part. part_value part ≡ single_part_of (bytes_of names.now)) }
{
    Ok(NeededPart {
        path: path_text(alloc, names)?,
        below: Vec::new(alloc),
    })
}

/// Returns the path of an image with those of its children with these names. Fails if memory runs
/// out.
pub(crate) fn image_part(
    alloc: Global,
    image: &[u8],
    children: &[&[u8]],
) -> Result<NeededPart, AllocError>
    ensures { IfOk result (λ part. part_value part
        ≡ image_part_of image.now (bytes_of children.now)) }
{
    let mut below = Vec::new(alloc);
    for child in children {
        below.push(path_text(alloc, &[b"images", image, child])?)?;
    }
    Ok(NeededPart {
        path: path_text(alloc, &[b"images", image])?,
        below,
    })
}

/// Returns the sum of two lengths. Error: TooLarge at the limit, if the sum is more than that.
/// Requires: the first length is at most the limit.
pub(crate) fn add_length(total: usize, length: usize, limit: u32) -> Result<usize, Fault>
    requires { total ≤ limit }
    ensures sum { IfOk result (λ sum. sum ≡ total + length) }
    ensures within { IfOk result (λ sum. sum ≤ limit) }
    ensures fault { IfErr result (λ fault. (fault ≡ too_large limit) × (limit < total + length)) }
{
    if length > limit as usize - total {
        return refuse(Cause::TooLarge, limit);
    }
    Ok(total + length)
}

/// Adds the lengths of the path of an image and of those of its children with these names to a
/// length. Error: TooLarge at the limit, if the sum is more than that. Requires: the length
/// is at most the limit.
pub(crate) fn add_image_length(
    total: usize,
    image: &[u8],
    children: &[&[u8]],
    limit: u32,
) -> Result<usize, Fault>
    requires { total ≤ limit }
    ensures sum { let paths = paths_of_part (image_part_of image.now (bytes_of children.now)) in
        IfOk result (λ sum. sum ≡ total + total_length paths) }
    ensures within { IfOk result (λ sum. sum ≤ limit) }
    ensures fault { let paths = paths_of_part (image_part_of image.now (bytes_of children.now)) in
        IfErr result (λ fault. (fault ≡ too_large limit)
        × (limit < total + total_length paths)) }
{
    // The lengths of `/images` and of the `/` before each name.
    let mut sum = add_length(total, 8, limit)?;
    sum = add_length(sum, image.len(), limit)?;
    for child in children {
        sum = add_child_length(sum, image, child, limit)?;
    }
    Ok(sum)
}

/// Adds the length of the path of a child of an image to a length. Error: TooLarge at the limit, if
/// the sum is more than that. Requires: the length is at most the limit.
fn add_child_length(total: usize, image: &[u8], child: &[u8], limit: u32) -> Result<usize, Fault>
    requires { total ≤ limit }
    ensures sum { IfOk result (λ sum. sum ≡ total + (9 + length image.now + length child.now)) }
    ensures within { IfOk result (λ sum. sum ≤ limit) }
    ensures fault { IfErr result (λ fault. (fault ≡ too_large limit)
        × (limit < total + (9 + length image.now + length child.now))) }
{
    let sum = add_length(total, 9, limit)?;
    let sum = add_length(sum, image.len(), limit)?;
    add_length(sum, child.len(), limit)
}

/// Returns the paths of these parts. Fails if memory runs out.
pub(crate) fn needed_paths<'p>(
    alloc: Global,
    parts: &'p [NeededPart],
) -> Result<NameSet<'p>, AllocError>
    ensures { IfOk result (λ paths. paths
        ≡ each_once (paths_of_parts (map part_value parts.entry.now))) }
{
    let mut paths = NameSet::new(alloc, parts.len())?;
    for part in parts {
        add_part(&mut paths, part)?;
    }
    Ok(paths)
}

/// Adds the paths of a part. Fails if memory runs out.
fn add_part<'p>(paths: &mut NameSet<'p>, part: &'p NeededPart) -> Result<(), AllocError>
    ensures { OnOk result (paths.new
        ≡ with_all_new paths.old (paths_of_part (part_value part.entry.now))) }
{
    paths.add(&part.path)?;
    for path in &part.below {
        paths.add(path)?;
    }
    Ok(())
}

/// Returns the sum of a total and of a length that is added a number of times. Error: TooLarge at
/// the limit, if the sum is more than that. Requires: the total is at most the limit.
pub(crate) fn add_lengths(
    total: usize,
    length: usize,
    count: usize,
    limit: u32,
) -> Result<usize, Fault>
    requires { total ≤ limit }
    ensures sum { IfOk result (λ sum. sum ≡ total + count * length) }
    ensures within { IfOk result (λ sum. sum ≤ limit) }
    ensures fault { IfErr result (λ fault. (fault ≡ too_large limit)
        × (limit < total + count * length)) }
{
    let mut sum = total;
    let mut left = count;
    'addition: while left > 0 {
        sum = add_length(sum, length, limit)?;
        left -= 1;
    }
    Ok(sum)
}

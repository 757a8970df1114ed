//! The table of the images of a flattened image tree.

ghost use Rattle.std.specs.Prelude.{◌≡◌, ◌^◌, ◌<◌, ◌∷◌, IfOk, IfSome, length};
ghost use Rattle.std.specs.Prelude.{option_map};
ghost use Rattle.bi_blob.specs.Lookups.{siblings};
ghost use Rattle.bi_fdt.specs.Views.{node_of};
ghost use Rattle.bi_fit.specs.Content.{AreAtTheirPlaces, IsAtItsPlace, image_model};
ghost use Rattle.bi_fit.specs.Content.{offset_of_place};
ghost use Rattle.bi_fit.specs.HashNodes.{file_images};
ghost use Rattle.bi_show.specs.FitPages.{image_heading};
ghost use Rattle.bi_show.specs.ReadPages.{read_image_row, read_image_rows};
ghost use Rattle.bi_show.specs.Rows.{cells_of_rows, cells_of_row};

use super::cells::{CellForm, hashes_cell, name_cell, number_cell, property_cell};
use super::tables::{Row, Table, words_row};
use bi_common::hash_nodes::HashNodes;
use bi_fdt::NodeRef;
use bi_fit::{Fit, Image, Place};
use bi_hash::RegionDigests;
use std::alloc::{AllocError, Global};

/// Returns the table of the images. Requires: in the file of the digests, the payload of each image
/// is at its place.
pub(super) fn image_rows<'a>(
    alloc: Global,
    fit: &Fit<'a>,
    digests: &RegionDigests<'a>,
) -> Result<Table, AllocError>
    requires placed { AreAtTheirPlaces digests.now fit.now.images }
    ensures { IfOk result (λ rows. cells_of_rows rows.items ≡ image_heading
        ∷ read_image_rows (siblings (file_images fit.now.blob)) fit.now.images) }
{
    let heading = [
        "image",
        "type",
        "os",
        "arch",
        "compression",
        "size",
        "offset",
        "load",
        "entry",
        "hashes",
    ];
    let mut rows = vec![in alloc; words_row(alloc, &heading)?]?;
    for (node, image) in fit.images_with_nodes() {
        rows.push(image_row(alloc, node, image, digests)?)?;
    }
    Ok(rows)
}

/// Returns the row of the image of a node. Requires: in the file of the digests, the payload of the
/// image is at its place.
fn image_row<'a>(
    alloc: Global,
    node: NodeRef<'a, '_>,
    image: &Image<'a>,
    digests: &RegionDigests<'a>,
) -> Result<Row, AllocError>
    requires placed { IsAtItsPlace digests.now (image_model image.now) }
    ensures { IfOk result (λ row. cells_of_row row.items
        ≡ read_image_row (node_of node.entry) (image_model image.now)) }
{
    let name = name_cell(alloc, Some(node.name()))?;
    let image_type = property_cell(alloc, node, "type", CellForm::Value)?;
    let os = property_cell(alloc, node, "os", CellForm::Value)?;
    let arch = property_cell(alloc, node, "arch", CellForm::Value)?;
    let compression = property_cell(alloc, node, "compression", CellForm::Value)?;
    let size = number_cell(alloc, size_of(image))?;
    let offset = number_cell(alloc, offset_of(image))?;
    let load = property_cell(alloc, node, "load", CellForm::Address)?;
    let entry = property_cell(alloc, node, "entry", CellForm::Address)?;
    let hashes = hashes_cell(alloc, HashNodes::new(node, image, digests))?;
    Ok(vec![in alloc;
        name,
        image_type,
        os,
        arch,
        compression,
        size,
        offset,
        load,
        entry,
        hashes,
    ]?)
}

/// Returns how many bytes the payload of an image has, if there is one.
fn size_of(image: &Image) -> Option<u64>
    ensures { result ≡ option_map length (image_model image.now).payload }
{
    image.payload.map(|payload| payload.len() as u64)
}

/// Returns the offset of the payload of an image, if there is one.
pub(super) fn offset_of(image: &Image) -> Option<u64>
    ensures offset { result ≡ offset_of_place image.now.place }
    ensures small { IfSome result (λ offset. offset < 2 ^ 32) }
{
    match image.place {
        Place::Absent => None,
        Place::Data(offset) | Place::DataOffset(offset) | Place::DataPosition(offset) => {
            Some(u64::from(offset))
        }
    }
}

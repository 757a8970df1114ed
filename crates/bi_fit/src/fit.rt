//! Reading a flattened image tree.

ghost use Rattle.std.specs.Prelude.{◌≡◌, length, map, slice_get, IfOk, IfErr};
ghost use Rattle.std.specs.Option.{option_map, option_and_then};
ghost use Rattle.bi_base.specs.declared.fault.Error.TheVariants.{OutOfMemory};
ghost use Rattle.bi_blob.specs.Lookups.{node_named};
ghost use Rattle.bi_fdt.specs.Content.{root_of};
ghost use Rattle.bi_fdt.specs.Views.{node_of, table_of_node};
ghost use Rattle.bi_fit.specs.Names.{images_name};
ghost use Rattle.bi_fit.specs.Content.{index_of, place_or_absent, image_model};
ghost use Rattle.bi_fit.specs.Content.{AreAtTheirPlaces, HasIndices, IsHeld, IsImagesPosition};
ghost use Rattle.bi_fit.specs.Reading.{IsReadFit, IsFitReadError};

use crate::image::{Image, Place};
use crate::images::read_images;
use bi_base::{Cause, Error, Fault, Limits};
use bi_fdt::{Blob, NodeRef};
use bi_hash::RegionDigests;
use std::alloc::{AllocError, Global};
use std::collections::BTreeMap;
use std::marker::Model;

/// A flattened image tree that was read. It has slices of its file.
#[derive(Drop)]
pub struct Fit<'a> {
    blob: Blob<'a>,
    /// The index of the node `/images` in the table of the blob.
    images_index: usize,
    /// The position of the node `/images` among the children of the root, counted from 0.
    images_position: usize,
    images: Vec<Image<'a>>,
    /// The index of each image by its name.
    indices: BTreeMap<&'a [u8], usize>,
}

impl<'a> Model for Fit<'a> {
    ghost use Rattle.bi_fit.specs.Content.{FitModel};

    ghost Value = { FitModel };

    ghost use Rattle.bi_fit.specs.Fields.{fit_model, IsConsistentFit};

    ghost view = { fit_model };

    ghost invariant = { IsConsistentFit };
}

impl<'a> Fit<'a> {
    /// Reads a flattened image tree. The file may be longer than its blob.
    ///
    /// Succeeds if the file is a flattened image tree within the limits, unless memory runs out.
    /// Otherwise it fails with the fault of the first check that fails:
    ///
    /// - those of `Blob::read`;
    /// - NoImages at the token of the root, if it has no child `images`;
    /// - for each image node in order that has `data-position` or else `data-offset`: BadCell at
    ///   that property, if its value is not four bytes; NoSize there, if there is no `data-size`;
    ///   BadCell at `data-size`, if its value is not four bytes; OutsideFile at the first property,
    ///   if the payload ends after the file.
    ///
    /// OutOfMemory occurs only if the header and the memory reservation block have no fault.
    ///
    /// # Example
    ///
    /// ```
    /// use bi_base::Limits;
    /// use bi_fit::Fit;
    ///
    /// let limits = Limits::new(0x7fff_ffff, 64).unwrap();
    /// let fit = Fit::read(rt.alloc(), board, limits)?;
    /// assert_eq!(rt; fit.image_count(), 3);
    /// ```
    pub fn read(alloc: Global, file: &'a [u8], limits: Limits) -> Result<Fit<'a>, Error>
        ensures read { IfOk result (IsReadFit limits file.entry.now) }
        ensures failed { IfErr result (IsFitReadError limits file.entry.now) }
    {
        let blob = Blob::read(alloc, file, limits)?;
        let root = blob.root();
        let Some((images_position, node)) = root.find_child(b"images") else {
            return Err(Error::Refused(Fault {
                cause: Cause::NoImages,
                offset: root.place(),
            }));
        };
        let images_index = node.index();
        let images = read_images(alloc, file, blob.total_size(), node)?;
        let indices = index_by_name(alloc, &images)?;
        Ok(Fit {
            blob,
            images_index,
            images_position,
            images,
            indices,
        })
    }

    /// Returns the blob.
    pub fn blob(&self) -> &Blob<'a>
        ensures { result.now ≡ self.now.blob }
    {
        &self.blob
    }

    /// Returns the node `/images`, which each flattened image tree has. Takes constant time.
    pub fn images_node<'b>(&'b self) -> NodeRef<'a, 'b>
        ensures node { Some (node_of result)
            ≡ node_named (root_of self.now.blob).children images_name }
        ensures same_table { table_of_node result ≡ self.now.blob.table }
    {
        self.blob.node(self.images_index)
    }

    /// Returns the position of the node `/images` among the children of the root, counted from 0.
    pub(crate) fn images_position(&self) -> usize
        ensures { IsImagesPosition self.now.blob result }
    {
        self.images_position
    }

    /// Returns the images, in their order in the file.
    pub fn images(&self) -> &[Image<'a>]
        ensures { map image_model result.now ≡ self.now.images }
    {
        &self.images
    }

    /// Returns the number of images.
    pub fn image_count(&self) -> usize
        ensures { result ≡ length self.now.images }
    {
        self.images.len()
    }

    /// Returns the name of image `index`, counted from 0. Returns None if there is no such image.
    pub fn image_name(&self, index: usize) -> Option<&'a [u8]>
        ensures { option_map (λ name. name.now) result
            ≡ option_map (λ image. image.name) (slice_get self.now.images index) }
    {
        Some(self.images.get(index)?.name)
    }

    /// Returns the index of the image with the given name. Returns None if there is no such image.
    pub fn image(&self, name: &[u8]) -> Option<usize>
        ensures { result ≡ index_of name.now self.now.images }
    {
        self.indices.get(name).copied()
    }

    /// Returns the payload of image `index`, counted from 0. Returns None if there is no such
    /// image, or it has no payload.
    pub fn payload(&self, index: usize) -> Option<&'a [u8]>
        ensures { option_map (λ payload. payload.now) result
            ≡ option_and_then (λ image. image.payload) (slice_get self.now.images index) }
    {
        self.images.get(index)?.payload
    }

    /// Returns where the payload of image `index`, counted from 0, is in the file. Returns
    /// `Place::Absent` if there is no such image, or it has no payload.
    pub fn place(&self, index: usize) -> Place
        ensures { result ≡ place_or_absent (slice_get self.now.images index) }
    {
        match self.images.get(index) {
            Some(image) => image.place,
            None => Place::Absent,
        }
    }

    /// Returns the digests of the regions of the file. None of them is computed yet.
    pub fn region_digests(&self, alloc: Global) -> RegionDigests<'a>
        ensures file { result ≡ self.now.blob.file }
        ensures placed { AreAtTheirPlaces result self.now.images }
    {
        RegionDigests::new(alloc, self.blob.file())
    }

    /// Does nothing. Proofs outside this module get the invariant from it.
    pub(crate) fn give_invariant(&self)
        ensures { IsHeld self.now }
    {
        let _ = &self.images;
    }
}

/// Returns the index of each of these images by its name. If several images have the same name, it
/// has the index of the first.
fn index_by_name<'a>(
    alloc: Global,
    images: &[Image<'a>],
) -> Result<BTreeMap<&'a [u8], usize>, AllocError>
    ensures { IfOk result (λ indices. HasIndices indices (map image_model images.now)) }
{
    let mut indices = BTreeMap::new(alloc);
    // The first image with a name is inserted last, so its index stays.
    for index in (0..images.len()).rev() {
        indices.insert(images[index].name, index)?;
    }
    Ok(indices)
}

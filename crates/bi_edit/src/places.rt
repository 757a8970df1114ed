//! The places in a tree that edits are of.

ghost use Rattle.std.specs.Prelude.{◌≡◌, ◌↔◌, IfSome, IfNone, IfOk, IsTrue};
ghost use Rattle.bi_base.specs.Slices.{bytes_of};
ghost use Rattle.bi_edit.specs.Places.{IsNodePath, IsPlace, IsPropertyNameOfBytes, IsRemovable};
ghost use Rattle.bi_edit.specs.Places.{AreChildNames, IsChildNameOfBytes};
ghost use Rattle.bi_edit.specs.Places.{names_of_path};
ghost use Rattle.bi_edit.specs.Places.{is_image_path as is_image};

use bi_base::are_bytes;
use bi_blob::{is_child_name, is_property_name};
use bi_fit::is_payload_name;
use std::alloc::{AllocError, Global};
use std::marker::Model;

/// The greatest number of names in a path.
pub(crate) const MOST_NAMES: usize = 63;

/// The path of a node: the names of the nodes from a child of the root down to it. There are at
/// most 63, and none for the root.
#[derive(Drop)]
pub struct NodePath {
    names: Vec<Vec<u8>>,
}

impl Model for NodePath {
    ghost use Rattle.std.specs.Prelude.{ℕ, List};
    ghost use Rattle.bi_edit.specs.Places.{IsNodePath};
    ghost use Rattle.bi_edit.specs.Places.{names_of_path};

    ghost Value = { List (List ℕ) };

    ghost view = { λ path. names_of_path path.names.items };

    ghost invariant = { λ path. IsNodePath (names_of_path path.names.items) };
}

impl NodePath {
    /// Returns the path with these names. Returns None if and only if one of them is not a name
    /// that a child may have, or there are more than 63.
    pub fn new(names: Vec<Vec<u8>>) -> Option<NodePath>
        ensures some { IfSome result (λ path.
            (path ≡ names_of_path names.items) × IsNodePath path) }
        ensures none { IfNone result (IsNodePath (names_of_path names.items) → ⊥) }
    {
        if names.len() <= MOST_NAMES && are_child_names(&names) {
            Some(NodePath { names })
        } else {
            None
        }
    }

    /// Returns the names as slices. Fails if memory runs out.
    pub(crate) fn to_slices<'a>(&'a self, alloc: Global) -> Result<Vec<&'a [u8]>, AllocError>
        ensures { IfOk result (λ names. bytes_of names.items ≡ self.entry.now) }
    {
        let mut names = Vec::with_capacity(alloc, self.names.len())?;
        for name in &self.names {
            names.push(name.as_slice())?;
        }
        Ok(names)
    }

    /// Returns the names.
    pub fn names(&self) -> &[Vec<u8>]
        ensures names { names_of_path result.now ≡ self.now }
        ensures path { IsNodePath self.now }
    {
        &self.names
    }
}

/// Returns whether each of these names is one that a child may have.
fn are_child_names(names: &[Vec<u8>]) -> bool
    ensures { IsTrue result ↔ AreChildNames (names_of_path names.now) }
{
    for name in names {
        if !is_child_name_of_bytes(name) {
            return false;
        }
    }
    true
}

/// Returns whether this is a name that a child may have.
fn is_child_name_of_bytes(name: &[u8]) -> bool
    ensures { IsTrue result ↔ IsChildNameOfBytes name.now }
{
    are_bytes(name);
    is_child_name(name)
}

/// A node that can be removed: it is neither the root nor the node `images` below it.
#[derive(Drop)]
pub struct NodePlace {
    path: NodePath,
}

impl Model for NodePlace {
    ghost use Rattle.std.specs.Prelude.{ℕ, List};
    ghost use Rattle.bi_edit.specs.Places.{IsRemovable};

    ghost Value = { List (List ℕ) };

    ghost view = { λ place. place.path };

    ghost invariant = { λ place. IsRemovable place.path };
}

impl NodePlace {
    /// Returns the node at this path. Returns None exactly for the root and the node `images` below
    /// it.
    pub fn new(path: NodePath) -> Option<NodePlace>
        ensures some { IfSome result (λ place. (place ≡ path) × IsRemovable place) }
        ensures none { IfNone result (IsRemovable path → ⊥) }
    {
        if is_removable(&path) {
            Some(NodePlace { path })
        } else {
            None
        }
    }

    /// Returns the path of the node.
    pub fn path(&self) -> &NodePath
        ensures path { result.now ≡ self.now }
        ensures place { IsRemovable self.now }
    {
        &self.path
    }
}

/// Returns whether the node at a path can be removed.
fn is_removable(path: &NodePath) -> bool
    ensures { IsTrue result ↔ IsRemovable path.now }
{
    match path.names() {
        [] => false,
        [name] => name.as_slice() != b"images".as_slice(),
        _ => true,
    }
}

/// The name of an image.
#[derive(Drop)]
pub struct ImageName {
    name: Vec<u8>,
}

impl Model for ImageName {
    ghost use Rattle.std.specs.Prelude.{ℕ, List};
    ghost use Rattle.bi_edit.specs.Places.{IsChildNameOfBytes};

    ghost Value = { List ℕ };

    ghost view = { λ image. image.name.items };

    ghost invariant = { λ image. IsChildNameOfBytes image.name.items };
}

impl ImageName {
    /// Returns this name. Returns None if and only if a child may not have it.
    pub fn new(name: Vec<u8>) -> Option<ImageName>
        ensures some { IfSome result (λ image.
            (image ≡ name.items) × IsChildNameOfBytes image) }
        ensures none { IfNone result (IsChildNameOfBytes name.items → ⊥) }
    {
        if is_child_name_of_bytes(&name) {
            Some(ImageName { name })
        } else {
            None
        }
    }

    /// Returns the bytes of the name.
    pub fn as_bytes(&self) -> &[u8]
        ensures name { result.now ≡ self.now }
        ensures child { IsChildNameOfBytes self.now }
    {
        &self.name
    }
}

/// A property that can be set and removed: it is none of the four of an image node that hold a
/// payload or name its region.
#[derive(Drop)]
pub struct PropertyPlace {
    path: NodePath,
    name: Vec<u8>,
}

impl Model for PropertyPlace {
    ghost use Rattle.bi_edit.specs.Places.{PropertyPlaceModel, IsPlace};

    ghost Value = { PropertyPlaceModel };

    ghost view = { λ place. record { path = place.path; name = place.name.items } };

    ghost invariant = { λ place. IsPlace (record { path = place.path; name = place.name.items }) };
}

impl PropertyPlace {
    /// Returns the property with this name of the node at this path. Returns None if and only
    /// if a property may not have the name, or it is one of the four of an image node.
    pub fn new(path: NodePath, name: Vec<u8>) -> Option<PropertyPlace>
        ensures some { IfSome result (λ place.
            (place ≡ record { path = path; name = name.items }) × IsPlace place) }
        ensures none { IfNone result
            (IsPlace (record { path = path; name = name.items }) → ⊥) }
    {
        are_bytes(&name);
        if is_property_name(&name) && !(is_image_path(&path) && is_payload_name(&name)) {
            Some(PropertyPlace { path, name })
        } else {
            None
        }
    }

    /// Returns the path of the node.
    pub fn path(&self) -> &NodePath
        ensures path { result.now ≡ self.now.path }
        ensures place { IsPlace self.now }
    {
        &self.path
    }

    /// Returns the name of the property.
    pub fn name(&self) -> &[u8]
        ensures { result.now ≡ self.now.name }
    {
        &self.name
    }
}

/// Returns whether a path is that of an image node.
fn is_image_path(path: &NodePath) -> bool
    ensures { result ≡ is_image path.now }
{
    match path.names() {
        [first, _] => first.as_slice() == b"images".as_slice(),
        _ => false,
    }
}

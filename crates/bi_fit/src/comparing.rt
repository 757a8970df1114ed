//! Comparing what flattened image trees mean.

ghost use Rattle.std.specs.Prelude.{◌≡◌, ◌↔◌, IsTrue, IfOk, IfErr};
ghost use Rattle.bi_base.specs.declared.fault.Error.TheVariants.{OutOfMemory};
ghost use Rattle.bi_blob.specs.Tree.{EachOwn};
ghost use Rattle.bi_blob.specs.Lookups.{root_node};
ghost use Rattle.bi_fdt.specs.Content.{root_of};
ghost use Rattle.bi_fit.specs.Content.{tree_of};
ghost use Rattle.bi_fit.specs.NormalNodes.{HasDistinctNames, alone};
ghost use Rattle.bi_fit.specs.ComparedNodes.{compared_tree, AreSameBlobs};

mod nodes;
mod orders;
mod payloads;
mod properties;
mod region_pairs;
mod reservations;
mod role;

use crate::comparing::nodes::are_same_nodes;
use crate::comparing::orders::Orders;
use crate::comparing::payloads::have_same_payloads;
use crate::comparing::reservations::have_same_reservations;
use crate::comparing::role::Role;
use crate::fit::Fit;
use bi_base::Error;
use bi_fdt::Blob;
use std::alloc::{AllocError, Global};

impl<'a> Fit<'a> {
    /// Returns whether both files mean the same: they have the same boot processor, the same memory
    /// reservations and the same nodes, each in the same order, and nodes have the same properties
    /// by name. The payloads of images are compared, but not where the files have them.
    ///
    /// No normal text is made, so no limit applies. Properties are first put in the order of the
    /// numbers of their names, and names are compared by their numbers. Bytes that the payloads of
    /// several images share are compared once, if the distance between the offsets of the two
    /// payloads is the same each time.
    ///
    /// The only error is OutOfMemory.
    pub fn has_same_meaning(&self, alloc: Global, other: &Fit<'_>) -> Result<bool, Error>
        ensures compared { IfOk result (λ same. IsTrue same
            ↔ (tree_of self.now ≡ tree_of other.now)) }
        ensures failed { IfErr result (λ error. error ≡ OutOfMemory) }
    {
        self.give_invariant();
        other.give_invariant();
        if !are_same_blobs(alloc, self.blob(), other.blob())? {
            return Ok(false);
        }
        Ok(have_same_payloads(alloc, self, other)?)
    }
}

/// Returns whether both blobs have the same boot processor, the same memory reservations and the
/// same nodes, without the properties that give the payloads of images. Requires: in each blob, no
/// node has two properties with the same name.
fn are_same_blobs<'a>(alloc: Global, own: &Blob<'a>, other: &Blob<'a>) -> Result<bool, AllocError>
    requires distinct { EachOwn HasDistinctNames (alone (root_node (root_of own.now))) }
    requires other_distinct { EachOwn HasDistinctNames (alone (root_node (root_of other.now))) }
    ensures { IfOk result (λ same. IsTrue same ↔ AreSameBlobs own.now other.now) }
{
    Ok(
        own.boot_cpu() == other.boot_cpu()
            && have_same_reservations(own, other)
            && have_same_trees(alloc, own, other)?,
    )
}

/// Returns whether the trees of both blobs have the same nodes, without the properties that give
/// the payloads of images. Requires: in each blob, no node has two properties with the same name.
fn have_same_trees<'a>(alloc: Global, own: &Blob<'a>, other: &Blob<'a>) -> Result<bool, AllocError>
    requires distinct { EachOwn HasDistinctNames (alone (root_node (root_of own.now))) }
    requires other_distinct { EachOwn HasDistinctNames (alone (root_node (root_of other.now))) }
    ensures { IfOk result (λ same. IsTrue same
        ↔ (compared_tree own.now ≡ compared_tree other.now)) }
{
    let orders = Orders::new(alloc, own, other)?;
    Ok(are_same_nodes(own.root(), other.root(), Role::RootNode, &orders))
}

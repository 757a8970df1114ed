//! The hash nodes of images to be built.

ghost use Rattle.std.specs.Prelude.{◌≡◌, ◌^◌, ◌<◌, ℕ, List, length, map, string_bytes, IfOk};
ghost use Rattle.std.specs.List.{AllByRecursion};
ghost use Rattle.bi_fit.specs.Building.{hash_node_name};
ghost use Rattle.bi_fit.specs.BuiltNames.{built_names};
ghost use Rattle.bi_fit.specs.BuiltNodes.{built_digests, built_hash_leaves};
ghost use Rattle.bi_fit.specs.BuiltNodes.{hash_node_names as names_for};
ghost use Rattle.bi_fit.specs.Leaves.{leaf_model};

use crate::building::properties::hash_properties;
use crate::document::Leaf;
use crate::property_names::PropertyNames;
use bi_hash::Algo;
use std::alloc::{AllocError, Global};

/// Does nothing. Its contract states that a slice of algorithms has fewer than 2^64 elements, so
/// each hash node has a number of its own.
pub fn few_algorithms(algorithms: &[Algo])
    ensures { length algorithms.now < 2 ^ 64 }
{
    let _count = algorithms.len();
}

/// Returns the names of the hash nodes with these algorithms: `hash-1`, `hash-2`, and so on. Fails
/// if memory runs out.
pub(super) fn hash_node_names(alloc: Global, algorithms: &[Algo]) -> Result<Vec<String>, AllocError>
    ensures { IfOk result (λ names. map string_bytes names.items ≡ names_for 1 algorithms.now) }
{
    let mut names = Vec::with_capacity(alloc, algorithms.len())?;
    for index in 0..algorithms.len() {
        names.push(name_of_number(alloc, index + 1)?)?;
    }
    Ok(names)
}

/// Returns the name of the hash node with a number. Fails if memory runs out.
fn name_of_number(alloc: Global, number: usize) -> Result<String, AllocError>
    ensures { IfOk result (λ name. string_bytes name ≡ hash_node_name number) }
{
    format!(in alloc; "hash-{number}")
}

/// Returns the hash nodes with these names, algorithms and digests. Fails if memory runs out.
/// Requires: `names` are the names of a built tree, `hash_names` those of its hash nodes, and
/// `digests` those of one payload, one after another.
pub(super) fn hash_leaves<'a, 'b>(
    alloc: Global,
    names: &'b PropertyNames<'a>,
    hash_names: &'a [String],
    algorithms: &[Algo],
    digests: &'a [u8],
) -> Result<Vec<Leaf<'a, 'b>>, AllocError>
    requires names { names.now ≡ built_names }
    requires hash_names { map string_bytes hash_names.now ≡ names_for 1 algorithms.now }
    requires digests { (payload : List ℕ) × (digests.now ≡ built_digests algorithms.now payload) }
    ensures leaves { (payload : List ℕ)
        → digests.entry.now ≡ built_digests algorithms.now payload →
        IfOk result (λ leaves. map leaf_model leaves.items
        ≡ built_hash_leaves 1 algorithms.now payload) }
    ensures same_names { IfOk result (λ leaves.
        AllByRecursion (λ leaf. leaf.properties.names ≡ built_names) leaves.items) }
{
    let mut leaves = Vec::with_capacity(alloc, algorithms.len())?;
    let mut left = digests;
    for (index, algo) in algorithms.iter().enumerate() {
        let (digest, later) = left.split_at(algo.digest_size());
        leaves.push(Leaf {
            name: hash_names[index].as_bytes(),
            properties: hash_properties(alloc, names, *algo, digest)?,
        })?;
        left = later;
    }
    Ok(leaves)
}

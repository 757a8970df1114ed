//! The numbers of the children of nodes.

ghost use Rattle.std.specs.Prelude.{◌≤◌, map, length, drop, IfOk};
ghost use Rattle.bi_fdt.specs.Views.{node_of};
ghost use Rattle.bi_coverage.specs.ChildNumbers.{HasNumbersFrom};

use bi_fdt::NodeRef;
use std::alloc::{AllocError, Global};
use std::collections::BTreeMap;

/// Returns the index of each of these nodes from one on, by its name. Fails if memory runs out.
pub(crate) fn number_names<'a>(
    alloc: Global,
    nodes: &[NodeRef<'a, '_>],
    begin: usize,
) -> Result<BTreeMap<&'a [u8], usize>, AllocError>
    requires { begin ≤ length nodes.now }
    ensures { IfOk result (λ numbers.
        HasNumbersFrom begin (drop begin (map node_of nodes.now)) numbers) }
{
    let mut numbers = BTreeMap::new(alloc);
    // The first node with a name is inserted last, so its index stays.
    for index in (begin..nodes.len()).rev() {
        numbers.insert(nodes[index].name(), index)?;
    }
    Ok(numbers)
}

//! The nodes of a tree whose names have unit addresses.

ghost use Rattle.std.specs.Prelude.{◌≡◌, ◌==◌, ◌++◌, ◌∷◌, [], IfOk, OnOk, if◌then◌else◌, map};
ghost use Rattle.std.specs.List.{list_any};
ghost use Rattle.bi_base.specs.Slices.{bytes_of};
ghost use Rattle.bi_fdt.specs.Content.{root_of};
ghost use Rattle.bi_fdt.specs.Views.{node_of};
ghost use Rattle.bi_fit.specs.NormalNodes.{alone};
ghost use Rattle.bi_report.specs.ConcernValues.{name_lists};
ghost use Rattle.bi_report.specs.SignedTrees.{addresses_below, has_address as has_unit_address};

use bi_fdt::{Blob, NodeRef};
use std::alloc::{AllocError, Global};

/// The paths of nodes: of each the names of the nodes on the way to it, without the root.
pub(super) type Paths<'a> = Vec<Vec<&'a [u8]>>;

/// Returns the paths of the nodes of a blob whose names have unit addresses, a node before those
/// below it. Fails if memory runs out.
pub(super) fn unit_addresses<'a>(alloc: Global, blob: &Blob<'a>) -> Result<Paths<'a>, AllocError>
    ensures { IfOk result (λ paths. name_lists paths.items
        ≡ addresses_below [] (root_of blob.now).children) }
{
    let mut paths = Vec::new(alloc);
    let mut names = Vec::new(alloc);
    add_below(alloc, &mut paths, &mut names, blob.root())?;
    Ok(paths)
}

/// Adds the paths of those of the nodes below a node whose names have unit addresses. These are the
/// names on the path of the node. Fails if memory runs out.
#[cycle(nodes)]
fn add_below<'a>(
    alloc: Global,
    paths: &mut Paths<'a>,
    names: &mut Vec<&'a [u8]>,
    node: NodeRef<'a, '_>,
) -> Result<(), AllocError>
    ensures paths { OnOk result (name_lists paths.new.items ≡ name_lists paths.old.items
        ++ addresses_below (bytes_of names.old.items) (node_of node.entry).children) }
    ensures names { OnOk result (names.new.items ≡ names.old.items) }
{
    let mut next = node.first_child();
    while let Some(child) = next {
        add_node(alloc, paths, names, child)?;
        next = child.next_sibling();
    }
    Ok(())
}

/// Adds the path of a node, if its name has a unit address, and those of such nodes below it. These
/// are the names on the path of its parent. Fails if memory runs out.
#[cycle(nodes)]
fn add_node<'a>(
    alloc: Global,
    paths: &mut Paths<'a>,
    names: &mut Vec<&'a [u8]>,
    node: NodeRef<'a, '_>,
) -> Result<(), AllocError>
    ensures paths { OnOk result (name_lists paths.new.items ≡ name_lists paths.old.items
        ++ addresses_below (bytes_of names.old.items) (alone (node_of node.entry))) }
    ensures names { OnOk result (names.new.items ≡ names.old.items) }
{
    names.push(node.name())?;
    add_path(alloc, paths, names, node.name())?;
    add_below(alloc, paths, names, node)?;
    let _name = names.pop();
    Ok(())
}

/// Adds the path with these names, if this name has a unit address. Fails if memory runs out.
fn add_path<'a>(
    alloc: Global,
    paths: &mut Paths<'a>,
    names: &[&'a [u8]],
    name: &[u8],
) -> Result<(), AllocError>
    ensures { OnOk result (name_lists paths.new.items ≡ name_lists paths.old.items
        ++ (if has_unit_address name.now then bytes_of names.now ∷ [] else [])) }
{
    if has_address(name) {
        let mut path = Vec::new(alloc);
        path.extend_from_slice(names)?;
        paths.push(path)?;
    }
    Ok(())
}

/// Returns whether a name has the byte `@`.
fn has_address(name: &[u8]) -> bool
    ensures { result ≡ has_unit_address name.now }
{
    name.iter().any(|byte| *byte == b'@')
}

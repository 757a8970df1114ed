//! All nodes and properties of a flattened image tree.

ghost use Rattle.std.specs.Prelude.{◌≡◌, ◌+◌, ◌++◌, ◌<◌, ◌≤◌, ◌^◌, IfOk, OnOk, length, map};
ghost use Rattle.std.specs.List.{AllByRecursion};
ghost use Rattle.bi_blob.specs.Tree.{depth as levels};
ghost use Rattle.bi_fdt.specs.Properties.{file_property_of};
ghost use Rattle.bi_fdt.specs.Views.{node_of};
ghost use Rattle.bi_fit.specs.NormalNodes.{alone};
ghost use Rattle.bi_fit.specs.Reading.{IsFitReadError};
ghost use Rattle.bi_c.specs.Answers.{FillsBuffer};
ghost use Rattle.bi_c.specs.Calls.{IsFailureOfOne};
ghost use Rattle.bi_c.specs.TreeElements.{AreTreeElements, node_in_tree, property_in_tree};
ghost use Rattle.bi_c.specs.TreeElements.{tree_elements as elements_of_nodes};
ghost use Rattle.bi_c.specs.TreeRegions.{HasPropertyBytes, HaveNodeBytes};

use crate::answer::{Answer, fail, fill};
use crate::argument::wrong_limit;
use crate::arguments::limits_of;
use crate::failure::{Failure, failure_of};
use crate::nodes::name_region;
use crate::properties::property_element;
use crate::region::{NOWHERE, Region};
use bi_fdt::{NodeRef, Property};
use bi_fit::Fit;
use std::alloc::{AllocError, Global};

/// The number of what an element is: a node.
const NODE: u32 = 1;

/// The number of what an element is: a property of the last node before it.
const PROPERTY: u32 = 2;

/// A node of a flattened image tree, or a property of a node.
#[repr(C)]
#[derive(Clone, Copy, Debug, PartialEq, Eq)]
pub struct TreeElement {
    /// Where the name is in the file.
    pub name: Region,
    /// Where the value of a property is in the file. Both numbers are 0 for a node.
    pub value: Region,
    /// The number of nodes that contain it.
    pub depth: u32,
    /// The number of what it is: 1 for a node, and 2 for a property of the last node before it.
    pub kind: u32,
}

/// Writes all nodes of a flattened image tree to the beginning of an array: each node, its
/// properties, and then the nodes below it, in their order. Returns the status.
#[unsafe(no_mangle)]
pub extern "C" fn bootimg_nodes(
    alloc: Global,
    file: &[u8],
    limit: u32,
    depth: u32,
    elements: &mut [TreeElement],
    answer: &mut Answer,
) -> u32
    ensures { FillsBuffer (AreTreeElements limit depth file.now)
        (IsFailureOfOne limit depth (λ limits. IsFitReadError limits file.now))
        elements.old elements.new answer.new result }
{
    let Some(limits) = limits_of(limit, depth) else {
        return fail(Failure::WrongArgument(wrong_limit(limit), 0), answer);
    };
    let fit = match Fit::read(alloc, file, limits) {
        Ok(fit) => fit,
        Err(error) => return fail(failure_of(error), answer),
    };
    match tree_elements(alloc, file, fit.blob().root()) {
        Ok(made) => fill(&made, 0, elements, answer),
        Err(_) => fail(Failure::OutOfMemory, answer),
    }
}

/// Returns the elements of a node without a parent, and of all nodes below it. Fails if memory runs
/// out. Requires: the file has at least 16 bytes, and has the names and the values of these nodes
/// at their places; there are fewer than 2^32 levels of nodes.
fn tree_elements(
    alloc: Global,
    file: &[u8],
    root: NodeRef<'_, '_>,
) -> Result<Vec<TreeElement>, AllocError>
    requires header { 16 ≤ length file.now }
    requires bytes { HaveNodeBytes file.now (alone (node_of root)) }
    requires few { levels (alone (node_of root)) < 2 ^ 32 }
    ensures { IfOk result (λ elements. elements.items
        ≡ elements_of_nodes file.now 0 (alone (node_of root.entry))) }
{
    let mut elements = Vec::new(alloc);
    add_node(&mut elements, file, 0, root)?;
    Ok(elements)
}

/// Adds the elements of a node that so many nodes contain, and of all nodes below it. Fails if
/// memory runs out. Requires: as for `tree_elements`, with these nodes among the levels.
#[cycle(nodes)]
fn add_node(
    elements: &mut Vec<TreeElement>,
    file: &[u8],
    above: u32,
    node: NodeRef<'_, '_>,
) -> Result<(), AllocError>
    requires header { 16 ≤ length file.now }
    requires bytes { HaveNodeBytes file.now (alone (node_of node)) }
    requires few { above + levels (alone (node_of node)) < 2 ^ 32 }
    ensures { OnOk result (elements.new.items ≡ elements.old.items
        ++ elements_of_nodes file.now above (alone (node_of node.entry))) }
{
    elements.push(node_element(above, node))?;
    add_properties(elements, file, above + 1, node)?;
    add_children(elements, file, above + 1, node)?;
    Ok(())
}

/// Adds the elements of the children of a node, which so many nodes contain, and of all nodes below
/// them. Fails if memory runs out. Requires: as for `add_node`.
#[cycle(nodes)]
fn add_children(
    elements: &mut Vec<TreeElement>,
    file: &[u8],
    above: u32,
    node: NodeRef<'_, '_>,
) -> Result<(), AllocError>
    requires header { 16 ≤ length file.now }
    requires bytes { HaveNodeBytes file.now (node_of node).children }
    requires few { above + levels (node_of node).children < 2 ^ 32 }
    ensures { OnOk result (elements.new.items ≡ elements.old.items
        ++ elements_of_nodes file.now above (node_of node.entry).children) }
{
    let mut next = node.first_child();
    while let Some(child) = next {
        add_node(elements, file, above, child)?;
        next = child.next_sibling();
    }
    Ok(())
}

/// Adds the elements of the properties of a node, which so many nodes contain. Fails if memory runs
/// out. Requires: the file has at least 16 bytes, and has the name and the value of each property
/// at their places.
fn add_properties(
    elements: &mut Vec<TreeElement>,
    file: &[u8],
    above: u32,
    node: NodeRef<'_, '_>,
) -> Result<(), AllocError>
    requires header { 16 ≤ length file.now }
    requires regions { AllByRecursion (HasPropertyBytes file.now) (node_of node).own.properties }
    ensures { OnOk result (elements.new.items ≡ elements.old.items
        ++ map (property_in_tree file.now above) (node_of node.entry).own.properties) }
{
    for property in node.properties() {
        elements.push(property_of_tree(file, above, property))?;
    }
    Ok(())
}

/// Returns the element of a node that so many nodes contain.
fn node_element(above: u32, node: NodeRef<'_, '_>) -> TreeElement
    ensures { result ≡ node_in_tree above (node_of node.entry).own (node_of node.entry).name }
{
    TreeElement {
        name: name_region(node),
        value: NOWHERE,
        depth: above,
        kind: NODE,
    }
}

/// Returns the element of a property of a file, which so many nodes contain. Requires: the file has
/// at least 16 bytes, and has the name and the value of the property at their places.
fn property_of_tree(file: &[u8], above: u32, property: Property<'_>) -> TreeElement
    requires header { 16 ≤ length file.now }
    requires regions { HasPropertyBytes file.now (file_property_of property) }
    ensures { result ≡ property_in_tree file.now above (file_property_of property.entry) }
{
    let found = property_element(file, property);
    TreeElement {
        name: found.name,
        value: found.value,
        depth: above,
        kind: PROPERTY,
    }
}

//! The properties of a node.

ghost use Rattle.std.specs.Prelude.{◌≡◌, ◌≤◌, length, map};
ghost use Rattle.std.specs.List.{AllByRecursion};
ghost use Rattle.bi_fdt.specs.Properties.{file_property_of};
ghost use Rattle.bi_fdt.specs.Views.{node_of};
ghost use Rattle.bi_c.specs.Answers.{Answers, FillsBuffer, IsThisOutput};
ghost use Rattle.bi_c.specs.NodeElements.{ArePropertyElements, IsNodeFailure, IsPropertyFailure};
ghost use Rattle.bi_c.specs.NodeElements.{IsValueAt, element_of_property};
ghost use Rattle.bi_c.specs.TreeRegions.{HasPropertyBytes};

use crate::answer::{Answer, DONE, NO_ROOM, answer_with, fail, succeed};
use crate::argument::wrong_limit;
use crate::arguments::limits_of;
use crate::failure::{Failure, NO_NODE, NO_PROPERTY, failure_of};
use crate::paths::node_at;
use crate::region::Region;
use bi_base::cell_at;
use bi_fdt::{NodeRef, Property};
use bi_fit::Fit;
use std::alloc::Global;

/// The offset of off_dt_strings in the header of a blob (Devicetree Specification, 5.2).
const OFF_DT_STRINGS: usize = 12;

/// A property of a node.
#[repr(C)]
#[derive(Clone, Copy, Debug, PartialEq, Eq)]
pub struct PropertyElement {
    /// Where the name is in the file.
    pub name: Region,
    /// Where the value is in the file.
    pub value: Region,
}

/// Writes the properties of the node at a path of a flattened image tree, in their order, to the
/// beginning of an array. Returns the status.
#[unsafe(no_mangle)]
pub extern "C" fn bootimg_properties(
    alloc: Global,
    file: &[u8],
    path: &[u8],
    limit: u32,
    depth: u32,
    properties: &mut [PropertyElement],
    answer: &mut Answer,
) -> u32
    ensures { FillsBuffer (ArePropertyElements limit depth file.now path.now)
        (IsNodeFailure limit depth file.now path.now)
        properties.old properties.new answer.new result }
{
    let Some(limits) = limits_of(limit, depth) else {
        return fail(Failure::WrongArgument(wrong_limit(limit), 0), answer);
    };
    let fit = match Fit::read(alloc, file, limits) {
        Ok(fit) => fit,
        Err(error) => return fail(failure_of(error), answer),
    };
    match node_at(&fit, path) {
        Some(node) => fill_properties(file, node, properties, answer),
        None => fail(Failure::NotFound(NO_NODE, 0), answer),
    }
}

/// Finds the value of the property with the given name of the node at a path of a flattened image
/// tree. Sets `answer.value` to the offset of its first byte in the file, and `answer.size` to its
/// size in bytes. Returns the status.
#[unsafe(no_mangle)]
pub extern "C" fn bootimg_property_value(
    alloc: Global,
    file: &[u8],
    path: &[u8],
    name: &[u8],
    limit: u32,
    depth: u32,
    answer: &mut Answer,
) -> u32
    ensures { Answers (IsValueAt limit depth file.now path.now name.now)
        (IsPropertyFailure limit depth file.now path.now name.now) answer.new result }
{
    let Some(limits) = limits_of(limit, depth) else {
        return fail(Failure::WrongArgument(wrong_limit(limit), 0), answer);
    };
    let fit = match Fit::read(alloc, file, limits) {
        Ok(fit) => fit,
        Err(error) => return fail(failure_of(error), answer),
    };
    let Some(node) = node_at(&fit, path) else {
        return fail(Failure::NotFound(NO_NODE, 0), answer);
    };
    match node.find_property(name) {
        Some(property) => succeed(property.value.len(), property.place as usize + 12, answer),
        None => fail(Failure::NotFound(NO_PROPERTY, 0), answer),
    }
}

/// Writes the properties of a node of a file to an array, and the answer. Returns the status.
/// Requires: the file has at least 16 bytes, and has the name and the value of each property at
/// their places.
fn fill_properties(
    file: &[u8],
    node: NodeRef<'_, '_>,
    elements: &mut [PropertyElement],
    answer: &mut Answer,
) -> u32
    requires header { 16 ≤ length file.now }
    requires regions { AllByRecursion (HasPropertyBytes file.now) (node_of node).own.properties }
    ensures { FillsBuffer (IsThisOutput
        (map (element_of_property file.now) (node_of node.entry).own.properties) 0)
        (λ failure. ⊥) elements.old elements.new answer.new result }
{
    let count = node.property_count();
    *answer = answer_with(count, 0);
    if elements.len() < count {
        return NO_ROOM;
    }
    let mut index = 0;
    for property in node.properties() {
        elements[index] = property_element(file, property);
        index += 1;
    }
    DONE
}

/// Returns the element of a property of a file. Requires: the file has at least 16 bytes, and has
/// the name and the value of the property at their places.
pub(crate) fn property_element(file: &[u8], property: Property<'_>) -> PropertyElement
    requires header { 16 ≤ length file.now }
    requires regions { HasPropertyBytes file.now (file_property_of property) }
    ensures { result ≡ element_of_property file.now (file_property_of property.entry) }
{
    let strings = cell_at(file, OFF_DT_STRINGS) as usize;
    let place = property.place as usize;
    PropertyElement {
        name: Region {
            offset: strings + cell_at(file, place + 8) as usize,
            size: property.name.len(),
        },
        value: Region {
            offset: place + 12,
            size: property.value.len(),
        },
    }
}

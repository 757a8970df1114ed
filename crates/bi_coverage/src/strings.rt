//! The ends of the names of properties in the strings block.

ghost use Rattle.std.specs.Prelude.{◌≡◌, ◌∷◌, []};
ghost use Rattle.std.specs.List.{AllByRecursion};
ghost use Rattle.std.specs.Option.{option_map};
ghost use Rattle.bi_fdt.specs.Properties.{file_property_of};
ghost use Rattle.bi_fdt.specs.Views.{node_of};
ghost use Rattle.bi_coverage.specs.Coverage.{name_end as name_end_of, names_end as names_end_of};
ghost use Rattle.bi_coverage.specs.Coverage.{properties_end, has_strings};
ghost use Rattle.bi_coverage.specs.NodeIndices.{HasTokenIn};

use bi_base::cell_at;
use bi_fdt::{NodeRef, Property};
use bi_fit::is_payload_name;

/// Returns where the name of a property ends in the strings block of a file, with the zero after
/// it. Requires: the token of the property is in the file.
fn name_end(file: &[u8], property: Property) -> usize
    requires { HasTokenIn file.now (file_property_of property) }
    ensures { result ≡ name_end_of file.now (file_property_of property.entry) }
{
    cell_at(file, property.place as usize + 8) as usize + property.name.len() + 1
}

/// Returns where the last name of the properties of a node ends in the strings block of a file. The
/// properties of a payload do not count. Requires: the tokens of the properties are in the file.
pub(crate) fn names_end(file: &[u8], node: NodeRef) -> usize
    requires { AllByRecursion (HasTokenIn file.now) (node_of node).own.properties }
    ensures { result ≡ names_end_of file.now (node_of node.entry).own }
{
    let mut end = 0;
    for property in node.properties() {
        end = counted_end(file, property).max(end);
    }
    end
}

/// Returns where the name of a property ends in the strings block of a file, or 0 if the property
/// does not count. Requires: the token of the property is in the file.
fn counted_end(file: &[u8], property: Property) -> usize
    requires { HasTokenIn file.now (file_property_of property) }
    ensures { result ≡ properties_end file.now (file_property_of property.entry ∷ []) }
{
    if is_payload_name(property.name) {
        return 0;
    }
    name_end(file, property)
}

/// Returns whether a value of `hashed-strings` reaches an end in the strings block.
pub(crate) fn has_strings(value: Option<&[u8]>, end: usize) -> bool
    ensures { result ≡ has_strings (option_map (λ value. value.now) value.entry) end }
{
    let Some(value) = value else {
        return false;
    };
    if value.len() != 8 {
        return false;
    }
    end <= cell_at(value, 4) as usize
}

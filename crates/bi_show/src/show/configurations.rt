//! The table of the configurations of a flattened image tree.

ghost use Rattle.std.specs.Prelude.{◌≡◌, IfOk};
ghost use Rattle.std.specs.List.{list_any};
ghost use Rattle.bi_blob.specs.Lookups.{siblings};
ghost use Rattle.bi_fdt.specs.Views.{node_of};
ghost use Rattle.bi_fit.specs.HashNodes.{file_configurations};
ghost use Rattle.bi_show.specs.FitPages.{configuration_heading, configurations_table, has_key};
ghost use Rattle.bi_show.specs.FitPages.{configuration_row as row_of_configuration};
ghost use Rattle.bi_show.specs.FitPages.{used_keys as used_keys_of};
ghost use Rattle.bi_show.specs.Rows.{cells_of_rows, cells_of_row};

use super::cells::{CellForm, name_cell, property_cell};
use super::tables::{Row, Table};
use bi_fdt::NodeRef;
use bi_fit::{Fit, Key};
use std::alloc::{AllocError, Global};

/// Returns the table of the configurations.
pub(super) fn configuration_rows(alloc: Global, fit: &Fit) -> Result<Table, AllocError>
    ensures { IfOk result (λ rows. cells_of_rows rows.items
        ≡ configurations_table (siblings (file_configurations fit.now.blob))) }
{
    let keys = used_keys(alloc, fit)?;
    let mut rows = vec![in alloc; heading(alloc, &keys)?]?;
    for node in fit.configuration_nodes() {
        rows.push(configuration_row(alloc, node, &keys)?)?;
    }
    Ok(rows)
}

/// Returns the keys that a configuration has.
fn used_keys(alloc: Global, fit: &Fit) -> Result<Vec<Key>, AllocError>
    ensures { IfOk result (λ keys. keys.items
        ≡ used_keys_of (siblings (file_configurations fit.now.blob))) }
{
    let mut keys = Vec::new(alloc);
    for key in Key::ALL {
        if is_used(fit, key) {
            keys.push(key)?;
        }
    }
    Ok(keys)
}

/// Returns whether a configuration has this key.
fn is_used(fit: &Fit, key: Key) -> bool
    ensures { result ≡ list_any (has_key key) (siblings (file_configurations fit.now.blob)) }
{
    for node in fit.configuration_nodes() {
        if node.property(key.name().as_bytes()).is_some() {
            return true;
        }
    }
    false
}

/// Returns the heading of the table, with these keys.
fn heading(alloc: Global, keys: &[Key]) -> Result<Row, AllocError>
    ensures { IfOk result (λ row. cells_of_row row.items ≡ configuration_heading keys.now) }
{
    let mut row = vec![in alloc; String::from_str(alloc, "configuration")?]?;
    for key in keys {
        row.push(String::from_str(alloc, key.name())?)?;
    }
    row.push(String::from_str(alloc, "compatible")?)?;
    Ok(row)
}

/// Returns the row of the configuration of a node, with these keys.
fn configuration_row(alloc: Global, node: NodeRef, keys: &[Key]) -> Result<Row, AllocError>
    ensures { IfOk result (λ row. cells_of_row row.items
        ≡ row_of_configuration keys.now (node_of node.entry)) }
{
    let mut row = vec![in alloc; name_cell(alloc, Some(node.name()))?]?;
    for key in keys {
        row.push(property_cell(alloc, node, key.name(), CellForm::Names)?)?;
    }
    row.push(property_cell(alloc, node, "compatible", CellForm::Value)?)?;
    Ok(row)
}

//! The table of the signature nodes of a flattened image tree.

ghost use Rattle.std.specs.Prelude.{◌≡◌, ◌∷◌, ◌++◌, [], IfOk, OnOk, flat_map, map, string_bytes};
ghost use Rattle.std.specs.Option.{option_map};
ghost use Rattle.bi_blob.specs.Lookups.{siblings};
ghost use Rattle.bi_coverage.specs.Coverage.{configuration_coverage};
ghost use Rattle.bi_coverage.specs.Signatures.{has_bytes as has_bytes_in};
ghost use Rattle.bi_coverage.specs.Values.{configuration_value, meaning_of_sibling};
ghost use Rattle.bi_coverage.specs.Values.{signature_concern};
ghost use Rattle.bi_coverage.specs.Values.{meaning_of_node, signature_value};
ghost use Rattle.bi_fdt.specs.Content.{root_of};
ghost use Rattle.bi_fdt.specs.Views.{node_of};
ghost use Rattle.bi_fit.specs.Content.{tree_of};
ghost use Rattle.bi_fit.specs.HashNodes.{file_configurations, file_images, file_signatures};
ghost use Rattle.bi_fit.specs.Names.{configurations_name, images_name, is_signature_name};
ghost use Rattle.bi_fit.specs.Siblings.{siblings_left};
ghost use Rattle.bi_common.specs.Shown.{path};
ghost use Rattle.bi_report.specs.ConcernValues.{IsCoverageOf};
ghost use Rattle.bi_show.specs.FitPages.{concerns_cell as cell_of_concerns};
ghost use Rattle.bi_show.specs.FitPages.{configuration_signature_row, image_signature_row};
ghost use Rattle.bi_show.specs.FitPages.{has_signature as has_signature_in, payload_cell};
ghost use Rattle.bi_show.specs.FitPages.{signature_row as row_of_signature, signatures_table};
ghost use Rattle.bi_show.specs.Rows.{cells_of_rows, cells_of_row};

use super::cells::{CellForm, field_cell, property_cell};
use super::tables::{Row, Table, words_row};
use bi_base::are_bytes;
use bi_common::fields::Field;
use bi_coverage::{ConfigurationCoverage, SignatureConcern, SignatureCoverage};
use bi_fdt::NodeRef;
use bi_fit::Fit;
use bi_fit::nodes::Siblings;
use bi_report::check::FitCoverage;
use std::alloc::{AllocError, Global};

/// The word for what a signature node covers that has no value.
const NOTHING: &str = "nothing";

/// Returns the table of the signature nodes. Requires: the coverage is that of the tree.
pub(super) fn signature_rows(
    alloc: Global,
    fit: &Fit,
    coverage: &FitCoverage,
) -> Result<Table, AllocError>
    requires covered { IsCoverageOf fit.now coverage.now }
    ensures { IfOk result (λ rows. cells_of_rows rows.items
        ≡ signatures_table fit.now.blob.file (root_of fit.now.blob) (tree_of fit.now)
        (siblings (file_images fit.now.blob)) (siblings (file_configurations fit.now.blob))) }
{
    let heading = ["signature", "algorithm", "key", "verdict", "covers"];
    let mut rows = vec![in alloc; words_row(alloc, &heading)?]?;
    add_image_signatures(alloc, &mut rows, fit)?;
    add_configuration_signatures(alloc, &mut rows, fit, &coverage.configurations)?;
    Ok(rows)
}

/// Appends the rows of the signature nodes of the images.
fn add_image_signatures(alloc: Global, rows: &mut Vec<Row>, fit: &Fit) -> Result<(), AllocError>
    ensures { OnOk result (cells_of_rows rows.new.items ≡ cells_of_rows rows.old.items
        ++ flat_map (λ entry. map (image_signature_row entry) (file_signatures entry))
        (siblings (file_images fit.now.blob))) }
{
    for node in fit.image_nodes() {
        add_signatures_of_image(alloc, rows, node)?;
    }
    Ok(())
}

/// Appends the rows of the signature nodes of an image.
fn add_signatures_of_image(
    alloc: Global,
    rows: &mut Vec<Row>,
    node: NodeRef,
) -> Result<(), AllocError>
    ensures { OnOk result (cells_of_rows rows.new.items ≡ cells_of_rows rows.old.items
        ++ map (image_signature_row (node_of node.entry)) (file_signatures (node_of node.entry))) }
{
    for child in Siblings::children(node) {
        if is_signature(child) {
            let covers = payload_word(child);
            rows.push(signature_row(alloc, b"images", node.name(), child, covers)?)?;
        }
    }
    Ok(())
}

/// Appends the rows of the signature nodes of the configurations, which have this coverage.
/// Requires: it is that of the tree.
fn add_configuration_signatures(
    alloc: Global,
    rows: &mut Vec<Row>,
    fit: &Fit,
    coverage: &[ConfigurationCoverage],
) -> Result<(), AllocError>
    requires covered { map configuration_value coverage.now
        ≡ map (λ entry. configuration_coverage fit.now (meaning_of_sibling entry))
        (siblings (file_configurations fit.now.blob)) }
    ensures { OnOk result (cells_of_rows rows.new.items ≡ cells_of_rows rows.old.items
        ++ flat_map (λ entry. map (configuration_signature_row fit.now.blob.file
        (root_of fit.now.blob) (tree_of fit.now) entry) (file_signatures entry))
        (siblings (file_configurations fit.now.blob))) }
{
    let mut left = coverage;
    for node in fit.configuration_nodes() {
        let [covered, later @ ..] = left else {
            unreachable!();
        };
        left = later;
        add_signatures_of_configuration(alloc, rows, fit, node, &covered.signatures)?;
    }
    Ok(())
}

/// Appends the rows of the signature nodes of a configuration, whose signed nodes have this
/// coverage. Requires: it is that of the configuration.
fn add_signatures_of_configuration(
    alloc: Global,
    rows: &mut Vec<Row>,
    fit: &Fit,
    node: NodeRef,
    coverage: &[SignatureCoverage],
) -> Result<(), AllocError>
    requires covered { map signature_value coverage.now
        ≡ (configuration_coverage fit.now (meaning_of_node node)).signatures }
    ensures { OnOk result (cells_of_rows rows.new.items ≡ cells_of_rows rows.old.items
        ++ map (configuration_signature_row fit.now.blob.file (root_of fit.now.blob)
        (tree_of fit.now) (node_of node.entry)) (file_signatures (node_of node.entry))) }
{
    let mut left = coverage;
    for child in Siblings::children(node) {
        if is_signature(child) {
            let mut covers = NOTHING;
            if has_signature(child) {
                let [covered, later @ ..] = left else {
                    unreachable!();
                };
                left = later;
                covers = concerns_word(&covered.concerns);
            }
            rows.push(signature_row(alloc, b"configurations", node.name(), child, covers)?)?;
        }
    }
    Ok(())
}

/// Returns whether a child of an image node or of a configuration node is a signature node.
pub(super) fn is_signature(child: NodeRef) -> bool
    ensures { result ≡ is_signature_name (node_of child.entry).name }
{
    child.name().starts_with(b"signature")
}

/// Returns whether a signature node has a signature: a value that is not empty.
pub(super) fn has_signature(node: NodeRef) -> bool
    ensures { result ≡ has_signature_in (node_of node.entry) }
{
    has_bytes(node.property(b"value"))
}

/// Returns whether there is a value, and it is not empty.
fn has_bytes(value: Option<&[u8]>) -> bool
    ensures { result ≡ has_bytes_in (option_map (λ value. value.now) value.entry) }
{
    match value {
        Some(value) => !value.is_empty(),
        None => false,
    }
}

/// Returns the word for what a signature node of an image covers.
fn payload_word(signature: NodeRef) -> &'static str
    ensures { result.now ≡ payload_cell (node_of signature.entry) }
{
    if has_signature(signature) {
        "payload"
    } else {
        NOTHING
    }
}

/// Returns the words for what a signed node of a configuration covers, by the concerns about it.
fn concerns_word(concerns: &[SignatureConcern]) -> &'static str
    ensures { result.now ≡ cell_of_concerns (map signature_concern concerns.now) }
{
    match concerns {
        [] => "whole configuration",
        _ => "not the whole configuration",
    }
}

/// Returns the row of a signature node, which covers this. It is a child of a node of this name,
/// whose parent has the name `parent`.
fn signature_row(
    alloc: Global,
    parent: &[u8],
    name: &[u8],
    signature: NodeRef,
    covers: &str,
) -> Result<Row, AllocError>
    ensures { IfOk result (λ row. cells_of_row row.items
        ≡ row_of_signature parent.now name.now covers.now (node_of signature.entry)) }
{
    let path = path_cell(alloc, parent, name, signature.name())?;
    let algorithm = property_cell(alloc, signature, "algo", CellForm::Value)?;
    let key = property_cell(alloc, signature, "key-name-hint", CellForm::Value)?;
    let verdict = String::from_str(alloc, "not verified")?;
    let covers = String::from_str(alloc, covers)?;
    Ok(vec![in alloc; path, algorithm, key, verdict, covers]?)
}

/// Returns the path of a child of a node, by the names of the node's parent, the node and the
/// child. The parent is a child of the root.
fn path_cell(alloc: Global, parent: &[u8], node: &[u8], child: &[u8]) -> Result<String, AllocError>
    ensures { IfOk result (λ text. string_bytes text
        ≡ path (parent.now ∷ node.now ∷ child.now ∷ [])) }
{
    are_bytes(parent);
    are_bytes(node);
    are_bytes(child);
    field_cell(alloc, Field::Path(&[parent, node, child]))
}

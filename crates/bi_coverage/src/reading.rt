//! Reading what the signatures of configurations cover.

ghost use Rattle.std.specs.Prelude.{◌≡◌, ◌+◌, ◌<◌, ◌≤◌, ◌++◌, ◌∷◌, [], if◌then◌else◌, map, Some};
ghost use Rattle.std.specs.Prelude.{IfOk, IfErr, IfSome, OnOk};
ghost use Rattle.std.specs.Option.{option_map};
ghost use Rattle.bi_base.specs.Errors.{IsFaultOrNoMemory};
ghost use Rattle.bi_base.specs.Reading.{too_large};
ghost use Rattle.bi_base.specs.Slices.{bytes_of};
ghost use Rattle.bi_blob.specs.Lookups.{siblings, siblings_from};
ghost use Rattle.bi_fdt.specs.Views.{node_of, table_of_node};
ghost use Rattle.bi_fit.specs.Content.{IsHeld, tree_of};
ghost use Rattle.bi_fit.specs.HashNodes.{file_configurations};
ghost use Rattle.bi_fit.specs.Judgement.{listed_names};
ghost use Rattle.bi_fit.specs.NormalNodes.{HasDistinctNames};
ghost use Rattle.bi_coverage.specs.Coverage.{Foreign, Strings, coverage_of, configuration_coverage};
ghost use Rattle.bi_coverage.specs.Coverage.{has_strings as reaches};
ghost use Rattle.bi_coverage.specs.Coverage.{concerns_of_paths, path_differences, signature_with};
ghost use Rattle.bi_coverage.specs.Coverage.{reference_concerns};
ghost use Rattle.bi_coverage.specs.Coverage.{strings_concerns, uncovered_concerns, foreign_paths};
ghost use Rattle.bi_coverage.specs.Numbers.{sum_of as total_of};
ghost use Rattle.bi_coverage.specs.Signatures.{all_needed_length, needed_lengths, parts_for};
ghost use Rattle.bi_coverage.specs.Signatures.{paths_of_parts, total_length, covered_below};
ghost use Rattle.bi_coverage.specs.Signatures.{recorded_paths};
ghost use Rattle.bi_coverage.specs.Values.{configuration_value, signature_value, signature_concern};
ghost use Rattle.bi_coverage.specs.Values.{meaning_of_node};
ghost use Rattle.bi_coverage.specs.NeededParts.{part_value};

use crate::concern::SignatureConcern;
use crate::covered_names::covered_by_image;
use crate::listed_paths::{is_covered, listed_paths, lists_parts};
use crate::name_set::NameSet;
use crate::needed::{
    add_image_length, add_length, add_lengths, image_part, needed_paths, single_part,
};
use crate::needed_part::NeededPart;
use crate::needs::Needs;
use crate::node_index::NodeIndex;
use crate::paths::copy_path;
use crate::references::{order_by_names, references};
use crate::signed::{has_signed_node, recorded_list, signed_nodes};
use crate::strings::has_strings;
use bi_base::{Error, Fault, Limits};
use bi_fdt::{NodeRef, PropertyOrder};
use bi_fit::Fit;
use std::alloc::{AllocError, Global};
use std::marker::Model;

/// A signed node of a configuration, and the concerns about it.
#[derive(Debug, Drop)]
pub struct SignatureCoverage<'a> {
    /// The name of the node.
    pub name: &'a [u8],
    /// The concerns, in their order.
    pub concerns: Vec<SignatureConcern<'a>>,
}

/// A configuration, and its signed nodes.
#[derive(Debug, Drop)]
pub struct ConfigurationCoverage<'a> {
    /// The name of the configuration.
    pub name: &'a [u8],
    /// The signed nodes, in their order in the file.
    pub signatures: Vec<SignatureCoverage<'a>>,
}

/// Returns the configurations of a flattened image tree, in their order in the file, each with its
/// signed nodes and the concerns about them.
///
/// The lengths of the paths that a configuration needs, once for each of its signed nodes, are
/// bounded, all of them together, by the limit on files.
///
/// Errors: TooLarge at that limit, only if they are more; OutOfMemory.
pub fn read_coverage<'a>(
    alloc: Global,
    fit: &Fit<'a>,
    limits: Limits,
) -> Result<Vec<ConfigurationCoverage<'a>>, Error>
    requires held { IsHeld fit.now }
    ensures read { IfOk result (λ read. map configuration_value read.items ≡ coverage_of fit.now) }
    ensures within { IfOk result (λ _. all_needed_length (tree_of fit.now) ≤ limits.file) }
    ensures failed { IfErr result (IsFaultOrNoMemory (λ fault. (fault ≡ too_large limits.file)
        × (limits.file < all_needed_length (tree_of fit.now)))) }
{
    if let Some(read) = unsigned_configurations(alloc, fit)? {
        return Ok(read);
    }
    read_configurations(alloc, fit, limits)
}

/// Returns the configurations of a flattened image tree, in their order in the file, if none of
/// them has a signed node. Returns None if one of them has. Fails if memory runs out. Requires: the
/// tree was read.
fn unsigned_configurations<'a>(
    alloc: Global,
    fit: &Fit<'a>,
) -> Result<Option<Vec<ConfigurationCoverage<'a>>>, AllocError>
    requires held { IsHeld fit.now }
    ensures read { IfOk result (λ found. IfSome found (λ read.
        map configuration_value read.items ≡ coverage_of fit.now)) }
    ensures none_needed { IfOk result (λ found. IfSome found (λ _.
        all_needed_length (tree_of fit.now) ≡ 0)) }
{
    let mut read = Vec::new(alloc);
    for configuration in fit.configuration_nodes() {
        if has_signed_node(configuration) {
            return Ok(None);
        }
        read.push(ConfigurationCoverage {
            name: configuration.name(),
            signatures: Vec::new(alloc),
        })?;
    }
    Ok(Some(read))
}

/// Does what `read_coverage` does, with an index of the tree.
fn read_configurations<'a>(
    alloc: Global,
    fit: &Fit<'a>,
    limits: Limits,
) -> Result<Vec<ConfigurationCoverage<'a>>, Error>
    requires held { IsHeld fit.now }
    ensures read { IfOk result (λ read. map configuration_value read.items ≡ coverage_of fit.now) }
    ensures within { IfOk result (λ _. all_needed_length (tree_of fit.now) ≤ limits.file) }
    ensures failed { IfErr result (IsFaultOrNoMemory (λ fault. (fault ≡ too_large limits.file)
        × (limits.file < all_needed_length (tree_of fit.now)))) }
{
    let indexed = IndexedFit::new(alloc, fit, limits.file())?;
    let mut read = Vec::new(alloc);
    let mut total = 0;
    let mut next = first_configuration(fit);
    while let Some(configuration) = next {
        let (coverage, sum) = indexed.read_configuration(alloc, configuration, total)?;
        read.push(coverage)?;
        total = sum;
        next = configuration.next_sibling();
    }
    Ok(read)
}

/// Returns the first configuration node, if there is one.
fn first_configuration<'a, 'b>(fit: &'b Fit<'a>) -> Option<NodeRef<'a, 'b>>
    ensures node { siblings_from (option_map node_of result)
        ≡ siblings (file_configurations fit.now.blob) }
    ensures same_table { IfSome result (λ node. table_of_node node ≡ fit.now.blob.table) }
{
    let configurations = fit.blob().root().child(b"configurations")?;
    configurations.first_child()
}

/// A flattened image tree with what is looked up in it for its signatures.
#[derive(Drop)]
struct IndexedFit<'a, 'b> {
    fit: &'b Fit<'a>,
    limit: u32,
    /// The order of the properties of each node by their names.
    order: PropertyOrder,
    /// For each image, the names of the children that a signature must cover.
    covered: Vec<Vec<&'a [u8]>>,
    nodes: NodeIndex<'a, 'b>,
}

impl<'a, 'b> Model for IndexedFit<'a, 'b> {
    ghost use Rattle.bi_coverage.specs.IndexedFits.{IndexedFit, IsIndexedFit};
    ghost use Rattle.bi_coverage.specs.Values.{names_in_lists};

    ghost Value = { IndexedFit };

    ghost view = { λ indexed. record { content = indexed.fit.now; limit = indexed.limit } };

    ghost invariant = { λ indexed. IsIndexedFit indexed.fit.now indexed.order
        (names_in_lists indexed.covered.items) indexed.nodes };
}

impl<'a, 'b> IndexedFit<'a, 'b> {
    /// Prepares what is looked up in a flattened image tree. Fails if memory runs out. Requires:
    /// the tree was read.
    fn new(alloc: Global, fit: &'b Fit<'a>, limit: u32) -> Result<IndexedFit<'a, 'b>, AllocError>
        requires held { IsHeld fit.now }
        ensures { IfOk result (λ indexed. indexed
            ≡ record { content = fit.entry.now; limit = limit }) }
    {
        Ok(IndexedFit {
            fit,
            limit,
            order: order_by_names(alloc, fit.blob())?,
            covered: covered_by_image(alloc, fit)?,
            nodes: NodeIndex::new(alloc, fit.blob())?,
        })
    }

    /// Returns the names of the children of an image that a signature must cover.
    fn covered_names(&self, image: &[u8]) -> &[&'a [u8]]
        ensures { bytes_of result.now ≡ covered_below (tree_of self.now.content) image.now }
    {
        match self.fit.image(image) {
            Some(index) => &self.covered[index],
            None => &[],
        }
    }

    /// Reads a configuration. Also returns the sum of `total` and the lengths of the paths that it
    /// needs, once for each signed node.
    ///
    /// Errors: TooLarge at the limit, only if the sum is more than that; OutOfMemory.
    fn read_configuration(
        &self,
        alloc: Global,
        configuration: NodeRef<'a, '_>,
        total: usize,
    ) -> Result<(ConfigurationCoverage<'a>, usize), Error>
        requires same_table { table_of_node configuration ≡ self.now.content.blob.table }
        requires distinct { HasDistinctNames (node_of configuration).own }
        requires within { total ≤ self.now.limit }
        ensures read { IfOk result (λ read. configuration_value read.0
            ≡ configuration_coverage self.now.content (meaning_of_node configuration.entry)) }
        ensures sum { IfOk result (λ read. read.1 ≡ total
            + total_of (needed_lengths (tree_of self.now.content)
            (meaning_of_node configuration.entry))) }
        ensures within { IfOk result (λ read. read.1 ≤ self.now.limit) }
        ensures failed { IfErr result (IsFaultOrNoMemory (λ fault.
            (fault ≡ too_large self.now.limit) × (self.now.limit < total
            + total_of (needed_lengths (tree_of self.now.content)
            (meaning_of_node configuration.entry))))) }
    {
        let name = configuration.name();
        let signed = signed_nodes(alloc, configuration)?;
        if signed.is_empty() {
            let signatures = Vec::new(alloc);
            return Ok((ConfigurationCoverage { name, signatures }, total));
        }
        let references = references(alloc, self.fit, configuration, &self.order)?;
        let length = self.needed_length(name, references.names())?;
        let sum = add_lengths(total, length, signed.len(), self.limit)?;
        let parts = self.needed_parts(alloc, name, references.names())?;
        let needs = Needs {
            references: references.names(),
            parts: &parts,
        };
        let signatures = self.read_signatures(alloc, &signed, needs)?;
        Ok((ConfigurationCoverage { name, signatures }, sum))
    }

    /// Reads these signed nodes of a configuration with these needs. Fails if memory runs out.
    fn read_signatures(
        &self,
        alloc: Global,
        signed: &[NodeRef<'a, '_>],
        needs: Needs<'a, '_>,
    ) -> Result<Vec<SignatureCoverage<'a>>, AllocError>
        ensures { IfOk result (λ read. map signature_value read.items ≡ map
            (signature_with self.now.content (bytes_of needs.entry.references.now)
            (map part_value needs.entry.parts.now))
            (map meaning_of_node signed.now)) }
    {
        let mut signatures = Vec::new(alloc);
        for signature in signed {
            signatures.push(self.read_signature(alloc, *signature, needs)?)?;
        }
        Ok(signatures)
    }

    /// Returns how long the needed paths are together of the configuration with this name and
    /// these references. Error: TooLarge at the limit, if that is more.
    fn needed_length(&self, name: &[u8], references: &[&[u8]]) -> Result<usize, Fault>
        ensures length { IfOk result (λ length. length ≡ total_length (paths_of_parts
            (parts_for (tree_of self.now.content) name.now (bytes_of references.now)))) }
        ensures within { IfOk result (λ length. length ≤ self.now.limit) }
        ensures fault { IfErr result (λ fault. (fault ≡ too_large self.now.limit)
            × (self.now.limit < total_length (paths_of_parts
            (parts_for (tree_of self.now.content) name.now (bytes_of references.now))))) }
    {
        // The lengths of the root's path and of `/configurations/`.
        let mut length = add_length(0, 17, self.limit)?;
        length = add_length(length, name.len(), self.limit)?;
        for image in references {
            length = add_image_length(length, image, self.covered_names(image), self.limit)?;
        }
        Ok(length)
    }

    /// Returns what a signature of the configuration with this name and these references must
    /// cover. Fails if memory runs out.
    fn needed_parts(
        &self,
        alloc: Global,
        name: &[u8],
        references: &[&[u8]],
    ) -> Result<Vec<NeededPart>, AllocError>
        ensures { IfOk result (λ parts. map part_value parts.items ≡ parts_for
            (tree_of self.now.content) name.now (bytes_of references.now)) }
    {
        let mut parts = Vec::new(alloc);
        parts.push(single_part(alloc, &[])?)?;
        parts.push(single_part(alloc, &[b"configurations", name])?)?;
        for image in references {
            parts.push(image_part(alloc, image, self.covered_names(image))?)?;
        }
        Ok(parts)
    }

    /// Reads a signed node of a configuration with these needs. Fails if memory runs out.
    fn read_signature(
        &self,
        alloc: Global,
        signature: NodeRef<'a, '_>,
        needs: Needs<'a, '_>,
    ) -> Result<SignatureCoverage<'a>, AllocError>
        ensures { IfOk result (λ read. signature_value read
            ≡ signature_with self.now.content (bytes_of needs.entry.references.now)
            (map part_value needs.entry.parts.now) (meaning_of_node signature.entry)) }
    {
        Ok(SignatureCoverage {
            name: signature.name(),
            concerns: self.concerns(alloc, signature, needs)?,
        })
    }

    /// Returns the concerns about a signed node of a configuration with these needs. Fails if
    /// memory runs out.
    fn concerns(
        &self,
        alloc: Global,
        signature: NodeRef<'a, '_>,
        needs: Needs<'a, '_>,
    ) -> Result<Vec<SignatureConcern<'a>>, AllocError>
        ensures { IfOk result (λ concerns. map signature_concern concerns.items
            ≡ concerns_of_paths (bytes_of needs.entry.references.now)
            (map part_value needs.entry.parts.now)
            (recorded_paths (meaning_of_node signature.entry))
            ++ strings_concerns self.now.content (meaning_of_node signature.entry)) }
    {
        let mut concerns = Vec::new(alloc);
        let Some(list) = recorded_list(signature) else {
            concerns.push(SignatureConcern::NoNodes)?;
            return Ok(concerns);
        };
        add_path_concerns(alloc, &mut concerns, list, needs)?;
        let strings = signature.property(b"hashed-strings");
        add_strings_concern(&mut concerns, strings, self.nodes.recorded_end(list))?;
        Ok(concerns)
    }
}

/// Adds the concerns about the paths that a value lists. Fails if memory runs out.
fn add_path_concerns<'a>(
    alloc: Global,
    concerns: &mut Vec<SignatureConcern<'a>>,
    list: &'a [u8],
    needs: Needs<'a, '_>,
) -> Result<(), AllocError>
    ensures { OnOk result (map signature_concern concerns.new.items
        ≡ map signature_concern concerns.old.items
        ++ concerns_of_paths (bytes_of needs.entry.references.now)
        (map part_value needs.entry.parts.now) (Some (listed_names list.entry.now))) }
{
    add_image_concern(concerns, needs.references)?;
    // Most signatures record exactly the needed paths: then no set of names is made.
    if lists_parts(list, needs.parts) {
        return Ok(());
    }
    add_differences(alloc, concerns, list, needs.parts)?;
    Ok(())
}

/// Adds the concerns about the parts that are not covered by the paths that a value lists, and
/// about those paths that are not needed. Fails if memory runs out.
fn add_differences<'a>(
    alloc: Global,
    concerns: &mut Vec<SignatureConcern<'a>>,
    list: &'a [u8],
    parts: &[NeededPart],
) -> Result<(), AllocError>
    ensures { OnOk result (map signature_concern concerns.new.items
        ≡ map signature_concern concerns.old.items
        ++ path_differences (map part_value parts.now) (listed_names list.entry.now)) }
{
    let recorded = listed_paths(alloc, list)?;
    let needed = needed_paths(alloc, parts)?;
    add_uncovered(alloc, concerns, &recorded, parts)?;
    add_foreign(concerns, &recorded, &needed)?;
    Ok(())
}

/// Adds the concern that a value of `hashed-strings` does not reach an end in the strings block, if
/// it does not. Fails if memory runs out.
fn add_strings_concern(
    concerns: &mut Vec<SignatureConcern>,
    strings: Option<&[u8]>,
    end: usize,
) -> Result<(), AllocError>
    ensures { OnOk result (map signature_concern concerns.new.items
        ≡ map signature_concern concerns.old.items
        ++ (if reaches (option_map (λ value. value.now) strings.entry) end
        then [] else Strings ∷ [])) }
{
    if has_strings(strings, end) {
        return Ok(());
    }
    concerns.push(SignatureConcern::Strings)?;
    Ok(())
}

/// Adds the concern that no image is referenced, if that is so. Fails if memory runs out.
fn add_image_concern(
    concerns: &mut Vec<SignatureConcern>,
    references: &[&[u8]],
) -> Result<(), AllocError>
    ensures { OnOk result (map signature_concern concerns.new.items
        ≡ map signature_concern concerns.old.items
        ++ reference_concerns (bytes_of references.now)) }
{
    if references.is_empty() {
        concerns.push(SignatureConcern::NoImages)?;
    }
    Ok(())
}

/// Adds the concerns about the parts that are not covered by recorded paths. Fails if memory runs
/// out.
fn add_uncovered(
    alloc: Global,
    concerns: &mut Vec<SignatureConcern>,
    recorded: &NameSet,
    parts: &[NeededPart],
) -> Result<(), AllocError>
    ensures { OnOk result (map signature_concern concerns.new.items
        ≡ map signature_concern concerns.old.items
        ++ uncovered_concerns recorded.now (map part_value parts.now)) }
{
    for part in parts {
        if !is_covered(recorded, part) {
            let path = copy_path(alloc, &part.path)?;
            concerns.push(SignatureConcern::Uncovered(path))?;
        }
    }
    Ok(())
}

/// Adds the concerns about the recorded paths that are not needed. Fails if memory runs out.
fn add_foreign<'a>(
    concerns: &mut Vec<SignatureConcern<'a>>,
    recorded: &NameSet<'a>,
    needed: &NameSet,
) -> Result<(), AllocError>
    ensures { OnOk result (map signature_concern concerns.new.items
        ≡ map signature_concern concerns.old.items
        ++ map Foreign (foreign_paths recorded.now needed.now)) }
{
    for path in recorded.names() {
        if !needed.contains(path) {
            concerns.push(SignatureConcern::Foreign(*path))?;
        }
    }
    Ok(())
}

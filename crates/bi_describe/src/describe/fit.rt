//! The description of a flattened image tree.

ghost use Rattle.std.specs.Prelude.{◌≡◌, ◌≤◌, IfOk, IfErr, OnOk, length, map};
ghost use Rattle.bi_fit.specs.Content.{IsHeld, tree_of};
ghost use Rattle.bi_norm.specs.Meaning.{OfFit};
ghost use Rattle.bi_common.specs.declared.format.Format.{Format};
ghost use Rattle.bi_common.specs.JsonTokens.{json_tokens};
ghost use Rattle.bi_common.specs.LineTokens.{tokens_of_lines};
ghost use Rattle.bi_common.specs.PayloadBounds.{IsOverPayloadBound};
ghost use Rattle.bi_describe.specs.DeepDescribing.{IsDeepImageError};
ghost use Rattle.bi_describe.specs.Devicetrees.{AreInside, Insides};
ghost use Rattle.bi_describe.specs.ReadDescription.{read_lines, read_tokens};
ghost use Rattle.bi_describe.specs.Describing.{IsImageError};
ghost use Rattle.bi_describe.specs.DescriptionJson.{fit_object};
ghost use Rattle.bi_describe.specs.Descriptions.{fit_lines, head_lines};
ghost use Rattle.bi_describe.specs.TreeEntries.{most_open, as_entry};

use super::entries::Entry;
use super::image_nodes::entries_of;
use super::json::put_fit;
use super::lines::{most_open, put_tree};
use bi_base::{Error, Limits};
use bi_common::common_lines::put_reservation_lines;
use bi_common::fields::Field;
use bi_common::json_writer::JsonPen;
use bi_common::lines::{LinePen, put_lines};
use bi_common::payload_bounds::BoundedFit;
use bi_fdt::Blob;
use bi_fit::Fit;
use std::alloc::Global;

/// What the description of a flattened image tree is made from.
#[derive(Drop)]
pub(crate) struct DescribedFit<'a, 'b> {
    pub(crate) blob: &'b Blob<'a>,
    pub(crate) entries: Vec<Entry<'a>>,
    /// Room for the names of all nodes that are open at once.
    pub(super) names: Vec<&'a [u8]>,
    ghost room: { most_open 0 (map as_entry entries.items) ≤ length names.items },
}

impl<'a, 'b> DescribedFit<'a, 'b> {
    ghost use Rattle.bi_describe.specs.DescribedImages.{HoldsDescribedTree};

    /// Returns what the description of a flattened image tree is made from. Requires: the tree was
    /// read.
    ///
    /// Errors: TooLarge at the limit, if the payloads together are longer than that, or if the
    /// description is, for which the names of properties are enough; OutOfMemory.
    pub(super) fn new(
        alloc: Global,
        fit: &'b Fit<'a>,
        limits: Limits,
    ) -> Result<DescribedFit<'a, 'b>, Error>
        requires held { IsHeld fit.now }
        ensures within { OnOk result (¬ (IsOverPayloadBound limits (OfFit (tree_of fit.now)))) }
        ensures holds { IfOk result (HoldsDescribedTree (tree_of fit.entry.now)) }
        ensures lines { IfOk result (λ described.
            read_lines described.blob.now (map as_entry described.entries.items)
            ≡ fit_lines (tree_of fit.entry.now)) }
        ensures tokens { IfOk result (λ described.
            read_tokens described.blob.now (map as_entry described.entries.items)
            ≡ json_tokens (fit_object (tree_of fit.entry.now))) }
        ensures failed { IfErr result (λ error. (format : Format)
            → IsImageError format limits (OfFit (tree_of fit.now)) error) }
        ensures deep_failed { IfErr result (λ error. (format : Format) (insides : Insides)
            → AreInside limits (OfFit (tree_of fit.now)) insides
            → IsDeepImageError format limits (OfFit (tree_of fit.now)) error) }
    {
        let bounded = BoundedFit::new(fit, limits)?;
        let order = fit.name_order(alloc, limits.file())?;
        let entries = entries_of(alloc, bounded, &order.properties)?;
        let names = vec![in alloc; b"".as_slice(); most_open(&entries)]?;
        Ok(DescribedFit {
            blob: fit.blob(),
            entries,
            names,
        })
    }

    /// Puts the lines.
    pub(super) fn put_lines<L: LinePen>(&mut self, pen: &mut L)
        ensures put { L.puts pen.old (tokens_of_lines
            (read_lines self.old.blob.now (map as_entry self.old.entries.items))) pen.new }
        ensures same_blob { self.new.blob ≡ self.old.blob }
        ensures same_entries { self.new.entries ≡ self.old.entries }
    {
        put_head(self.blob.boot_cpu(), pen);
        put_reservation_lines(self.blob, pen);
        put_tree(&self.entries, &mut self.names, pen);
    }

    /// Puts the object.
    pub(super) fn put_object<J: JsonPen>(&self, json: &mut J)
        ensures { J.puts json.old
            (read_tokens self.now.blob.now (map as_entry self.now.entries.items)) json.new }
    {
        put_fit(self.blob, &self.entries, json);
    }
}

/// Puts the line of the kind, and that of the boot processor.
pub(super) fn put_head<L: LinePen>(boot_cpu: u32, pen: &mut L)
    ensures { L.puts pen.old (tokens_of_lines (head_lines boot_cpu)) pen.new }
{
    put_lines(
        &[
            [Field::Text(b"kind"), Field::Text(b"fit")],
            [
                Field::Text(b"boot-cpu"),
                Field::Decimal(u64::from(boot_cpu)),
            ],
        ],
        pen,
    );
}

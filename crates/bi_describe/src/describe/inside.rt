//! The devicetree inside a payload.

mod blobs;
mod paths;
mod that_stay;

ghost use Rattle.std.specs.Prelude.{◌≡◌, ◌+◌, ◌∷◌, ◌<◌, ◌≤◌, ◌↔◌, IfErr, IfOk, IsTrue, List};
ghost use Rattle.std.specs.Prelude.{OnOk, Some, get_or, length, map, ℕ};
ghost use Rattle.bi_blob.specs.Blob.{end_pair};
ghost use Rattle.bi_blob.specs.Tree.{with_each_node};
ghost use Rattle.bi_common.specs.CommonLines.{reservation_of};
ghost use Rattle.bi_common.specs.JsonTokens.{member_tokens};
ghost use Rattle.bi_common.specs.LineTokens.{line_tokens, tokens_of_lines};
ghost use Rattle.bi_describe.specs.ComparedNodes.{plain_compared};
ghost use Rattle.bi_describe.specs.DeepDescriptions.{inside_cpu_line, inside_lines, line_inside};
ghost use Rattle.bi_describe.specs.DeepDescriptions.{inside_reservation_line, whole_devicetree};
ghost use Rattle.bi_describe.specs.DeepJson.{inside_members};
ghost use Rattle.bi_describe.specs.Devicetrees.{Devicetree};
ghost use Rattle.bi_describe.specs.InsideTrees.{IsBlobInside, IsNamesError, devicetree_of};
ghost use Rattle.bi_describe.specs.InsideTrees.{long_names};
ghost use Rattle.bi_describe.specs.EntryTokens.{root_tokens};
ghost use Rattle.bi_describe.specs.MadeWords.{ignored_words};
ghost use Rattle.bi_describe.specs.ReadDescription.{root_lines};
ghost use Rattle.bi_describe.specs.ReducedMeanings.{ReducedTree, kept_root as kept_root_of};
ghost use Rattle.bi_describe.specs.TreeEntries.{EntryModel, as_entry, most_open as most_open_of};

use super::deep_pen::DeepPen;
use super::entries::Entry;
use super::json::{put_members_of_blob, put_root};
use super::kept::have_same_heads;
use super::lines::{most_open, put_tree};
use crate::ignored::Ignored;
use bi_base::{Error, Limits};
use bi_common::fields::Field;
use bi_common::json_writer::{JsonPen, JsonToken};
use bi_common::lines::{LinePen, put_line};
use bi_fdt::Blob;
pub(super) use blobs::read_blob;
use blobs::{count_names, entries_of_blob};
use paths::InsidePen;
use std::alloc::{AllocError, Global};
use that_stay::{have_same_nodes, nodes_that_stay};

/// The nodes of a devicetree, with room for what their lines need.
#[derive(Drop)]
struct InsideNodes<'a> {
    /// The properties of the root, and the nodes below it.
    entries: Vec<Entry<'a>>,
    /// Room for the names of all nodes that are open at once.
    names: Vec<&'a [u8]>,
    ghost room: { most_open_of 0 (map as_entry entries.items) ≤ length names.items },
}

impl<'a> InsideNodes<'a> {
    /// Returns the nodes with these entries.
    ///
    /// Fails only if memory runs out.
    fn new(alloc: Global, entries: Vec<Entry<'a>>) -> Result<InsideNodes<'a>, AllocError>
        ensures { IfOk result (λ nodes. map as_entry nodes.entries.items
            ≡ map as_entry entries.entry.items) }
    {
        let names = vec![in alloc; b"".as_slice(); most_open(&entries)]?;
        Ok(InsideNodes { entries, names })
    }

    /// Puts the lines of the nodes and of their properties. The payload has this path.
    fn put_lines<L: DeepPen>(&mut self, payload: &[u8], pen: &mut L)
        ensures put { L.puts pen.old (tokens_of_lines
            (map (line_inside payload.now) (root_lines (map as_entry self.old.entries.items))))
            pen.new }
        ensures same { self.new.entries ≡ self.old.entries }
    {
        let mut inside = InsidePen::new(payload, pen);
        put_tree(&self.entries, &mut self.names, &mut inside);
    }
}

/// A devicetree inside a payload, or what stays of it once something is left out.
#[derive(Drop)]
pub(crate) struct InsideTree<'a> {
    /// The path of the payload.
    path: Vec<u8>,
    blob: Blob<'a>,
    /// The nodes, unless the root is left out.
    nodes: Option<InsideNodes<'a>>,
}

impl<'a> InsideTree<'a> {
    ghost use Rattle.bi_describe.specs.MadeInsides.{HoldsInside, entries_inside};

    /// Returns the devicetree that is this blob, inside the payload with this path. There is room
    /// for so many bytes of long names of properties, and less after the call.
    ///
    /// Errors: TooLarge at the limit, if they are longer; OutOfMemory.
    pub(super) fn new(
        alloc: Global,
        path: Vec<u8>,
        blob: Blob<'a>,
        room: &mut usize,
        limits: Limits,
    ) -> Result<InsideTree<'a>, Error>
        requires inside { IsBlobInside limits blob.file blob }
        ensures holds { IfOk result
            (HoldsInside path.items (whole_devicetree (devicetree_of blob.entry))) }
        ensures room { OnOk result
            (room.old ≤ room.new + long_names (Some (devicetree_of blob.entry))) }
        ensures failed { IfErr result
            (IsNamesError limits.file room.old
            (long_names (Some (devicetree_of blob.entry)))) }
    {
        count_names(blob.names(), room, limits.file())?;
        let entries = entries_of_blob(alloc, &blob)?;
        let nodes = Some(InsideNodes::new(alloc, entries)?);
        Ok(InsideTree { path, blob, nodes })
    }

    /// Leaves these words out of the tree.
    ///
    /// Fails only if memory runs out.
    pub(super) fn leave_out(&mut self, alloc: Global, words: &[Ignored]) -> Result<(), AllocError>
        ensures { OnOk result ((payload : List ℕ) (tree : Devicetree)
            → HoldsInside payload (whole_devicetree tree) self.old → HoldsInside payload
            (record {
              cpu = tree.cpu;
              reservations = tree.reservations;
              root = kept_root_of (ignored_words words.now)
                  (with_each_node plain_compared tree.root);
            }) self.new) }
    {
        self.nodes = nodes_that_stay(alloc, &self.nodes, words)?;
        Ok(())
    }

    /// Returns whether two trees have the same boot processor, the same memory reservations and the
    /// same nodes, if their roots are not left out.
    pub(super) fn is_same(&self, other: &InsideTree<'_>) -> bool
        ensures { (payload : List ℕ) (tree others : ReducedTree) → HoldsInside payload tree self.now
            → HoldsInside payload others other.now → IsTrue result ↔ (tree ≡ others) }
    {
        have_same_heads(&self.blob, &other.blob) && have_same_nodes(&self.nodes, &other.nodes)
    }

    /// Puts the lines.
    pub(super) fn put_lines<L: DeepPen>(&mut self, pen: &mut L)
        ensures put { (payload : List ℕ) (tree : ReducedTree) → HoldsInside payload tree self.old
            → L.puts pen.old (tokens_of_lines (inside_lines payload tree)) pen.new }
        ensures same { (payload : List ℕ) (tree : ReducedTree) → HoldsInside payload tree self.old
            → HoldsInside payload tree self.new }
    {
        put_head(&self.path, &self.blob, pen);
        if let Some(nodes) = &mut self.nodes {
            nodes.put_lines(&self.path, pen);
        }
    }

    /// Puts the member of the devicetree. Requires: nothing is left out of it.
    pub(super) fn put_member<J: JsonPen>(&self, json: &mut J)
        ensures { (payload : List ℕ) (tree : Devicetree)
            → HoldsInside payload (whole_devicetree tree) self.now
            → J.puts json.old (member_tokens (inside_members (Some tree))) json.new }
    {
        json.put(JsonToken::Name("devicetree"));
        json.put(JsonToken::BeginObject);
        put_members_of_blob(&self.blob, json);
        self.put_root_member(json);
        json.put(JsonToken::EndObject);
    }

    /// Puts the member of the root, if that is not left out.
    fn put_root_member<J: JsonPen>(&self, json: &mut J)
        ensures { (entries : List EntryModel) → entries_inside self.now.nodes ≡ Some entries
            → J.puts json.old (root_tokens entries) json.new }
    {
        if let Some(nodes) = &self.nodes {
            put_root(&nodes.entries, json);
        }
    }
}

/// Puts the lines of the boot processor and of the memory reservations. The payload has this path.
fn put_head<L: LinePen>(payload: &[u8], blob: &Blob, pen: &mut L)
    ensures { L.puts pen.old (tokens_of_lines (inside_cpu_line payload.now blob.now.cpu
        ∷ map (inside_reservation_line payload.now) blob.now.reservations)) pen.new }
{
    put_line(
        &[
            Field::Text(b"inside"),
            Field::Text(payload),
            Field::Text(b"boot-cpu"),
            Field::Decimal(u64::from(blob.boot_cpu())),
        ],
        pen,
    );
    put_reservations(payload, blob, pen);
}

/// Puts a line for each memory reservation. The payload has this path.
fn put_reservations<L: LinePen>(payload: &[u8], blob: &Blob, pen: &mut L)
    ensures { L.puts pen.old (tokens_of_lines
        (map (inside_reservation_line payload.now) blob.now.reservations)) pen.new }
{
    for index in 0..blob.reservation_count() {
        put_reservation(payload, reservation_at(blob, index), pen);
    }
}

/// Returns the address and the size of a memory reservation. Requires: there is one at this index.
fn reservation_at(blob: &Blob, index: usize) -> (u64, u64)
    requires { index < length blob.now.reservations }
    ensures { reservation_of result ≡ get_or blob.now.reservations index end_pair }
{
    blob.reservation(index).unwrap_or_default()
}

/// Puts the line of a memory reservation. The payload has this path.
fn put_reservation<L: LinePen>(payload: &[u8], numbers: (u64, u64), pen: &mut L)
    ensures { L.puts pen.old
        (line_tokens (inside_reservation_line payload.now (reservation_of numbers))) pen.new }
{
    let (address, size) = numbers;
    put_line(
        &[
            Field::Text(b"inside"),
            Field::Text(payload),
            Field::Text(b"reservation"),
            Field::Hexadecimal64(address),
            Field::Hexadecimal64(size),
        ],
        pen,
    );
}

//! What a deep description is made from.

ghost use Rattle.std.specs.Prelude.{◌≡◌, ◌≤◌, ◌∷◌, [], Option, Some, if◌then◌else◌, length, map};
ghost use Rattle.std.specs.Option.{option_map};
ghost use Rattle.bi_legacy.specs.Meaning.{image_of};
ghost use Rattle.bi_fit.specs.ImageTree.{ImageTree};
ghost use Rattle.bi_norm.specs.Meaning.{OfFit, OfLegacy};
ghost use Rattle.bi_common.specs.JsonTokens.{json_tokens, value_tokens};
ghost use Rattle.bi_common.specs.LineTokens.{tokens_of_lines};
ghost use Rattle.bi_common.specs.MadeFields.{bytes_of_names};
ghost use Rattle.bi_describe.specs.DeepDescribing.{deep_text};
ghost use Rattle.bi_describe.specs.DeepDescriptions.{deep_lines, line_at};
ghost use Rattle.bi_describe.specs.DeepDescriptions.{lines_with_inside, name_of_last};
ghost use Rattle.bi_describe.specs.DeepEntries.{deep_entry_tokens, entry_tokens_with};
ghost use Rattle.bi_describe.specs.DeepEntries.{last_begun};
ghost use Rattle.bi_describe.specs.DeepJson.{deep_object, deep_part_objects, inside_members};
ghost use Rattle.bi_describe.specs.DeepJson.{object_with_inside};
ghost use Rattle.bi_describe.specs.DescriptionJson.{digest_object_with, payload_or_null_with};
ghost use Rattle.bi_describe.specs.DescribedImages.{HoldsDescribedTree};
ghost use Rattle.bi_describe.specs.Descriptions.{description_lines, part_line, part_lines};
ghost use Rattle.bi_describe.specs.Devicetrees.{DeepMeaning, Insides as Trees};
ghost use Rattle.bi_describe.specs.Ignoring.{OfImageNamed, OfPart, PayloadPlace as Place};
ghost use Rattle.bi_describe.specs.DeepDescriptions.{insides_shown};
ghost use Rattle.bi_describe.specs.MadeInsides.{HoldInsides, HoldsDeep, is_one_of_places};
ghost use Rattle.bi_describe.specs.MadeInsides.{shown_by, whole_devicetrees};
ghost use Rattle.bi_describe.specs.MadeDigests.{digest_made};
ghost use Rattle.bi_describe.specs.MadeParts.{bytes_of_parts, digest_of_part};
ghost use Rattle.bi_describe.specs.ReadDescription.{root_lines};
ghost use Rattle.bi_describe.specs.ReducedMeanings.{ReducedTree};
ghost use Rattle.bi_describe.specs.ImagePayloads.{bytes_of_payload};
ghost use Rattle.bi_describe.specs.TreeEntries.{PayloadEntry, as_entry, entry_lines};
ghost use Rattle.bi_describe.specs.TreeEntries.{lines_of_entry, most_open as most_open_of};

use super::DescribedImage;
use super::deep_pen::{DeepPen, DeepWriter};
use super::entries::{Entry, PayloadDigest};
use super::fit::{DescribedFit, put_head};
use super::image_payload::ImagePayload;
use super::insides::Insides;
use super::json::{self, put_digest_members, put_processor_members, put_reservations_member};
use super::legacy::{DescribedLegacy, put_part};
use super::lines::{open_after, put_entry, put_node};
use super::part::DescribedPart;
use crate::ignored::{PayloadPlace, has_image, has_part};
use bi_base::Pen;
use bi_common::common_lines::{put_header_lines, put_header_members, put_reservation_lines};
use bi_common::format::Format;
use bi_common::json_writer::{JsonPen, JsonToken, JsonValue, JsonWriter, put_value};

/// What a deep description is made from.
#[derive(Drop)]
pub(crate) struct DeepImage<'a, 'b> {
    pub(crate) described: DescribedImage<'a, 'b>,
    pub(crate) insides: Insides<'a, 'b>,
}

impl<'a, 'b> DeepImage<'a, 'b> {
    /// Puts the lines.
    pub(crate) fn put_lines<L: DeepPen>(&mut self, pen: &mut L)
        ensures put { (deep : DeepMeaning) → HoldsDeep deep self.old
            → L.puts pen.old (tokens_of_lines (deep_lines deep)) pen.new }
        ensures same { (deep : DeepMeaning) → HoldsDeep deep self.old → HoldsDeep deep self.new }
    {
        match &mut self.described {
            DescribedImage::Legacy(image) => put_legacy_lines(image, &mut self.insides, pen),
            DescribedImage::Fit(fit) => put_fit_lines(fit, &mut self.insides, pen),
        }
    }

    /// Puts the object.
    fn put_object<J: JsonPen>(&self, json: &mut J)
        ensures { (deep : DeepMeaning) → HoldsDeep deep self.now
            → J.puts json.old (json_tokens (deep_object deep)) json.new }
    {
        match &self.described {
            DescribedImage::Legacy(image) => put_legacy_object(image, &self.insides, json),
            DescribedImage::Fit(fit) => put_fit_object(fit, &self.insides, json),
        }
    }

    /// Puts the deep description, in a form.
    pub(super) fn put<P: Pen>(&mut self, format: Format, pen: &mut P)
        ensures put { (deep : DeepMeaning) → HoldsDeep deep self.old
            → P.puts pen.old (deep_text format deep) pen.new }
        ensures same { (deep : DeepMeaning) → HoldsDeep deep self.old → HoldsDeep deep self.new }
    {
        match format {
            Format::Lines => self.put_lines(&mut DeepWriter::new(pen)),
            Format::Json => {
                self.put_object(&mut JsonWriter::new(pen));
                pen.put(b"\n");
            }
        }
    }
}

// ---- lines

/// Puts the lines of a legacy image.
fn put_legacy_lines<L: DeepPen>(image: &DescribedLegacy, insides: &mut Insides, pen: &mut L)
    ensures put { (trees : Trees) → HoldInsides (whole_devicetrees trees) insides.old
        → L.puts pen.old
        (tokens_of_lines (lines_with_inside (insides_shown trees) (description_lines
        (OfLegacy (image_of image.now.fields (bytes_of_parts image.now.parts.items)))))) pen.new }
    ensures same { (trees : Place → Option ReducedTree) → HoldInsides trees insides.old
        → HoldInsides trees insides.new }
{
    put_header_lines(image.fields, pen);
    put_parts(&image.parts, insides, pen);
}

/// Puts the lines of parts, and of what is inside them.
fn put_parts<L: DeepPen>(parts: &[DescribedPart], insides: &mut Insides, pen: &mut L)
    ensures put { (trees : Trees) → HoldInsides (whole_devicetrees trees) insides.old
        → L.puts pen.old
        (tokens_of_lines (lines_with_inside (insides_shown trees)
        (part_lines 0 (map digest_of_part parts.now)))) pen.new }
    ensures same { (trees : Place → Option ReducedTree) → HoldInsides trees insides.old
        → HoldInsides trees insides.new }
{
    for index in 0..parts.len() {
        put_part_with_inside(index, parts[index], insides, &[], pen);
    }
}

/// Puts the line of a part, unless it is one of these, and the lines of what is inside it.
pub(super) fn put_part_with_inside<L: DeepPen>(
    index: usize,
    part: DescribedPart,
    insides: &mut Insides,
    opened: &[&PayloadPlace],
    pen: &mut L,
)
    ensures put { (trees : Place → Option ReducedTree) → HoldInsides trees insides.old
        → L.puts pen.old
        (tokens_of_lines (line_at (shown_by trees opened.now) (Some (OfPart index))
        (part_line index (digest_of_part part.entry)))) pen.new }
    ensures same { (trees : Place → Option ReducedTree) → HoldInsides trees insides.old
        → HoldInsides trees insides.new }
{
    put_part_unless_opened(index, part, opened, pen);
    insides.put_lines_of_part(index, pen);
}

/// Puts the line of a part, unless it is one of these.
fn put_part_unless_opened<L: DeepPen>(
    index: usize,
    part: DescribedPart,
    opened: &[&PayloadPlace],
    pen: &mut L,
)
    ensures { L.puts pen.old (tokens_of_lines (if is_one_of_places opened.now (OfPart index) then []
        else part_line index (digest_of_part part.entry) ∷ [])) pen.new }
{
    if !has_part(opened, index) {
        put_part(index, part, pen);
    }
}

/// Puts the lines of a flattened image tree.
fn put_fit_lines<L: DeepPen>(fit: &mut DescribedFit, insides: &mut Insides, pen: &mut L)
    ensures put { (tree : ImageTree) (trees : Trees) → HoldsDescribedTree tree fit.old
        → HoldInsides (whole_devicetrees trees) insides.old → L.puts pen.old (tokens_of_lines
        (lines_with_inside (insides_shown trees) (description_lines (OfFit tree)))) pen.new }
    ensures same { (tree : ImageTree) → HoldsDescribedTree tree fit.old
        → HoldsDescribedTree tree fit.new }
    ensures same_insides { (trees : Place → Option ReducedTree) → HoldInsides trees insides.old
        → HoldInsides trees insides.new }
{
    put_head(fit.blob.boot_cpu(), pen);
    put_reservation_lines(fit.blob, pen);
    put_tree_with_inside(&fit.entries, &mut fit.names, insides, &[], pen);
}

/// Puts the lines of a tree with these entries, but for those of these payloads, and those of what
/// is inside the payloads. Requires: `names` has room for the names of all nodes that are open at
/// once.
pub(super) fn put_tree_with_inside<'a, L: DeepPen>(
    entries: &[Entry<'a>],
    names: &mut [&'a [u8]],
    insides: &mut Insides,
    opened: &[&PayloadPlace],
    pen: &mut L,
)
    requires { most_open_of 0 (map as_entry entries.now) ≤ length names.old }
    ensures put { (trees : Place → Option ReducedTree) → HoldInsides trees insides.old
        → L.puts pen.old (tokens_of_lines (lines_with_inside (shown_by trees opened.now)
        (root_lines (map as_entry entries.now)))) pen.new }
    ensures same { (trees : Place → Option ReducedTree) → HoldInsides trees insides.old
        → HoldInsides trees insides.new }
    ensures room { length names.new ≡ length names.old }
{
    put_node(&[], pen);
    put_entries_with_inside(entries, names, insides, opened, pen);
}

/// Puts the lines of these entries, but for those of these payloads, and those of what is inside
/// the payloads. Requires: `names` has room for the names of all nodes that are open at once.
fn put_entries_with_inside<'a, L: DeepPen>(
    entries: &[Entry<'a>],
    names: &mut [&'a [u8]],
    insides: &mut Insides,
    opened: &[&PayloadPlace],
    pen: &mut L,
)
    requires { most_open_of 0 (map as_entry entries.now) ≤ length names.old }
    ensures put { (trees : Place → Option ReducedTree) → HoldInsides trees insides.old
        → L.puts pen.old (tokens_of_lines (lines_with_inside (shown_by trees opened.now)
        (entry_lines [] (map as_entry entries.now)))) pen.new }
    ensures same { (trees : Place → Option ReducedTree) → HoldInsides trees insides.old
        → HoldInsides trees insides.new }
    ensures room { length names.new ≡ length names.old }
{
    let mut open = 0;
    for entry in entries {
        open = open_after(*entry, names, open);
        put_entry_with_inside(*entry, &names[..open], insides, opened, pen);
    }
}

/// Puts the line of an entry, if it has one and is not one of these payloads, and the lines of what
/// is inside if it is a payload. These are the names of the open nodes.
fn put_entry_with_inside<'a, L: DeepPen>(
    entry: Entry<'a>,
    names: &[&'a [u8]],
    insides: &mut Insides,
    opened: &[&PayloadPlace],
    pen: &mut L,
)
    ensures put { (trees : Place → Option ReducedTree) → HoldInsides trees insides.old
        → L.puts pen.old
        (tokens_of_lines (lines_with_inside (shown_by trees opened.now)
        (lines_of_entry (bytes_of_names names.now) (as_entry entry.entry)))) pen.new }
    ensures same { (trees : Place → Option ReducedTree) → HoldInsides trees insides.old
        → HoldInsides trees insides.new }
{
    match entry {
        Entry::Payload(_) => {
            put_entry_unless_opened(entry, names, opened, pen);
            insides.put_lines_of_image(last_name(names), pen);
        }
        _ => put_entry(entry, names, pen),
    }
}

/// Puts the line of an entry, unless the innermost of these nodes has one of these payloads.
fn put_entry_unless_opened<'a, L: DeepPen>(
    entry: Entry<'a>,
    names: &[&'a [u8]],
    opened: &[&PayloadPlace],
    pen: &mut L,
)
    ensures { let names_are = bytes_of_names names.now in L.puts pen.old (tokens_of_lines
        (if is_one_of_places opened.now (OfImageNamed (name_of_last names_are)) then []
        else lines_of_entry names_are (as_entry entry.entry))) pen.new }
{
    if !has_image(opened, last_name(names)) {
        put_entry(entry, names, pen);
    }
}

/// Returns the last of these names: no bytes if there is none.
fn last_name<'a>(names: &[&'a [u8]]) -> &'a [u8]
    ensures { result.now ≡ name_of_last (bytes_of_names names.now) }
{
    match names {
        [.., name] => name,
        [] => b"",
    }
}

// ---- JSON

/// Puts the object of a legacy image.
fn put_legacy_object<J: JsonPen>(image: &DescribedLegacy, insides: &Insides, json: &mut J)
    ensures { (trees : Trees) → HoldInsides (whole_devicetrees trees) insides.now → J.puts json.old
        (json_tokens (object_with_inside trees
        (OfLegacy (image_of image.now.fields (bytes_of_parts image.now.parts.items))))) json.new }
{
    json.put(JsonToken::BeginObject);
    put_header_members(image.fields, json);
    json.put(JsonToken::Name("parts"));
    json.put(JsonToken::BeginArray);
    put_part_objects(&image.parts, insides, json);
    json.put(JsonToken::EndArray);
    json.put(JsonToken::EndObject);
}

/// Puts an object for each part, as the values of an array.
fn put_part_objects<J: JsonPen>(parts: &[DescribedPart], insides: &Insides, json: &mut J)
    ensures { (trees : Trees) → HoldInsides (whole_devicetrees trees) insides.now → J.puts json.old
        (value_tokens (deep_part_objects trees 0 (bytes_of_parts parts.now))) json.new }
{
    for index in 0..parts.len() {
        put_part_object(index, parts[index], insides, json);
    }
}

/// Puts the object of a part.
fn put_part_object<J: JsonPen>(index: usize, part: DescribedPart, insides: &Insides, json: &mut J)
    ensures { (trees : Trees) → HoldInsides (whole_devicetrees trees) insides.now → J.puts json.old
        (json_tokens (digest_object_with (inside_members (trees (OfPart index)))
        (digest_of_part part.entry))) json.new }
{
    json.put(JsonToken::BeginObject);
    put_digest_members(part.digest, json);
    insides.put_member_of_part(index, json);
    json.put(JsonToken::EndObject);
}

/// Puts the object of a flattened image tree.
fn put_fit_object<J: JsonPen>(fit: &DescribedFit, insides: &Insides, json: &mut J)
    ensures { (tree : ImageTree) (trees : Trees) → HoldsDescribedTree tree fit.now
        → HoldInsides (whole_devicetrees trees) insides.now
        → J.puts json.old (json_tokens (object_with_inside trees (OfFit tree))) json.new }
{
    json.put(JsonToken::BeginObject);
    put_processor_members(fit.blob, json);
    put_reservations_member(fit.blob, json);
    json.put(JsonToken::Name("root"));
    json.put(JsonToken::BeginObject);
    put_entries(&fit.entries, insides, json);
    json::put_end(json);
    json.put(JsonToken::EndObject);
}

/// Puts the tokens of these entries, and of what is inside the payloads.
fn put_entries<J: JsonPen>(entries: &[Entry], insides: &Insides, json: &mut J)
    ensures { (trees : Trees) → HoldInsides (whole_devicetrees trees) insides.now → J.puts json.old
        (deep_entry_tokens trees [] (map as_entry entries.now)) json.new }
{
    let mut last: &[u8] = b"";
    for entry in entries {
        last = put_entry_object(*entry, last, insides, json);
    }
}

/// Puts the tokens of an entry. The last node that began has this name. Returns the name of the
/// last node that began after it.
fn put_entry_object<'a, J: JsonPen>(
    entry: Entry<'a>,
    last: &'a [u8],
    insides: &Insides,
    json: &mut J,
) -> &'a [u8]
    ensures put { (trees : Trees) → HoldInsides (whole_devicetrees trees) insides.now
        → J.puts json.old
        (entry_tokens_with trees last.now (as_entry entry.entry)) json.new }
    ensures last { result.now ≡ last_begun last.entry.now (as_entry entry.entry) }
{
    match entry {
        Entry::Payload(payload) => {
            put_payload(payload, last, insides, json);
            last
        }
        Entry::Begin(name) => {
            json::put_entry(entry, json);
            name
        }
        _ => {
            json::put_entry(entry, json);
            last
        }
    }
}

/// Puts the member of the payload of the image with this name, if it has one.
fn put_payload<J: JsonPen>(payload: ImagePayload, name: &[u8], insides: &Insides, json: &mut J)
    ensures { (trees : Trees) → HoldInsides (whole_devicetrees trees) insides.now → J.puts json.old
        (entry_tokens_with trees name.now (PayloadEntry (bytes_of_payload payload.entry)))
        json.new }
{
    json.put(JsonToken::Name("payload"));
    put_payload_value(payload.digest, name, insides, json);
}

/// Puts the object of the payload of the image with this name, or `null` if it has none.
fn put_payload_value<J: JsonPen>(
    digest: Option<PayloadDigest>,
    name: &[u8],
    insides: &Insides,
    json: &mut J,
)
    ensures { (trees : Trees) → HoldInsides (whole_devicetrees trees) insides.now → J.puts json.old
        (json_tokens (payload_or_null_with (inside_members (trees (OfImageNamed name.now)))
        (option_map digest_made digest))) json.new }
{
    match digest {
        Some(digest) => put_payload_object(digest, name, insides, json),
        None => put_value(JsonValue::Null, json),
    }
}

/// Puts the object of the payload of the image with this name.
fn put_payload_object<J: JsonPen>(
    digest: PayloadDigest,
    name: &[u8],
    insides: &Insides,
    json: &mut J,
)
    ensures { (trees : Trees) → HoldInsides (whole_devicetrees trees) insides.now → J.puts json.old
        (json_tokens (digest_object_with (inside_members (trees (OfImageNamed name.now)))
        (digest_made digest))) json.new }
{
    json.put(JsonToken::BeginObject);
    put_digest_members(digest, json);
    insides.put_member_of_image(name, json);
    json.put(JsonToken::EndObject);
}

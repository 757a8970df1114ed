//! The listing of a flattened image tree.

ghost use Rattle.std.specs.Prelude.{◌≡◌, [], ◌∷◌, map};
ghost use Rattle.std.specs.Option.{option_map};
ghost use Rattle.bi_fit.specs.Content.{IsHeld, image_model};
ghost use Rattle.bi_common.specs.CommonLines.{reservations_member};
ghost use Rattle.bi_common.specs.JsonTokens.{json_tokens, member_tokens, value_tokens};
ghost use Rattle.bi_common.specs.LineTokens.{line_tokens, tokens_of_lines};
ghost use Rattle.bi_report.specs.FitListing.{default_lines, fit_listing};
ghost use Rattle.bi_report.specs.FitListing.{fit_listing_object, listing_head};
ghost use Rattle.bi_report.specs.FitListing.{head_members, image_line, image_object};
ghost use Rattle.bi_report.specs.FitListing.{images_member, payload_member, payload_object};
ghost use Rattle.bi_report.specs.PlacedEntries.{placed_payload_entry};
ghost use Rattle.bi_report.specs.ReadListing.{placed_entry, read_fit};
ghost use Rattle.bi_report.specs.ReadListing.{read_image_entry, read_payload};

use super::configurations::{put_all_configuration_lines, put_configurations_member};
use bi_common::common_lines::{put_reservation_lines, put_reservations};
use bi_common::fields::Field;
use bi_common::json_writer::{
    JsonPen, JsonToken, JsonValue, put_member, put_members, put_object, put_value, shown_or_null,
};
use bi_common::lines::{LinePen, put_line, put_lines};
use bi_fdt::Blob;
use bi_fit::{Fit, Image, Place};

/// Puts the lines of a flattened image tree. Requires: the tree was read.
pub(super) fn put_fit_lines<L: LinePen>(fit: &Fit, pen: &mut L)
    requires held { IsHeld fit.now }
    ensures { L.puts pen.old (tokens_of_lines (fit_listing (read_fit fit.now))) pen.new }
{
    put_head_lines(fit.blob(), pen);
    put_reservation_lines(fit.blob(), pen);
    put_image_lines(fit.images(), pen);
    put_all_configuration_lines(fit, pen);
    put_default_line(fit.default_config(), pen);
}

/// Puts the lines of the kind, the boot processor and the size of the blob.
fn put_head_lines<L: LinePen>(blob: &Blob, pen: &mut L)
    ensures { L.puts pen.old (tokens_of_lines (listing_head blob.now.cpu blob.now.total_size))
        pen.new }
{
    let boot_cpu = Field::Decimal(u64::from(blob.boot_cpu()));
    let total_size = Field::Decimal(u64::from(blob.total_size()));
    put_lines(
        &[
            [Field::Text(b"kind"), Field::Text(b"fit")],
            [Field::Text(b"boot-cpu"), boot_cpu],
            [Field::Text(b"total-size"), total_size],
        ],
        pen,
    );
}

/// Puts the line of each image.
fn put_image_lines<L: LinePen>(images: &[Image], pen: &mut L)
    ensures { L.puts pen.old
        (tokens_of_lines (map image_line (map read_image_entry (map image_model images.now))))
        pen.new }
{
    for image in images {
        put_image_line(image, pen);
    }
}

/// Puts the line of an image.
fn put_image_line<L: LinePen>(image: &Image, pen: &mut L)
    ensures { L.puts pen.old (line_tokens (image_line (read_image_entry (image_model image.now))))
        pen.new }
{
    let (kind, name) = (Field::Text(b"image"), Field::Shown(image.name));
    match placed_payload(image) {
        Some(payload) => {
            let words = [
                kind,
                name,
                Field::Text(b"size"),
                Field::Decimal(payload.size as u64),
                Field::Text(payload.property.as_bytes()),
                Field::Text(b"at"),
                Field::Decimal(u64::from(payload.offset)),
            ];
            put_line(&words, pen);
        }
        None => put_line(&[kind, name, Field::Text(b"none")], pen),
    }
}

/// A payload: the property that gives it, the offset of its first byte in the file, and its size.
#[derive(Clone, Copy)]
struct PlacedPayload {
    property: &'static str,
    offset: u32,
    size: usize,
}

/// Returns the payload of an image, if it has one.
fn placed_payload(image: &Image) -> Option<PlacedPayload>
    ensures { let model = image_model image.now in
        option_map placed_payload_entry result ≡ read_payload model.place model.payload }
{
    match image.place {
        Place::Absent => None,
        Place::Data(offset) => payload_at("data", offset, image.payload),
        Place::DataOffset(offset) => payload_at("data-offset", offset, image.payload),
        Place::DataPosition(offset) => payload_at("data-position", offset, image.payload),
    }
}

/// Returns a payload that this property gives, if there is one.
fn payload_at(property: &'static str, offset: u32, payload: Option<&[u8]>) -> Option<PlacedPayload>
    ensures { option_map placed_payload_entry result
        ≡ option_map (placed_entry property.entry.now offset)
        (option_map (λ payload. payload.now) payload.entry) }
{
    let size = payload?.len();
    Some(PlacedPayload {
        property,
        offset,
        size,
    })
}

/// Puts the line of the default configuration, if one is named.
fn put_default_line<L: LinePen>(default: Option<&[u8]>, pen: &mut L)
    ensures { L.puts pen.old
        (tokens_of_lines (default_lines (option_map (λ name. name.now) default.entry))) pen.new }
{
    if let Some(name) = default {
        put_line(&[Field::Text(b"default"), Field::Shown(name)], pen);
    }
}

/// Puts the object of a flattened image tree. Requires: the tree was read.
pub(super) fn put_fit_object<J: JsonPen>(fit: &Fit, json: &mut J)
    requires held { IsHeld fit.now }
    ensures { J.puts json.old (json_tokens (fit_listing_object (read_fit fit.now))) json.new }
{
    json.put(JsonToken::BeginObject);
    put_head_members(fit.blob(), json);
    put_reservations_member(fit.blob(), json);
    put_images_member(fit.images(), json);
    put_configurations_member(fit, json);
    put_member(("default", shown_or_null(fit.default_config())), json);
    json.put(JsonToken::EndObject);
}

/// Puts the members for the kind, the boot processor and the size of the blob.
fn put_head_members<J: JsonPen>(blob: &Blob, json: &mut J)
    ensures { J.puts json.old (member_tokens (head_members blob.now.cpu blob.now.total_size))
        json.new }
{
    let members = [
        ("kind", JsonValue::String(Field::Text(b"fit"))),
        ("boot_cpu", JsonValue::Number(u64::from(blob.boot_cpu()))),
        (
            "total_size",
            JsonValue::Number(u64::from(blob.total_size())),
        ),
    ];
    put_members(&members, json);
}

/// Puts the member for the memory reservations.
fn put_reservations_member<J: JsonPen>(blob: &Blob, json: &mut J)
    ensures { J.puts json.old (member_tokens (reservations_member blob.now.reservations ∷ []))
        json.new }
{
    json.put(JsonToken::Name("reservations"));
    json.put(JsonToken::BeginArray);
    put_reservations(blob, json);
    json.put(JsonToken::EndArray);
}

/// Puts the member for the images.
fn put_images_member<J: JsonPen>(images: &[Image], json: &mut J)
    ensures { J.puts json.old
        (member_tokens (images_member (map read_image_entry (map image_model images.now)) ∷ []))
        json.new }
{
    json.put(JsonToken::Name("images"));
    json.put(JsonToken::BeginArray);
    put_image_objects(images, json);
    json.put(JsonToken::EndArray);
}

/// Puts the object of each image.
fn put_image_objects<J: JsonPen>(images: &[Image], json: &mut J)
    ensures { J.puts json.old
        (value_tokens (map image_object (map read_image_entry (map image_model images.now))))
        json.new }
{
    for image in images {
        put_image_object(image, json);
    }
}

/// Puts the object of an image.
fn put_image_object<J: JsonPen>(image: &Image, json: &mut J)
    ensures { J.puts json.old
        (json_tokens (image_object (read_image_entry (image_model image.now))))
        json.new }
{
    json.put(JsonToken::BeginObject);
    put_member(("name", JsonValue::String(Field::Shown(image.name))), json);
    put_payload_member(image, json);
    json.put(JsonToken::EndObject);
}

/// Puts the member for the payload of an image.
pub fn put_payload_member<J: JsonPen>(image: &Image, json: &mut J)
    ensures { J.puts json.old
        (member_tokens (payload_member (read_image_entry (image_model image.now)).payload ∷ []))
        json.new }
{
    json.put(JsonToken::Name("payload"));
    put_payload(placed_payload(image), json);
}

/// Puts the object of a payload, or `null` if there is none.
fn put_payload<J: JsonPen>(payload: Option<PlacedPayload>, json: &mut J)
    ensures { J.puts json.old
        (json_tokens (payload_object (option_map placed_payload_entry payload))) json.new }
{
    match payload {
        Some(payload) => {
            let property = Field::Text(payload.property.as_bytes());
            let members = [
                ("property", JsonValue::String(property)),
                ("offset", JsonValue::Number(u64::from(payload.offset))),
                ("size", JsonValue::Number(payload.size as u64)),
            ];
            put_object(&members, json);
        }
        None => put_value(JsonValue::Null, json),
    }
}

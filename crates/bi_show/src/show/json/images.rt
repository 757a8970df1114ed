//! The images of a flattened image tree as JSON.

ghost use Rattle.std.specs.Prelude.{[], ◌∷◌, map};
ghost use Rattle.bi_blob.specs.Lookups.{siblings};
ghost use Rattle.bi_fdt.specs.Views.{node_of};
ghost use Rattle.bi_fit.specs.Content.{AreAtTheirPlaces, IsAtItsPlace, image_model};
ghost use Rattle.bi_fit.specs.HashNodes.{file_images};
ghost use Rattle.bi_common.specs.HashedImages.{found_hash_of, found_left};
ghost use Rattle.bi_common.specs.JsonTokens.{json_tokens, member_tokens, value_tokens};
ghost use Rattle.bi_show.specs.ReadObjects.{read_image_object, read_images_member};
ghost use Rattle.bi_show.specs.ReadObjects.{read_image_objects};
ghost use Rattle.bi_show.specs.ShownObjects.{hashes_member, shown_hash_object};

use super::members::{number_property, text_property};
use bi_common::fields::Field;
use bi_common::hash_nodes::HashNodes;
use bi_common::json_writer::{
    JsonPen, JsonToken, JsonValue, put_members, put_object, shown_or_null,
};
use bi_fdt::NodeRef;
use bi_fit::{Checked, Fit, Image};
use bi_hash::RegionDigests;
use bi_report::list::put_payload_member;
use bi_report::used_hashes::is_skipped;
use bi_report::verify::verdict_word;

/// Puts the member for the images. Requires: in the file of the digests, the payload of each image
/// is at its place.
pub(super) fn put_images_member<'a, J: JsonPen>(
    fit: &Fit<'a>,
    digests: &RegionDigests<'a>,
    json: &mut J,
)
    requires placed { AreAtTheirPlaces digests.now fit.now.images }
    ensures { J.puts json.old (member_tokens (read_images_member fit.now ∷ [])) json.new }
{
    json.put(JsonToken::Name("images"));
    json.put(JsonToken::BeginArray);
    put_image_objects(fit, digests, json);
    json.put(JsonToken::EndArray);
}

/// Puts the object of each image. Requires: in the file of the digests, the payload of each image
/// is at its place.
fn put_image_objects<'a, J: JsonPen>(fit: &Fit<'a>, digests: &RegionDigests<'a>, json: &mut J)
    requires placed { AreAtTheirPlaces digests.now fit.now.images }
    ensures { J.puts json.old (value_tokens
        (read_image_objects (siblings (file_images fit.now.blob)) fit.now.images)) json.new }
{
    for (node, image) in fit.images_with_nodes() {
        put_image_object(node, image, digests, json);
    }
}

/// Puts the object of the image of a node. Requires: in the file of the digests, the payload of the
/// image is at its place.
fn put_image_object<'a, J: JsonPen>(
    node: NodeRef<'a, '_>,
    image: &Image<'a>,
    digests: &RegionDigests<'a>,
    json: &mut J,
)
    requires placed { IsAtItsPlace digests.now (image_model image.now) }
    ensures { J.puts json.old (json_tokens
        (read_image_object (node_of node.entry) (image_model image.now))) json.new }
{
    let members = [
        ("name", JsonValue::String(Field::Shown(node.name()))),
        ("description", text_property(node, b"description")),
        ("type", text_property(node, b"type")),
        ("os", text_property(node, b"os")),
        ("arch", text_property(node, b"arch")),
        ("compression", text_property(node, b"compression")),
        ("load", number_property(node, b"load")),
        ("entry", number_property(node, b"entry")),
    ];
    json.put(JsonToken::BeginObject);
    put_members(&members, json);
    put_payload_member(image, json);
    put_hashes_member(HashNodes::new(node, image, digests), json);
    json.put(JsonToken::EndObject);
}

/// Puts the member for the hash nodes of an image.
fn put_hashes_member<J: JsonPen>(hashes: HashNodes, json: &mut J)
    ensures { J.puts json.old (member_tokens (hashes_member (found_left hashes.entry) ∷ []))
        json.new }
{
    json.put(JsonToken::Name("hashes"));
    json.put(JsonToken::BeginArray);
    put_hash_objects(hashes, json);
    json.put(JsonToken::EndArray);
}

/// Puts the object of each of these hash nodes.
fn put_hash_objects<J: JsonPen>(hashes: HashNodes, json: &mut J)
    ensures { J.puts json.old (value_tokens (map shown_hash_object (found_left hashes.entry)))
        json.new }
{
    let mut rest = hashes;
    while let Some((node, hash)) = rest.next_node() {
        put_hash_object(node, &hash, json);
    }
}

/// Puts the object of a hash node with the verdict on it.
fn put_hash_object<J: JsonPen>(node: NodeRef, hash: &Checked, json: &mut J)
    ensures { J.puts json.old
        (json_tokens (shown_hash_object (found_hash_of (node.entry, hash.now)))) json.new }
{
    let word = verdict_word(hash.verdict);
    let members = [
        ("node", JsonValue::String(Field::Shown(hash.node))),
        ("algorithm", shown_or_null(hash.algo)),
        ("verdict", JsonValue::String(Field::Text(word.as_bytes()))),
        ("skipped", JsonValue::Bool(is_skipped(node))),
    ];
    put_object(&members, json);
}

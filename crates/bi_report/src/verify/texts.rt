//! The text of a report.

ghost use Rattle.std.specs.Prelude.{◌≡◌, map};
ghost use Rattle.bi_fit.specs.Content.{AreAtTheirPlaces, tree_of};
ghost use Rattle.bi_fit.specs.Judgement.{verdicts_of};
ghost use Rattle.bi_fit.specs.JudgementCalls.{checked_hash_of};
ghost use Rattle.bi_norm.specs.Meaning.{OfFit};
ghost use Rattle.bi_common.specs.HashedImages.{hashed_left, hashes_left};
ghost use Rattle.bi_common.specs.JsonTokens.{json_tokens, value_tokens};
ghost use Rattle.bi_common.specs.LineTokens.{line_tokens, tokens_of_lines};
ghost use Rattle.bi_common.specs.VerdictCounts.{counts_model, hash_counts};
ghost use Rattle.bi_report.specs.MadeDetails.{made_details};
ghost use Rattle.bi_report.specs.Reports.{hash_line, hash_object, hash_report_lines};
ghost use Rattle.bi_report.specs.Reports.{hash_report_object};
ghost use Rattle.bi_report.specs.Reports.{hashes_of_images, legacy_report_lines};
ghost use Rattle.bi_report.specs.Reports.{legacy_report_object, report_details, summary_line};
ghost use Rattle.bi_report.specs.Reports.{summary_object, verdict_word as word_of};
ghost use Rattle.bi_report.specs.VerifiedFiles.{legacy_report_text, report_text};

use crate::details::{Detail, put_details_line, put_details_object};
use bi_base::Pen;
use bi_common::fields::Field;
use bi_common::format::Format;
use bi_common::hash_nodes::{HashNodes, HashedImages};
use bi_common::json_writer::{JsonPen, JsonToken, JsonValue, JsonWriter, put_member, put_object};
use bi_common::lines::{LinePen, LineWriter, put_line};
use bi_common::verdict_counts::Counts;
use bi_fit::{Checked, Fit};
use bi_hash::{RegionDigests, Verdict};

/// Puts the report on any legacy image that was read, so that its checksums are right.
pub(super) fn put_legacy_report<P: Pen>(format: Format, pen: &mut P)
    ensures { P.puts pen.old (legacy_report_text format) pen.new }
{
    match format {
        Format::Lines => put_checksum_lines(&mut LineWriter::new(pen)),
        Format::Json => {
            put_checksums_object(&mut JsonWriter::new(pen));
            pen.put(b"\n");
        }
    }
}

/// Puts the lines of the two checksums, which are good.
fn put_checksum_lines<L: LinePen>(pen: &mut L)
    ensures { L.puts pen.old (tokens_of_lines legacy_report_lines) pen.new }
{
    let (crc32, good) = (Field::Text(b"crc32"), Field::Text(b"good"));
    put_line(&[Field::Text(b"header"), crc32, good], pen);
    put_line(&[Field::Text(b"data"), crc32, good], pen);
}

/// Puts the object of the two checksums, which are good.
fn put_checksums_object<J: JsonPen>(json: &mut J)
    ensures { J.puts json.old (json_tokens legacy_report_object) json.new }
{
    let members = [
        ("kind", JsonValue::String(Field::Text(b"legacy"))),
        ("header_crc32", JsonValue::String(Field::Text(b"good"))),
        ("data_crc32", JsonValue::String(Field::Text(b"good"))),
    ];
    put_object(&members, json);
}

/// Puts the report on a flattened image tree with this number of each verdict. Requires: in the
/// file of the digests, the payload of each image is at its place, and `counts` are the numbers of
/// the verdicts of the tree.
pub(super) fn put_fit_report<'a, P: Pen>(
    fit: &Fit<'a>,
    digests: &RegionDigests<'a>,
    counts: Counts,
    format: Format,
    pen: &mut P,
)
    requires placed { AreAtTheirPlaces digests.now fit.now.images }
    requires counted { counts ≡ hash_counts (verdicts_of (tree_of fit.now)) }
    ensures { P.puts pen.old (report_text format (OfFit (tree_of fit.now))) pen.new }
{
    let images = HashedImages::new(fit, digests);
    match format {
        Format::Lines => put_report_lines(images, counts, &mut LineWriter::new(pen)),
        Format::Json => {
            put_report_object(images, counts, &mut JsonWriter::new(pen));
            pen.put(b"\n");
        }
    }
}

/// Puts the lines of the report on the hash nodes of images, with this number of each verdict.
fn put_report_lines<L: LinePen>(images: HashedImages, counts: Counts, pen: &mut L)
    ensures { L.puts pen.old (tokens_of_lines (hash_report_lines
        (hashes_of_images (hashed_left images.entry)) (counts_model counts))) pen.new }
{
    put_image_lines(images, pen);
    put_summary_line(counts, pen);
}

/// Puts the lines of the hash nodes of each of these images.
fn put_image_lines<L: LinePen>(images: HashedImages, pen: &mut L)
    ensures { L.puts pen.old (tokens_of_lines
        (map hash_line (hashes_of_images (hashed_left images.entry)))) pen.new }
{
    for image in images {
        put_hash_lines(image.hashes, pen);
    }
}

/// Puts the line of each of these hash nodes.
fn put_hash_lines<L: LinePen>(hashes: HashNodes, pen: &mut L)
    ensures { L.puts pen.old (tokens_of_lines (map hash_line (hashes_left hashes.entry))) pen.new }
{
    for hash in hashes {
        put_details_line(&details_of_hash(&hash), pen);
    }
}

/// Puts the last line.
fn put_summary_line<L: LinePen>(counts: Counts, pen: &mut L)
    ensures { L.puts pen.old (line_tokens (summary_line (counts_model counts))) pen.new }
{
    let fields = [
        Field::Text(b"summary"),
        Field::Text(b"good"),
        Field::Decimal(counts.good),
        Field::Text(b"bad"),
        Field::Decimal(counts.bad),
        Field::Text(b"unknown-algorithm"),
        Field::Decimal(counts.unknown_algorithm),
        Field::Text(b"no-payload"),
        Field::Decimal(counts.no_payload),
        Field::Text(b"malformed"),
        Field::Decimal(counts.malformed),
    ];
    put_line(&fields, pen);
}

/// Puts the report on the hash nodes of images in JSON, with this number of each verdict.
fn put_report_object<J: JsonPen>(images: HashedImages, counts: Counts, json: &mut J)
    ensures { J.puts json.old (json_tokens (hash_report_object
        (hashes_of_images (hashed_left images.entry)) (counts_model counts))) json.new }
{
    json.put(JsonToken::BeginObject);
    put_member(("kind", JsonValue::String(Field::Text(b"fit"))), json);
    json.put(JsonToken::Name("hashes"));
    json.put(JsonToken::BeginArray);
    put_image_objects(images, json);
    json.put(JsonToken::EndArray);
    json.put(JsonToken::Name("summary"));
    put_summary_object(counts, json);
    json.put(JsonToken::EndObject);
}

/// Puts the objects of the hash nodes of each of these images.
fn put_image_objects<J: JsonPen>(images: HashedImages, json: &mut J)
    ensures { J.puts json.old (value_tokens
        (map hash_object (hashes_of_images (hashed_left images.entry)))) json.new }
{
    for image in images {
        put_hash_objects(image.hashes, json);
    }
}

/// Puts the object of each of these hash nodes.
fn put_hash_objects<J: JsonPen>(hashes: HashNodes, json: &mut J)
    ensures { J.puts json.old (value_tokens (map hash_object (hashes_left hashes.entry)))
        json.new }
{
    for hash in hashes {
        put_details_object(&details_of_hash(&hash), json);
    }
}

/// Puts the object with the number of each verdict.
fn put_summary_object<J: JsonPen>(counts: Counts, json: &mut J)
    ensures { J.puts json.old (json_tokens (summary_object (counts_model counts))) json.new }
{
    let members = [
        ("good", JsonValue::Number(counts.good)),
        ("bad", JsonValue::Number(counts.bad)),
        (
            "unknown_algorithm",
            JsonValue::Number(counts.unknown_algorithm),
        ),
        ("no_payload", JsonValue::Number(counts.no_payload)),
        ("malformed", JsonValue::Number(counts.malformed)),
    ];
    put_object(&members, json);
}

/// Returns the details of a hash node.
fn details_of_hash<'a>(hash: &Checked<'a>) -> [Detail<'a, 'a>; 5]
    ensures { made_details result ≡ report_details (checked_hash_of hash.now) }
{
    [
        Detail::Name("image", Some(hash.image)),
        Detail::Name("node", Some(hash.node)),
        Detail::Name("algorithm", hash.algo),
        Detail::Word("verdict", verdict_word(hash.verdict)),
        Detail::Digits("value", hash.value),
    ]
}

/// Returns the word for a verdict.
pub fn verdict_word(verdict: Verdict) -> &'static str
    ensures { result.now ≡ word_of verdict }
{
    match verdict {
        Verdict::Good => "good",
        Verdict::Bad => "bad",
        Verdict::UnknownAlgo => "unknown-algorithm",
        Verdict::NoPayload => "no-payload",
        Verdict::Malformed => "malformed",
    }
}

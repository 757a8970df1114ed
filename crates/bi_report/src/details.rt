//! Details of what is reported on a boot image: the words of a line, or the members of an object in
//! JSON.

ghost use Rattle.std.specs.Prelude.{◌≡◌, [], ◌∷◌, filter, flat_map, map};
ghost use Rattle.bi_fit.specs.JudgementCalls.{checked_hash_of};
ghost use Rattle.bi_common.specs.Json.{json_array};
ghost use Rattle.bi_common.specs.JsonTokens.{json_tokens, member_tokens, value_tokens};
ghost use Rattle.bi_common.specs.LineTokens.{line_tokens, one_field};
ghost use Rattle.bi_common.specs.VerdictCounts.{is_verdict};
ghost use Rattle.bi_report.specs.ConcernValues.{used_left};
ghost use Rattle.bi_report.specs.Details.{detail_member, detail_words, details_line};
ghost use Rattle.bi_report.specs.Details.{details_object};
ghost use Rattle.bi_report.specs.MadeDetails.{algorithm_strings, algorithm_words};
ghost use Rattle.bi_report.specs.MadeDetails.{details_in, made_details};
ghost use Rattle.bi_hash.specs.declared.verdicts.Verdict.TheVariants.{Good};

use crate::used_hashes::UsedHashes;
use bi_common::fields::{Field, digits_or_none, name_or_none};
use bi_common::json_writer::{
    JsonPen, JsonToken, JsonValue, digits_or_null, put_member, put_value, shown_or_null,
};
use bi_common::lines::LinePen;
use bi_fit::Checked;
use bi_hash::Verdict;

/// A detail, with the name of its member in JSON.
#[derive(Clone, Copy)]
pub(crate) enum Detail<'a, 'b> {
    /// No detail: no word, and no member.
    Nothing,
    /// A name. If it is not there, the word is `-` and the value is `null`.
    Name(&'static str, Option<&'a [u8]>),
    /// The path of a node that a signature must cover, as bytes.
    Needed(&'static str, &'b [u8]),
    /// The path of a node: the names of the nodes on the way to it, without the root.
    Path(&'static str, &'b [&'a [u8]]),
    /// A word.
    Word(&'static str, &'static str),
    /// A number.
    Number(&'static str, u64),
    /// The digits of a value. If it is not there, the word is `-` and the value is `null`.
    Digits(&'static str, Option<&'a [u8]>),
    /// The algorithms of the Good ones of these hash nodes: a word for each, and an array.
    Algorithms(&'static str, UsedHashes<'a, 'b>),
}

/// Puts the line of details.
pub(crate) fn put_details_line<L: LinePen>(details: &[Detail], pen: &mut L)
    ensures { L.puts pen.old (line_tokens (details_line (made_details details.now))) pen.new }
{
    put_words(details, pen);
    pen.end_line();
}

/// Puts the words for details.
fn put_words<L: LinePen>(details: &[Detail], pen: &mut L)
    ensures { L.puts pen.old (flat_map one_field (details_line (made_details details.now)))
        pen.new }
{
    for detail in details {
        put_detail_words(*detail, pen);
    }
}

/// Puts the words for a detail.
fn put_detail_words<L: LinePen>(detail: Detail, pen: &mut L)
    ensures { L.puts pen.old (flat_map one_field (details_line (details_in detail.entry)))
        pen.new }
{
    match detail {
        Detail::Nothing => {}
        Detail::Name(_, name) => pen.put_word(name_or_none(name)),
        Detail::Needed(_, path) => pen.put_word(Field::Shown(path)),
        Detail::Path(_, names) => pen.put_word(Field::Path(names)),
        Detail::Word(_, word) => pen.put_word(Field::Text(word.as_bytes())),
        Detail::Number(_, number) => pen.put_word(Field::Decimal(number)),
        Detail::Digits(_, value) => pen.put_word(digits_or_none(value)),
        Detail::Algorithms(_, hashes) => put_algorithms(hashes, pen),
    }
}

/// Puts the algorithms of the Good ones of these hash nodes.
fn put_algorithms<L: LinePen>(hashes: UsedHashes, pen: &mut L)
    ensures { L.puts pen.old (flat_map one_field (algorithm_words (used_left hashes.entry)))
        pen.new }
{
    for hash in hashes {
        put_good_algorithm(hash, pen);
    }
}

/// Puts the algorithm of a hash node, if the verdict on it is Good.
fn put_good_algorithm<L: LinePen>(hash: Checked, pen: &mut L)
    ensures { L.puts pen.old
        (flat_map one_field (algorithm_words (checked_hash_of hash.entry ∷ []))) pen.new }
{
    if is_good(hash.verdict) {
        pen.put_word(name_or_none(hash.algo));
    }
}

/// Puts the object of details.
pub(crate) fn put_details_object<J: JsonPen>(details: &[Detail], json: &mut J)
    ensures { J.puts json.old (json_tokens (details_object (made_details details.now))) json.new }
{
    json.put(JsonToken::BeginObject);
    put_members(details, json);
    json.put(JsonToken::EndObject);
}

/// Puts the members for details.
fn put_members<J: JsonPen>(details: &[Detail], json: &mut J)
    ensures { J.puts json.old (member_tokens (map detail_member (made_details details.now)))
        json.new }
{
    for detail in details {
        put_detail_member(*detail, json);
    }
}

/// Puts the member for a detail.
fn put_detail_member<J: JsonPen>(detail: Detail, json: &mut J)
    ensures { J.puts json.old (member_tokens (map detail_member (details_in detail.entry)))
        json.new }
{
    match detail {
        Detail::Nothing => {}
        Detail::Name(member, name) => put_member((member, shown_or_null(name)), json),
        Detail::Needed(member, path) => {
            put_member((member, JsonValue::String(Field::Shown(path))), json);
        }
        Detail::Path(member, names) => {
            put_member((member, JsonValue::String(Field::Path(names))), json);
        }
        Detail::Word(member, word) => {
            put_member(
                (member, JsonValue::String(Field::Text(word.as_bytes()))),
                json,
            );
        }
        Detail::Number(member, number) => put_member((member, JsonValue::Number(number)), json),
        Detail::Digits(member, value) => put_member((member, digits_or_null(value)), json),
        Detail::Algorithms(member, hashes) => {
            json.put(JsonToken::Name(member));
            put_algorithm_array(hashes, json);
        }
    }
}

/// Puts the array of the algorithms of the Good ones of these hash nodes.
fn put_algorithm_array<J: JsonPen>(hashes: UsedHashes, json: &mut J)
    ensures { J.puts json.old (json_tokens
        (json_array (algorithm_strings (used_left hashes.entry)))) json.new }
{
    json.put(JsonToken::BeginArray);
    put_algorithm_strings(hashes, json);
    json.put(JsonToken::EndArray);
}

/// Puts the algorithms of the Good ones of these hash nodes as strings.
fn put_algorithm_strings<J: JsonPen>(hashes: UsedHashes, json: &mut J)
    ensures { J.puts json.old (value_tokens (algorithm_strings (used_left hashes.entry)))
        json.new }
{
    for hash in hashes {
        put_good_algorithm_string(hash, json);
    }
}

/// Puts the algorithm of a hash node as a string, if the verdict on it is Good.
fn put_good_algorithm_string<J: JsonPen>(hash: Checked, json: &mut J)
    ensures { J.puts json.old (value_tokens (algorithm_strings (checked_hash_of hash.entry ∷ [])))
        json.new }
{
    if is_good(hash.verdict) {
        put_value(shown_or_null(hash.algo), json);
    }
}

/// Returns whether a verdict is Good.
pub(crate) fn is_good(verdict: Verdict) -> bool
    ensures { result ≡ is_verdict Good verdict }
{
    verdict == Verdict::Good
}

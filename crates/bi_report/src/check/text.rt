//! The text of the concerns about a boot image.

ghost use Rattle.std.specs.Prelude.{◌≡◌, ◌↔◌, ◌∷◌, [], IfOk, IsTrue, map};
ghost use Rattle.bi_base.specs.Sinks.{Wrote};
ghost use Rattle.bi_common.specs.JsonTokens.{json_tokens, member_tokens, value_tokens};
ghost use Rattle.bi_common.specs.LineTokens.{tokens_of_lines};
ghost use Rattle.bi_report.specs.CheckedFiles.{concerns_text, text_of_concerns};
ghost use Rattle.bi_report.specs.Checking.{concern_line, concern_object, concerns_object};
ghost use Rattle.bi_report.specs.Checking.{allowed_by_default, allowed_under, concerns_member};
ghost use Rattle.bi_report.specs.Checking.{kept_concerns};
ghost use Rattle.bi_report.specs.CheckedImages.{concerns_left, has_any, kept_left};
ghost use Rattle.bi_report.specs.FoundConcerns.{concerns_in};

use super::concerns::{Concerns, KeptConcerns};
use super::{Checker, Policy};
use crate::details::{put_details_line, put_details_object};
use bi_base::{Error, Pen, Sink, SinkPen};
use bi_common::format::Format;
use bi_common::json_writer::{JsonPen, JsonToken, JsonWriter};
use bi_common::lines::{LinePen, LineWriter};

/// Appends the text of the concerns that are not allowed, and returns whether there are none. Fails
/// as the sink does.
pub fn put_concerns<S: Sink>(
    concerns: Concerns,
    checker: Checker,
    sink: &mut S,
) -> Result<bool, Error>
    ensures text { Wrote S.appends S.fails sink.old (concerns_text checker.format
        (allowed_under checker.policy) (concerns_in (concerns_left concerns.entry)))
        result sink.new }
    ensures clean { IfOk result (λ clean. IsTrue clean ↔ (kept_concerns
        (allowed_under checker.policy) (concerns_in (concerns_left concerns.entry)) ≡ [])) }
{
    let mut pen = SinkPen::new(sink);
    let kept = concerns.kept(checker.policy.allowed_kinds());
    let any = put_text(kept, checker.format, &mut pen);
    pen.result()?;
    Ok(!any)
}

/// Puts the text of these concerns, and returns whether there are any.
fn put_text<P: Pen>(concerns: KeptConcerns, format: Format, pen: &mut P) -> bool
    ensures text { P.puts pen.old (text_of_concerns format (concerns_in (kept_left concerns.entry)))
        pen.new }
    ensures any { result ≡ has_any (kept_left concerns.entry) }
{
    match format {
        Format::Lines => put_lines(concerns, &mut LineWriter::new(pen)),
        Format::Json => {
            let any = put_object(concerns, &mut JsonWriter::new(pen));
            pen.put(b"\n");
            any
        }
    }
}

/// Puts the line of each of these concerns, and returns whether there are any.
fn put_lines<L: LinePen>(concerns: KeptConcerns, pen: &mut L) -> bool
    ensures lines { L.puts pen.old (tokens_of_lines
        (map concern_line (concerns_in (kept_left concerns.entry)))) pen.new }
    ensures any { result ≡ has_any (kept_left concerns.entry) }
{
    let mut any = false;
    for concern in concerns {
        put_details_line(&concern.details(), pen);
        any = true;
    }
    any
}

/// Puts the object of these concerns, and returns whether there are any.
fn put_object<J: JsonPen>(concerns: KeptConcerns, json: &mut J) -> bool
    ensures object { J.puts json.old
        (json_tokens (concerns_object (concerns_in (kept_left concerns.entry)))) json.new }
    ensures any { result ≡ has_any (kept_left concerns.entry) }
{
    json.put(JsonToken::BeginObject);
    let any = put_member_of_concerns(concerns, json);
    json.put(JsonToken::EndObject);
    any
}

/// Puts the member for all of these concerns that `check` has without options.
pub fn put_concerns_member<J: JsonPen>(concerns: Concerns, json: &mut J)
    ensures { J.puts json.old (member_tokens (concerns_member
        (kept_concerns allowed_by_default (concerns_in (concerns_left concerns.entry)))
        ∷ [])) json.new }
{
    let _any = put_member_of_concerns(concerns.kept(Policy::default().allowed_kinds()), json);
}

/// Puts the member for these concerns, and returns whether there are any.
fn put_member_of_concerns<J: JsonPen>(concerns: KeptConcerns, json: &mut J) -> bool
    ensures member { J.puts json.old
        (member_tokens (concerns_member (concerns_in (kept_left concerns.entry)) ∷ [])) json.new }
    ensures any { result ≡ has_any (kept_left concerns.entry) }
{
    json.put(JsonToken::Name("concerns"));
    json.put(JsonToken::BeginArray);
    let any = put_objects(concerns, json);
    json.put(JsonToken::EndArray);
    any
}

/// Puts the object of each of these concerns, and returns whether there are any.
fn put_objects<J: JsonPen>(concerns: KeptConcerns, json: &mut J) -> bool
    ensures objects { J.puts json.old
        (value_tokens (map concern_object (concerns_in (kept_left concerns.entry)))) json.new }
    ensures any { result ≡ has_any (kept_left concerns.entry) }
{
    let mut any = false;
    for concern in concerns {
        put_details_object(&concern.details(), json);
        any = true;
    }
    any
}

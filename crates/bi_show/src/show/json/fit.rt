//! A flattened image tree as JSON.

ghost use Rattle.std.specs.Prelude.{[], ◌∷◌, IfErr, OnOk};
ghost use Rattle.bi_base.specs.Commands.{Appended, AppendFailed};
ghost use Rattle.bi_base.specs.Sinks.{Wrote};
ghost use Rattle.bi_fit.specs.Content.{AreAtTheirPlaces};
ghost use Rattle.bi_fit.specs.Reading.{IsReadFit};
ghost use Rattle.bi_common.specs.Json.{json_line};
ghost use Rattle.bi_common.specs.JsonTokens.{json_tokens, member_tokens};
ghost use Rattle.bi_report.specs.ConcernValues.{IsCoverageOf};
ghost use Rattle.bi_report.specs.ReadChecking.{IsReadCheckError};
ghost use Rattle.bi_show.specs.ReadObjects.{read_fit_object, read_head_members};
ghost use Rattle.bi_show.specs.ShownObjects.{IsShownFit};

use super::configurations::put_configurations_member;
use super::images::put_images_member;
use super::members::{number_property, text_property};
use bi_base::{Error, Limits, Pen, Sink, SinkPen};
use bi_common::fields::Field;
use bi_common::json_writer::{
    JsonPen, JsonToken, JsonValue, JsonWriter, put_members, shown_or_null,
};
use bi_common::payload_bounds::BoundedFit;
use bi_common::verdict_counts::digests_of_verdicts;
use bi_fit::Fit;
use bi_hash::RegionDigests;
use bi_report::check::{Concerns, FitCoverage, put_concerns_member};
use std::alloc::Global;

/// Appends a flattened image tree of a file as JSON. Requires: reading the file under the limits
/// gives this tree.
///
/// Errors: TooLarge at the limit, if the payloads are longer, or the paths that the signed nodes
/// must cover; OutOfMemory; those of the sink.
pub(super) fn append_fit<S: Sink>(
    alloc: Global,
    file: &[u8],
    fit: &Fit,
    limits: Limits,
    sink: &mut S,
) -> Result<(), Error>
    requires read { IsReadFit limits file.now fit.now }
    ensures appended { OnOk result (Appended S.appends (IsShownFit limits file.now)
        sink.old sink.new) }
    ensures failed { IfErr result (AppendFailed S.fails (IsShownFit limits file.now)
        (IsReadCheckError limits fit.now) sink.old sink.new) }
{
    let bounded = BoundedFit::new(fit, limits)?;
    let coverage = FitCoverage::read(alloc, fit, limits)?;
    let digests = digests_of_verdicts(alloc, bounded)?;
    append_judged(file, fit, &digests, &coverage, sink)
}

/// Appends a flattened image tree that was read from this file. Fails as the sink does. Requires:
/// in the file of the digests, the payload of each image is at its place; the coverage is that of
/// the tree.
fn append_judged<'a, S: Sink>(
    file: &[u8],
    fit: &Fit<'a>,
    digests: &RegionDigests<'a>,
    coverage: &FitCoverage<'a>,
    sink: &mut S,
) -> Result<(), Error>
    requires placed { AreAtTheirPlaces digests.now fit.now.images }
    requires covered { IsCoverageOf fit.now coverage.now }
    ensures { Wrote S.appends S.fails sink.old (json_line (read_fit_object file.now fit.now))
        result sink.new }
{
    let mut pen = SinkPen::new(sink);
    put_fit(file, fit, digests, coverage, &mut pen);
    pen.result()
}

/// Puts the text of a flattened image tree that was read from this file. Requires: as for
/// `append_judged`.
fn put_fit<'a, P: Pen>(
    file: &[u8],
    fit: &Fit<'a>,
    digests: &RegionDigests<'a>,
    coverage: &FitCoverage<'a>,
    pen: &mut P,
)
    requires placed { AreAtTheirPlaces digests.now fit.now.images }
    requires covered { IsCoverageOf fit.now coverage.now }
    ensures { P.puts pen.old (json_line (read_fit_object file.now fit.now)) pen.new }
{
    put_fit_object(file, fit, digests, coverage, &mut JsonWriter::new(pen));
    pen.put(b"\n");
}

/// Puts the object of a flattened image tree that was read from this file. Requires: in the file of
/// the digests, the payload of each image is at its place; the coverage is that of the tree.
fn put_fit_object<'a, J: JsonPen>(
    file: &[u8],
    fit: &Fit<'a>,
    digests: &RegionDigests<'a>,
    coverage: &FitCoverage<'a>,
    json: &mut J,
)
    requires placed { AreAtTheirPlaces digests.now fit.now.images }
    requires covered { IsCoverageOf fit.now coverage.now }
    ensures { J.puts json.old (json_tokens (read_fit_object file.now fit.now)) json.new }
{
    json.put(JsonToken::BeginObject);
    put_head_members(fit, json);
    put_images_member(fit, digests, json);
    put_configurations_member(fit, coverage, json);
    put_concerns_member(Concerns::of_fit(file, fit, digests, coverage), json);
    json.put(JsonToken::EndObject);
}

/// Puts the members for what the root says, the size of the blob, the boot processor and the
/// default configuration.
fn put_head_members<J: JsonPen>(fit: &Fit, json: &mut J)
    ensures { J.puts json.old (member_tokens (read_head_members fit.now)) json.new }
{
    let root = fit.blob().root();
    let size = u64::from(fit.blob().total_size());
    let boot_cpu = u64::from(fit.blob().boot_cpu());
    let members = [
        ("kind", JsonValue::String(Field::Text(b"fit"))),
        ("description", text_property(root, b"description")),
        ("timestamp", number_property(root, b"timestamp")),
        ("size", JsonValue::Number(size)),
        ("boot_cpu", JsonValue::Number(boot_cpu)),
        ("default", shown_or_null(fit.default_config())),
    ];
    put_members(&members, json);
}

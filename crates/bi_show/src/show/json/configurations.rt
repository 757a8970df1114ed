//! The configurations of a flattened image tree as JSON, with what their signatures cover.

ghost use Rattle.std.specs.Prelude.{◌≡◌, [], ◌∷◌, map};
ghost use Rattle.bi_blob.specs.Lookups.{siblings};
ghost use Rattle.bi_coverage.specs.Coverage.{configuration_coverage};
ghost use Rattle.bi_coverage.specs.Values.{configuration_value, meaning_of_node};
ghost use Rattle.bi_coverage.specs.Values.{meaning_of_sibling, signature_concern};
ghost use Rattle.bi_coverage.specs.Values.{signature_value};
ghost use Rattle.bi_fdt.specs.Views.{node_of};
ghost use Rattle.bi_fit.specs.HashNodes.{file_configurations};
ghost use Rattle.bi_common.specs.JsonTokens.{json_tokens, member_tokens, value_tokens};
ghost use Rattle.bi_report.specs.ConcernValues.{IsCoverageOf};
ghost use Rattle.bi_show.specs.ReadObjects.{read_configuration_object};
ghost use Rattle.bi_show.specs.ReadObjects.{read_configurations_member};
ghost use Rattle.bi_show.specs.ReadObjects.{read_signature_objects};
ghost use Rattle.bi_show.specs.ShownObjects.{has_no_concern, is_signed_node, signature_object};

use super::super::signatures::{has_signature, is_signature};
use super::members::{name_property, put_compatible, text_property};
use bi_common::fields::Field;
use bi_common::json_writer::{JsonPen, JsonToken, JsonValue, put_members, put_object};
use bi_coverage::{ConfigurationCoverage, SignatureConcern, SignatureCoverage};
use bi_fdt::NodeRef;
use bi_fit::Fit;
use bi_fit::nodes::Siblings;
use bi_report::check::FitCoverage;
use bi_report::list::put_keys_member;

/// Puts the member for the configurations. Requires: the coverage is that of the tree.
pub(super) fn put_configurations_member<J: JsonPen>(fit: &Fit, coverage: &FitCoverage, json: &mut J)
    requires covered { IsCoverageOf fit.now coverage.now }
    ensures { J.puts json.old (member_tokens (read_configurations_member fit.now ∷ [])) json.new }
{
    json.put(JsonToken::Name("configurations"));
    json.put(JsonToken::BeginArray);
    put_configuration_objects(fit, &coverage.configurations, json);
    json.put(JsonToken::EndArray);
}

/// Puts the object of each configuration. Requires: they have this coverage.
fn put_configuration_objects<J: JsonPen>(
    fit: &Fit,
    coverage: &[ConfigurationCoverage],
    json: &mut J,
)
    requires covered { map configuration_value coverage.now
        ≡ map (λ entry. configuration_coverage fit.now (meaning_of_sibling entry))
        (siblings (file_configurations fit.now.blob)) }
    ensures { J.puts json.old (value_tokens (map (read_configuration_object fit.now)
        (siblings (file_configurations fit.now.blob)))) json.new }
{
    let mut left = coverage;
    for node in fit.configuration_nodes() {
        let [covered, later @ ..] = left else {
            unreachable!();
        };
        left = later;
        put_configuration_object(fit, node, &covered.signatures, json);
    }
}

/// Puts the object of the configuration of a node. Requires: its signed nodes have this coverage.
fn put_configuration_object<'a, J: JsonPen>(
    fit: &Fit<'a>,
    node: NodeRef<'a, '_>,
    coverage: &[SignatureCoverage],
    json: &mut J,
)
    requires covered { map signature_value coverage.now
        ≡ (configuration_coverage fit.now (meaning_of_node node)).signatures }
    ensures { J.puts json.old (json_tokens
        (read_configuration_object fit.now (node_of node.entry))) json.new }
{
    let members = [
        ("name", JsonValue::String(Field::Shown(node.name()))),
        ("description", text_property(node, b"description")),
    ];
    json.put(JsonToken::BeginObject);
    put_members(&members, json);
    put_compatible(node, json);
    put_keys_member(fit, node, json);
    json.put(JsonToken::Name("signatures"));
    json.put(JsonToken::BeginArray);
    put_signature_objects(fit, node, coverage, json);
    json.put(JsonToken::EndArray);
    json.put(JsonToken::EndObject);
}

/// Puts the object of each signed node of a configuration. Requires: they have this coverage.
fn put_signature_objects<'a, J: JsonPen>(
    fit: &Fit<'a>,
    node: NodeRef<'a, '_>,
    coverage: &[SignatureCoverage],
    json: &mut J,
)
    requires covered { map signature_value coverage.now
        ≡ (configuration_coverage fit.now (meaning_of_node node)).signatures }
    ensures { J.puts json.old (value_tokens
        (read_signature_objects fit.now (node_of node.entry))) json.new }
{
    let mut left = coverage;
    for child in Siblings::children(node) {
        if is_signed(child) {
            let [covered, later @ ..] = left else {
                unreachable!();
            };
            left = later;
            put_signature_object(child, is_covering(&covered.concerns), json);
        }
    }
}

/// Returns whether a child of a configuration is signed: its name begins with `signature`, and it
/// has a value that is not empty.
fn is_signed(child: NodeRef) -> bool
    ensures { result ≡ is_signed_node (node_of child.entry) }
{
    is_signature(child) && has_signature(child)
}

/// Returns whether a signed node covers all of its configuration, by the concerns about it.
fn is_covering(concerns: &[SignatureConcern]) -> bool
    ensures { result ≡ has_no_concern (map signature_concern concerns.now) }
{
    concerns.is_empty()
}

/// Puts the object of a signed node. It covers all of its configuration, or it does not.
fn put_signature_object<J: JsonPen>(node: NodeRef, is_covering: bool, json: &mut J)
    ensures { J.puts json.old (json_tokens (signature_object (node_of node.entry) is_covering))
        json.new }
{
    let members = [
        ("node", JsonValue::String(Field::Shown(node.name()))),
        ("algorithm", name_property(node, b"algo")),
        ("key", name_property(node, b"key-name-hint")),
        ("covered", JsonValue::Bool(is_covering)),
    ];
    put_object(&members, json);
}

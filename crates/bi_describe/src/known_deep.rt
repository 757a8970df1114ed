//! Small boot images with devicetrees inside, with their deep descriptions and what differs between
//! them. Each function does nothing: what it ensures is a fact about the definitions.

ghost use Rattle.bi_describe.specs.KnownDeep.{DeepComparisonsAreKnown, DeepDescriptionsAreKnown};
ghost use Rattle.bi_describe.specs.KnownDeep.{DevicetreesAreKnown, InsideKeysAreKnown};

/// The deep descriptions of small boot images are known texts.
pub fn deep_descriptions_are_known()
    ensures { DeepDescriptionsAreKnown }
{}

/// It is known of small images with devicetrees inside whether they are the same without something,
/// and what differs.
pub fn deep_comparisons_are_known()
    ensures { DeepComparisonsAreKnown }
{}

/// The differences of lines about what is inside are known texts.
pub fn inside_keys_are_known()
    ensures { InsideKeysAreKnown }
{}

/// It is known of some payloads whether they are devicetrees.
pub fn devicetrees_are_known()
    ensures { DevicetreesAreKnown }
{}

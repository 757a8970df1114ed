//! Laws of descriptions and comparisons. Their functions do nothing: what each of them ensures is
//! the law.

ghost use Rattle.bi_describe.specs.DeepLaws.{DeepDescriptionsAreJson, MoreWordsKeepTheSameDeep};
ghost use Rattle.bi_describe.specs.DeepLaws.{NothingInsideIsDescription, OneIsInside};
ghost use Rattle.bi_describe.specs.DeepLaws.{NothingLeftOutComparesDeep};
ghost use Rattle.bi_describe.specs.DeepLaws.{WithoutInsideIsDescription};
ghost use Rattle.bi_describe.specs.DescriptionLaws.{SameDescriptionIsSimilar};
ghost use Rattle.bi_describe.specs.IgnoringLaws.{LinesThatStayAreDescribed};
ghost use Rattle.bi_describe.specs.IgnoringLaws.{MoreWordsKeepTheSame, NothingLeftOutCompares};
ghost use Rattle.bi_describe.specs.JsonLaws.{ComparisonsAreJson, DescriptionsAreJson};

/// Files with one description, as lines or in JSON, have meanings that are the same once each
/// payload is replaced by its length and its SHA-256.
pub fn same_description_is_similar()
    ensures { SameDescriptionIsSimilar }
{}

/// A description in JSON is one line of JSON.
pub fn descriptions_are_json()
    ensures { DescriptionsAreJson }
{}

/// A comparison in JSON is one line of JSON.
pub fn comparisons_are_json()
    ensures { ComparisonsAreJson }
{}

/// A further word that is ignored never makes meanings that are the same differ.
pub fn more_words_keep_the_same()
    ensures { MoreWordsKeepTheSame }
{}

/// Each line that stays once something is ignored is a line of the description.
pub fn lines_that_stay_are_described()
    ensures { LinesThatStayAreDescribed }
{}

/// If nothing is ignored, what two files mean is compared as `compare` does.
pub fn nothing_left_out_compares()
    ensures { NothingLeftOutCompares }
{}

// ---- deep descriptions

/// One thing is inside each payload, within some limits: a devicetree, or nothing.
pub fn one_is_inside()
    ensures { OneIsInside }
{}

/// Without the lines about what is inside payloads, a deep description is the description.
pub fn without_inside_is_description()
    ensures { WithoutInsideIsDescription }
{}

/// If nothing is inside the payloads, the deep description is the description, as lines and in
/// JSON.
pub fn nothing_inside_is_description()
    ensures { NothingInsideIsDescription }
{}

/// A further word that is ignored never makes images that are the same with what is inside differ.
pub fn more_words_keep_the_same_deep()
    ensures { MoreWordsKeepTheSameDeep }
{}

/// If nothing is ignored, what two files mean is compared with what is inside as `compare_deep`
/// does.
pub fn nothing_left_out_compares_deep()
    ensures { NothingLeftOutComparesDeep }
{}

/// A deep description in JSON is one line of JSON.
pub fn deep_descriptions_are_json()
    ensures { DeepDescriptionsAreJson }
{}

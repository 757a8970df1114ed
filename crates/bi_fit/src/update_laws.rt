//! Laws of updates of flattened image trees. The functions do nothing: what each one ensures is the
//! law.

ghost use Rattle.bi_fit.specs.UpdateLaws.{EachUpdateHasItsChanges, EachUpdateHasItsJudgement};
ghost use Rattle.bi_fit.specs.UpdateLaws.{NoChangeKeepsTree};
ghost use Rattle.bi_fit.specs.UpdateLaws.{UpdatedIsAccepted, UpdatedIsImageTree};

/// An update without changes keeps the tree. So its text is the normal text.
pub fn no_change_keeps_tree()
    ensures { NoChangeKeepsTree }
{}

/// If a file can mean a tree, a file can mean the updated tree, which has as many levels.
pub fn updated_is_image_tree()
    ensures { UpdatedIsImageTree }
{}

/// The text of an updated tree in any form, if it is no longer than the limit on files, is
/// accepted under limits that hold the tree, and means the updated tree. The limit on files is at
/// most 0x7fffffff.
pub fn updated_is_accepted()
    ensures { UpdatedIsAccepted }
{}

/// After an update of the digests, each verdict on a hash node of an image with a payload and a
/// known algorithm is Good. All other verdicts stay, and so do the configurations, what they list,
/// the default and the number of signature nodes.
pub fn each_update_has_its_judgement()
    ensures { EachUpdateHasItsJudgement }
{}

/// An update of the time changes the property `timestamp` of the root and nothing else. An update
/// of the digests changes the property `value` of each hash node of an image with a payload and a
/// known algorithm, and nothing else.
pub fn each_update_has_its_changes()
    ensures { EachUpdateHasItsChanges }
{}

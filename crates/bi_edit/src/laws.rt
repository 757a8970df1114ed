//! Laws of edits. The functions do nothing: what each one ensures is the law.

ghost use Rattle.bi_edit.specs.EditLaws.{EditsKeepImageTrees, EditsKeepPlainTrees};
ghost use Rattle.bi_edit.specs.EditLaws.{NothingChanges, OtherValuesStay, SetValuesAreThere};
ghost use Rattle.bi_edit.specs.EditLaws.{EditsThatChangeNothing, OneEditedText, SettingWhatIsThere};

/// Edits of a plain tree make a plain tree. It is no deeper than a limit, if the tree is not, and
/// no edit adds nodes that are.
pub fn edits_keep_plain_trees()
    ensures { EditsKeepPlainTrees }
{}

/// Edits of a flattened image tree make a flattened image tree, whose plain tree is the edited one.
pub fn edits_keep_image_trees()
    ensures { EditsKeepImageTrees }
{}

/// Properties that no edit names stay.
pub fn other_values_stay()
    ensures { OtherValuesStay }
{}

/// A property that was set has this value, after later edits that do not name it, too.
pub fn set_values_are_there()
    ensures { SetValuesAreThere }
{}

/// To set the value that a property has changes nothing.
pub fn setting_what_is_there()
    ensures { SettingWhatIsThere }
{}

/// Edits that change nothing of the plain tree change nothing of the flattened image tree.
pub fn nothing_changes()
    ensures { NothingChanges }
{}

/// Edits that change nothing of what a file means give its normal form.
pub fn edits_that_change_nothing()
    ensures { EditsThatChangeNothing }
{}

/// In a given form a file has at most one text after edits.
pub fn one_edited_text()
    ensures { OneEditedText }
{}

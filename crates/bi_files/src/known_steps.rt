//! Known names and steps of saving: by them a reader can judge the definitions.

ghost use Rattle.bi_files.specs.KnownSteps.{BesideNamesAreKnown, DirectorySavedInSteps};
ghost use Rattle.bi_files.specs.KnownSteps.{SavedInSteps};

/// A new file is in the directory of the file whose name it takes.
pub fn beside_names_are_known()
    ensures { BesideNamesAreKnown }
{}

/// An output that is saved was written to a new file, which was made, then flushed and closed, and
/// then took the name.
pub fn outputs_are_saved_in_steps()
    ensures { SavedInSteps }
{}

/// A directory that is saved is a new one, which was made, then got its files one after another,
/// and then took the name.
pub fn directories_are_saved_in_steps()
    ensures { DirectorySavedInSteps }
{}

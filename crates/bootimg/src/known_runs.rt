//! Small command lines with what they give, and how runs end. Each function does nothing: what it
//! ensures is a fact about the definitions.

ghost use Rattle.std.specs.Global.{Vec};
ghost use Rattle.bi_describe.specs.declared.ignored.Ignored.{Ignored};
ghost use Rattle.bootimg.specs.KnownArguments.{DefaultsAreKnown, OptionsAreKnown};
ghost use Rattle.bootimg.specs.KnownArguments.{MistakesAreKnown, NumbersAreKnown, CodesAreKnown};
ghost use Rattle.bootimg.specs.KnownArguments.{LimitsAreKnown, InputsAreKnown, TextsAreKnown};
ghost use Rattle.bootimg.specs.KnownRequests.{FlagsAreKnown, CommandNamesAreKnown};
ghost use Rattle.bootimg.specs.KnownRequests.{SourcesAreKnown, ImageOffsetsAreKnown};
ghost use Rattle.bootimg.specs.KnownRequests.{PartWordsAreKnown};
ghost use Rattle.bootimg.specs.KnownRequests.{AllowedWordsAreKnown, ChangesAreKnown};
ghost use Rattle.bootimg.specs.KnownRequests.{AllRequestsAreKnown, SelectionsAreKnown};
ghost use Rattle.bootimg.specs.KnownRequests.{GetPlansAreKnown, PlansAreKnown};
ghost use Rattle.bootimg.specs.KnownImages.{ImageOutcomesAreKnown, NextImagesAreKnown};
ghost use Rattle.bootimg.specs.KnownHints.{FailureHintsAreKnown, ImageWritersAreKnown};
ghost use Rattle.bootimg.specs.KnownHints.{RefusedWordsAreKnown};
ghost use Rattle.bootimg.specs.KnownRuns.{StatusesAreKnown, FailureLinesAreKnown};
ghost use Rattle.bootimg.specs.KnownRuns.{ExtractLinesAreKnown, CompareLinesAreKnown};
ghost use Rattle.bootimg.specs.KnownRuns.{NotesAreKnown, ValueLinesAreKnown};
ghost use Rattle.bi_files.specs.KnownSteps.{BesideNamesAreKnown, DirectorySavedInSteps};
ghost use Rattle.bi_files.specs.KnownSteps.{SavedInSteps};

/// Each option of each command has a known value if it is not given.
pub fn defaults_are_known()
    ensures { DefaultsAreKnown }
{}

/// Each option of each command has the value that a command line gives it.
pub fn options_are_known()
    ensures { OptionsAreKnown }
{}

/// Small command lines are rejected for known reasons.
pub fn mistakes_are_known()
    ensures { MistakesAreKnown }
{}

/// Small words are known numbers, or none.
pub fn numbers_are_known()
    ensures { NumbersAreKnown }
{}

/// Small words are known codes of a field, or none.
pub fn codes_are_known()
    ensures { CodesAreKnown }
{}

/// Small words are known limits, or none.
pub fn limits_are_known()
    ensures { LimitsAreKnown }
{}

/// Arguments have known texts.
pub fn texts_are_known()
    ensures { TextsAreKnown }
{}

/// Standard input is read for parts with a length and without parts, and not for files alone.
pub fn inputs_are_known()
    ensures { InputsAreKnown }
{}

/// Each flag has a known meaning, and so has its absence.
pub fn flags_are_known()
    ensures { FlagsAreKnown }
{}

/// Each task and each job is that of the command of its name.
pub fn command_names_are_known()
    ensures { CommandNamesAreKnown }
{}

/// Images are in standard input or in known files.
pub fn sources_are_known()
    ensures { SourcesAreKnown }
{}

/// Images begin at known offsets of their inputs.
pub fn image_offsets_are_known()
    ensures { ImageOffsetsAreKnown }
{}

/// Small words are known parts, or none.
pub fn part_words_are_known()
    ensures { PartWordsAreKnown }
{}

/// Small values of `--allow` allow known kinds of lines, or are refused.
pub fn allowed_words_are_known()
    ensures { AllowedWordsAreKnown }
{}

/// Small command lines request known updates, or fail for known reasons.
pub fn changes_are_known()
    ensures { ChangesAreKnown }
{}

/// The values that the options of `get` name, and their form, are known; options of another form,
/// and a path without a name, mean nothing.
pub fn get_plans_are_known()
    ensures { GetPlansAreKnown }
{}

/// Small command lines select known parts, images and entries, or fail for known reasons.
pub fn selections_are_known()
    ensures { SelectionsAreKnown }
{}

/// Small command lines request all payloads of known images, or fail for known reasons.
pub fn all_requests_are_known()
    ensures { AllRequestsAreKnown }
{}

/// The options of a legacy image, and the fields of an image of a tree, have known meanings.
pub fn plans_are_known()
    ensures { PlansAreKnown }
{}

/// The exit status is 0 or 1 for known results, and 2 after a failure.
pub fn statuses_are_known()
    ensures { StatusesAreKnown }
{}

/// Each failure has a known line, with the name of the file or without it.
pub fn failure_lines_are_known()
    ensures { FailureLinesAreKnown }
{}

/// Each error of extracting has a known line.
pub fn extract_lines_are_known()
    ensures { ExtractLinesAreKnown }
{}

/// Each error of getting values has a known line, with the words for the value.
pub fn value_lines_are_known()
    ensures { ValueLinesAreKnown }
{}

/// The line of an error of comparing has the name of the file that is refused.
pub fn compare_lines_are_known()
    ensures { (ignored : Vec Ignored) → CompareLinesAreKnown ignored }
{}

/// The notes on signature nodes, on an alignment and on fixed positions are known lines.
pub fn notes_are_known()
    ensures { NotesAreKnown }
{}

/// The hints for words that are not taken are known, with names that are near them; so are those
/// for failures, and there is none where no hints are given. It is known which commands write
/// images.
pub fn hints_are_known()
    ensures words { RefusedWordsAreKnown }
    ensures failures { FailureHintsAreKnown }
    ensures writers { ImageWritersAreKnown }
{}

/// One of several images has a known name, and its outcome a known status. No image follows after a
/// failed write, or if memory ran out.
pub fn image_outcomes_are_known()
    ensures { ImageOutcomesAreKnown }
{}

/// It is known which of two images are done.
pub fn next_images_are_known()
    ensures { NextImagesAreKnown }
{}

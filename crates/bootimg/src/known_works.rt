//! What tasks and jobs do with small files. Each function does nothing: what it ensures is a fact
//! about the definitions. One of them calls the function of a law, from which its facts follow.

ghost use Rattle.bootimg.specs.KnownWorks.{TaskOutputsAreKnown, TaskFailuresAreKnown};
ghost use Rattle.bootimg.specs.KnownWorks.{ExplainWorkIsKnown, ExplainRunsAreKnown};
ghost use Rattle.bootimg.specs.KnownWorks.{ImageWorksAreKnown, OutputsInFilesAreKnown};
ghost use Rattle.bootimg.specs.KnownWorks.{PartsOfFilesAreKnown, FitPlansAreKnown};
ghost use Rattle.bootimg.specs.KnownWorks.{AllWorksAreKnown};
ghost use Rattle.bootimg.specs.KnownTasks.{TaskEndsAreKnown, BuildPromisesAreKnown};
ghost use Rattle.bootimg.specs.KnownTasks.{BuildWorksAreKnown, GetFailuresAreKnown};

/// The output and the answer of `normalise` and of `convert` for a kernel image are known, at an
/// offset too, and so is the answer of `scan`.
pub fn task_outputs_are_known()
    ensures { TaskOutputsAreKnown }
{}

/// The failures of tasks for a file without a magic number, and those of calls, are known.
pub fn task_failures_are_known()
    ensures { TaskFailuresAreKnown }
{}

/// What `explain` writes for a cause is known, and why it fails.
pub fn explain_work_is_known()
    ensures { ExplainWorkIsKnown }
{}

/// A whole run of `explain` over plain streams is known.
pub fn explain_runs_are_known()
    ensures { ExplainRunsAreKnown }
{}

/// What `normalise` does with standard input, with a file and without one is known.
pub fn image_works_are_known()
    ensures { ImageWorksAreKnown }
{}

/// What `normalise` does with an output in a file is known, and how it fails.
pub fn outputs_in_files_are_known()
    ensures { OutputsInFilesAreKnown }
{}

/// The files of parts are read in their order, and known parts are made of them.
pub fn parts_of_files_are_known()
    ensures { PartsOfFilesAreKnown }
{}

/// The plan of a tree has the fields that the options give.
pub fn fit_plans_are_known()
    ensures { FitPlansAreKnown }
{}

/// `extract --all` without its file fails in a known way.
pub fn all_works_are_known()
    ensures { AllWorksAreKnown }
{}

/// What each task makes of a small file is known, and how it ends.
pub fn task_ends_are_known()
    ensures { TaskEndsAreKnown }
{
    bi_legacy::laws::one_meaning();
    bi_report::known_texts::scans_are_known();
    bi_show::known_texts::pages_are_known();
    bi_show::known_texts::objects_are_known();
    bi_describe::laws::nothing_inside_is_description();
}

/// The failures of getting values are those of the calls behind them, and have the words for the
/// value.
pub fn get_failures_are_known()
    ensures { GetFailuresAreKnown }
{
    bi_legacy::laws::one_meaning();
}

/// Known images are built of small parts, or building has a known fault.
pub fn build_promises_are_known()
    ensures { BuildPromisesAreKnown }
{}

/// What a job that builds writes is known, and how it fails.
pub fn build_works_are_known()
    ensures { BuildWorksAreKnown }
{}

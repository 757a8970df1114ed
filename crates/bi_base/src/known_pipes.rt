//! What a small command may do with a reader and a writer. Each function does nothing: what it
//! ensures is a fact about the definitions.

ghost use Rattle.bi_base.specs.KnownPipes.{RunsAreKnown, TracedRunsAreKnown, AppendsAreKnown};

/// What a run of a small command may read, write and return is known, and what it may not.
pub fn runs_are_known()
    ensures { RunsAreKnown }
{}

/// The same is known of streams whose calls are traced: a run flushes its output, ignores no failed
/// call, and does not fail because of a stream without a failed call.
pub fn traced_runs_are_known()
    ensures { TracedRunsAreKnown }
{}

/// What a call that appends to bytes in memory may do is known.
pub fn appends_are_known()
    ensures { AppendsAreKnown }
{}

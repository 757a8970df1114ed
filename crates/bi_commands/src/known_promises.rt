//! Small files with what `convert` promises of them, what updates of them do not keep, and which
//! files payloads have. Each function does nothing: what it ensures is a fact about the
//! definitions. Two of them call the function of a law, from which their facts follow.

ghost use Rattle.bi_commands.specs.KnownPromises.{ConvertPromiseIsKnown, KeptOfUpdatesIsKnown};
ghost use Rattle.bi_commands.specs.KnownPromises.{FilesOfPayloadsAreKnown};

/// Converting the file of a legacy image with two parts gives a known text, and no other. It has
/// known errors, and that of an image without parts has one error.
pub fn convert_promise_is_known()
    ensures { ConvertPromiseIsKnown }
{
    bi_legacy::laws::one_meaning();
}

/// What updates of small files do not keep is known: signature nodes, and in the form External the
/// alignment of payloads.
pub fn kept_of_updates_is_known()
    ensures { KeptOfUpdatesIsKnown }
{
    bi_legacy::laws::one_meaning();
}

/// The files of one payload, of two and of none are known.
pub fn files_of_payloads_are_known()
    ensures { FilesOfPayloadsAreKnown }
{}

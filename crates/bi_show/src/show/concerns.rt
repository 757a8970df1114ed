//! The lines of the concerns about a boot image.

ghost use Rattle.std.specs.Prelude.{◌≡◌, IfOk, IsAscii, string_bytes};
ghost use Rattle.bi_common.specs.declared.format.Format.TheVariants.{Lines};
ghost use Rattle.bi_report.specs.CheckedFiles.{concerns_text};
ghost use Rattle.bi_report.specs.CheckedImages.{concerns_left};
ghost use Rattle.bi_report.specs.Checking.{allowed_by_default};
ghost use Rattle.bi_report.specs.FoundConcerns.{concerns_in};

use super::cells::string_of;
use bi_base::VecSink;
use bi_common::format::Format;
use bi_report::check::{Checker, Concerns, Policy, put_concerns};
use std::alloc::{AllocError, Global};

/// Returns the lines of these concerns that no policy allows: a lack of signatures has no line.
/// Requires: the lines are ASCII.
pub(super) fn concern_lines(alloc: Global, concerns: Concerns) -> Result<String, AllocError>
    requires { IsAscii (concerns_text Lines allowed_by_default
        (concerns_in (concerns_left concerns))) }
    ensures { IfOk result (λ lines. string_bytes lines ≡ concerns_text Lines allowed_by_default
        (concerns_in (concerns_left concerns.entry))) }
{
    let checker = Checker {
        policy: Policy::default(),
        format: Format::Lines,
    };
    let mut sink = VecSink::new(alloc);
    match put_concerns(concerns, checker, &mut sink) {
        Ok(_clean) => Ok(string_of(sink.into_vec())),
        Err(_) => Err(AllocError),
    }
}

//! The kind of a file.

ghost use Rattle.bi_c.specs.Answers.{Answers};
ghost use Rattle.bi_c.specs.Calls.{IsKindNumber, IsKindFailure};

use crate::answer::{Answer, fail, succeed};
use crate::failure::Failure;
use bi_norm::{Kind, kind_of};

/// Sets `answer.value` to the kind of a file by its first four bytes: 1 for a legacy image, 2 for a
/// flattened image tree. Returns the status.
#[unsafe(no_mangle)]
pub extern "C" fn bootimg_kind(file: &[u8], answer: &mut Answer) -> u32
    ensures { Answers (IsKindNumber file.now) (IsKindFailure file.now) answer.new result }
{
    match kind_of(file) {
        Ok(Kind::Legacy) => succeed(0, 1, answer),
        Ok(Kind::Fit) => succeed(0, 2, answer),
        Err(fault) => fail(Failure::Refused(1, fault), answer),
    }
}

//! The names of the codes in legacy headers, and the codes of names.

ghost use Rattle.std.specs.Prelude.{◌≡◌, ◌↔◌, ◌<◌, IfSome, IsSome, option_map};
ghost use Rattle.bi_legacy.specs.Codes.{name_of_code};
ghost use Rattle.bi_show.specs.AllCodes.{code_of_name};
ghost use Rattle.bi_c.specs.Answers.{Answers, FillsBuffer};
ghost use Rattle.bi_c.specs.CodeCalls.{IsCodeNameFailure, IsCodeNumberFailure, IsNameOfCode};
ghost use Rattle.bi_c.specs.CodeCalls.{IsNumberOfName, names_of_field};

use crate::answer::{Answer, fail, fill, succeed};
use crate::argument::Argument;
use crate::failure::Failure;
use bi_legacy::codes::compression_name;
use bi_show::show::codes::{
    arch_code, compression_code, given_arch_name, given_os_name, given_type_name, os_code,
    type_code,
};

/// The number of the field of the operating system.
const CODE_OS: u32 = 0;

/// The number of the field of the processor architecture.
const CODE_ARCH: u32 = 1;

/// The number of the field of the image type.
const CODE_IMAGE_TYPE: u32 = 2;

/// The number of the field of the compression.
const CODE_COMPRESSION: u32 = 3;

/// The number of the reason that the code has no name.
const NO_NAME: u32 = 14;

/// The number of the reason that no code has the name.
const NO_CODE: u32 = 15;

/// Writes the name of a code, 0 to 255, of a field, 0 to 3, to a buffer. Returns the status.
#[unsafe(no_mangle)]
pub extern "C" fn bootimg_code_name(
    field: u32,
    code: u32,
    buffer: &mut [u8],
    answer: &mut Answer,
) -> u32
    ensures { FillsBuffer (IsNameOfCode field code) (IsCodeNameFailure field code) buffer.old
        buffer.new answer.new result }
{
    if field > CODE_COMPRESSION {
        return fail(Failure::WrongArgument(Argument::Field, 0), answer);
    }
    let Some(wanted) = code_of(code) else {
        return fail(Failure::WrongArgument(Argument::Code, 0), answer);
    };
    match name_in_field(field, wanted) {
        Some(name) => fill(name.as_bytes(), 0, buffer, answer),
        None => fail(Failure::NotFound(NO_NAME, 0), answer),
    }
}

/// Sets `answer.value` to the code of a field, 0 to 3, that has a name. Returns the status.
#[unsafe(no_mangle)]
pub extern "C" fn bootimg_code_number(field: u32, name: &[u8], answer: &mut Answer) -> u32
    ensures { Answers (IsNumberOfName field name.now) (IsCodeNumberFailure field name.now)
        answer.new result }
{
    if field > CODE_COMPRESSION {
        return fail(Failure::WrongArgument(Argument::Field, 0), answer);
    }
    match code_in_field(field, name) {
        Some(code) => succeed(0, usize::from(code), answer),
        None => fail(Failure::NotFound(NO_CODE, 0), answer),
    }
}

/// Returns the code with this number, if there is one.
fn code_of(number: u32) -> Option<u8>
    ensures in_range { IsSome result ↔ number < 256 }
    ensures value { IfSome result (λ code. code ≡ number) }
{
    if number > 255 {
        return None;
    }
    Some(number as u8)
}

/// Returns the name of a code of a field, or of a compression for any other number of a field.
/// Returns None if the code has no name.
fn name_in_field(field: u32, code: u8) -> Option<&'static str>
    ensures { option_map (λ name. name.now) result ≡ name_of_code (names_of_field field) code }
{
    match field {
        CODE_OS => given_os_name(code),
        CODE_ARCH => given_arch_name(code),
        CODE_IMAGE_TYPE => given_type_name(code),
        _ => compression_name(code),
    }
}

/// Returns the code of a field that has a name, or the one of a compression for any other number of
/// a field. Returns None if no code has the name.
fn code_in_field(field: u32, name: &[u8]) -> Option<u8>
    ensures { result ≡ code_of_name (names_of_field field) name.now }
{
    let Ok(text) = str::from_utf8(name) else {
        return None;
    };
    match field {
        CODE_OS => os_code(text),
        CODE_ARCH => arch_code(text),
        CODE_IMAGE_TYPE => type_code(text),
        _ => compression_code(text),
    }
}

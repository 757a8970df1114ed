//! Options that several commands have.

ghost use Rattle.std.specs.Prelude.{◌≡◌, IfOk, IfErr, IfSome, IfNone, codes};
ghost use Rattle.bootimg.specs.CommandLine.{limit_of, texts_of, value_of, values_of};
ghost use Rattle.bootimg.specs.CommandLine.{IsAlignOf, IsBadValue, IsForm, IsFormFailure};
ghost use Rattle.bootimg.specs.CommandLine.{IsFlag, IsFormat, IsLimits, NoneIs};
ghost use Rattle.bootimg.specs.Numbers.{IsNumber};
ghost use Rattle.clap.specs.Matches.{found_of, one_text};

use crate::command_line::table::{GREATEST_LIMIT, ZERO};
use crate::failure::Failure;
use crate::numbers::parse_number;
use bi_base::{Align, Limits};
use bi_commands::format::Format;
use bi_norm::Form;
use clap::ArgMatches;

/// The limit for the depth of a blob's tree.
const DEPTH: u8 = 64;

/// Returns the limits that the options give. Fails with BadValue if `--limit` is not a number of 64
/// to 0x7fffffff.
pub fn limits(options: &ArgMatches<'_>) -> Result<Limits, Failure<'static>>
    ensures value { IfOk result (IsLimits (limit_of options.now)) }
    ensures bad { IfErr result (IsBadValue (IsLimits (limit_of options.now))) }
{
    parse_limits(value(options, "limit", GREATEST_LIMIT)).ok_or(Failure::BadValue)
}

/// Parses the limit for a file. Returns None exactly for any text but a number of 64 to 0x7fffffff.
pub fn parse_limits(argument: &str) -> Option<Limits>
    ensures some { IfSome result (IsLimits argument.now) }
    ensures none { IfNone result (NoneIs (IsLimits argument.now)) }
{
    Limits::new(parse_number(argument)?, DEPTH)
}

/// Returns the form that the options give. Fails with BadValue if `--align` is given without
/// `--external`, or is not a power of two from 4 to 1048576.
pub fn form(options: &ArgMatches<'_>) -> Result<Form, Failure<'static>>
    ensures form { IfOk result (IsForm options.now) }
    ensures failure { IfErr result (IsFormFailure options.now) }
{
    let external = flag(options, "external");
    match options.get_str("align") {
        None if external => Ok(Form::External),
        None => Ok(Form::Embedded),
        Some(argument) if external => match parse_align(argument) {
            Some(align) => Ok(Form::Aligned(align)),
            None => Err(Failure::BadValue),
        },
        Some(_) => Err(Failure::BadValue),
    }
}

/// Parses an alignment. Returns None exactly for any text but a number that is a power of two from
/// 4 to 1048576.
pub fn parse_align(argument: &str) -> Option<Align>
    ensures some { IfSome result (IsAlignOf argument.now) }
    ensures none { IfNone result (NoneIs (IsAlignOf argument.now)) }
{
    Align::new(parse_number(argument)?)
}

/// Returns the form of the text that the options give: JSON, or lines.
pub fn format(options: &ArgMatches<'_>) -> Format
    ensures { IsFormat options.now result }
{
    if flag(options, "json") {
        Format::Json
    } else {
        Format::Lines
    }
}

/// Returns the values of an option that may be given any number of times, in their order, or those
/// positional arguments.
pub fn all_values<'r, 'a>(options: &'r ArgMatches<'a>, id: &str) -> &'r [&'a str]
    ensures { texts_of result.now ≡ values_of options.now id.now }
{
    options.get_strs(id).unwrap_or_default()
}

/// Returns the number that is the value of an option, and 0 if it has none. Fails with BadValue if
/// the value is not a number.
pub fn number(options: &ArgMatches<'_>, id: &str) -> Result<u32, Failure<'static>>
    ensures value { IfOk result (IsNumber (value_of options.now id.now (codes "0"))) }
    ensures bad { IfErr result (IsBadValue
        (IsNumber (value_of options.now id.now (codes "0")))) }
{
    parse_number(value(options, id, ZERO)).ok_or(Failure::BadValue)
}

/// Returns the value of an option, or this one if it has none.
pub fn value<'a>(options: &ArgMatches<'a>, id: &str, default: &'a str) -> &'a str
    ensures { result.now ≡ value_of options.now id.now default.entry.now }
{
    options.get_str(id).unwrap_or(default)
}

/// Returns whether a flag is given.
pub fn flag(options: &ArgMatches<'_>, id: &str) -> bool
    ensures { IsFlag (one_text (found_of options.now) id.now) result }
{
    options.get_flag(id)
}

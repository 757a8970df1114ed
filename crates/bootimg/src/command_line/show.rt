//! The command `show`.

ghost use Rattle.std.specs.Prelude.{◌≡◌, IfErr, IfOk};
ghost use Rattle.bi_common.specs.declared.format.Format.TheVariants.{Json, Lines};
ghost use Rattle.bootimg.specs.CommandLine.{IsFormat, IsShowFailure, IsShown, ShowsLayout};

use crate::command_line::options::{flag, format};
use crate::failure::Failure;
use bi_commands::format::Format;
use bi_commands::show::Presenter;
use clap::ArgMatches;

/// How an image is shown.
#[derive(Clone, Copy)]
pub enum ShowForm {
    /// As a page.
    Page(Presenter),
    /// As one text of JSON.
    Json,
}

/// Returns how the options have an image shown: as a page, with the layout of the file or without
/// it; or as JSON. Fails with BadValue if both the layout and JSON are asked for.
pub fn show_form(options: &ArgMatches<'_>) -> Result<ShowForm, Failure<'static>>
    ensures shown { IfOk result (IsShown options.now) }
    ensures failure { IfErr result (IsShowFailure options.now) }
{
    let layout = flag(options, "layout");
    match format(options) {
        Format::Lines => Ok(ShowForm::Page(Presenter { layout })),
        Format::Json if layout => Err(Failure::BadValue),
        Format::Json => Ok(ShowForm::Json),
    }
}

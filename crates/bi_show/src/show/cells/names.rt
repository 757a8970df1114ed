//! The cell of a list of names.

ghost use Rattle.std.specs.Prelude.{◌≡◌, IfOk, map, string_bytes};
ghost use Rattle.std.specs.List.{join_with_byte};
ghost use Rattle.bi_fit.specs.Judgement.{listed_names};
ghost use Rattle.bi_common.specs.Shown.{shown_text};
ghost use Rattle.bi_show.specs.PageCells.{names_cell as cell_of_names};

use super::value_cell;
use crate::show::tables::join_cells;
use bi_common::shown::shown_name;
use bi_fit::split_name;
use std::alloc::{AllocError, Global};

/// Returns the cell of a value that lists names, or of any other value.
pub(super) fn names_cell(alloc: Global, value: &[u8]) -> Result<String, AllocError>
    ensures { IfOk result (λ text. string_bytes text ≡ cell_of_names value.now) }
{
    if value.ends_with(b"\0") {
        listed_cell(alloc, value)
    } else {
        value_cell(alloc, value)
    }
}

/// Returns the names that a value lists, with a space between each two.
fn listed_cell(alloc: Global, value: &[u8]) -> Result<String, AllocError>
    ensures { IfOk result (λ text. string_bytes text
        ≡ join_with_byte 32 (map shown_text (listed_names value.now))) }
{
    let mut names = Vec::new(alloc);
    let mut rest = value;
    while let Some((name, later)) = split_name(rest) {
        names.push(shown_name(alloc, name)?)?;
        rest = later;
    }
    join_cells(alloc, &names)
}

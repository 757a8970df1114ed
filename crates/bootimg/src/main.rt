//! The program `bootimg`, for U-Boot's boot images.
#![tactic(auto)]

mod builds;
mod codes;
mod command_line;
mod edits;
mod error_line;
mod explanations;
mod extractions;
mod failure;
mod hints;
mod jobs;
mod known_requests;
mod known_runs;
mod known_works;
mod messages;
mod no_input;
mod numbers;
mod reports;
mod requests;
mod run;
mod several;
mod tasks;
mod terminal;

use bi_files::SystemFiles;
use run::run_with_files;
use std::alloc::{AllocError, Global};
use std::io::{self, IsTerminal, Write};
use std::process::ExitCode;
use terminal::Terminal;

fn main(rt: HostRuntime) -> ExitCode {
    let alloc = rt.alloc();
    let Ok(strings) = arguments(&rt) else {
        return out_of_memory(&rt);
    };
    let Ok(words) = as_strs(alloc, &strings) else {
        return out_of_memory(&rt);
    };
    let terminal = Terminal {
        output: rt.stdout().is_terminal(),
        errors: rt.stderr().is_terminal(),
    };
    ExitCode::from(run_with_files(
        alloc,
        &words,
        terminal,
        &mut SystemFiles {
            runtime: &rt,
            alloc,
        },
        &mut rt.stdin(),
        &mut rt.stdout(),
        &mut rt.stderr(),
    ))
}

/// Returns the arguments of the program, without its own name. Fails if memory runs out, or an
/// argument is not UTF-8.
fn arguments(rt: &HostRuntime) -> io::Result<Vec<String>> {
    Ok(std::env::args(rt)?.skip(1).collect(rt.alloc())?)
}

/// Returns these strings as slices.
fn as_strs(alloc: Global, strings: &[String]) -> Result<Vec<&str>, AllocError> {
    let mut words = Vec::with_capacity(alloc, strings.len())?;
    for string in strings {
        words.push(string.as_str())?;
    }
    Ok(words)
}

/// Writes that memory ran out, and returns the exit status.
fn out_of_memory(rt: &HostRuntime) -> ExitCode {
    let _ = writeln!(rt.stderr(), "bootimg: out of memory");
    ExitCode::from(2)
}

//! Saving payloads in a new directory.

ghost use Rattle.std.specs.Prelude.{◌≤◌, map, length, take, IfOk, IfErr, OnOk, OnErr};
ghost use Rattle.std.specs.Prelude.{string_bytes};
ghost use Rattle.bi_commands.specs.Payloads.{payload_file};
ghost use Rattle.bi_files.specs.Directories.{AreFilesNotPut, AreFilesPut, IsDirectoryInPlace};
ghost use Rattle.bi_files.specs.Directories.{IsDirectoryMade, IsDirectoryNotInPlace};
ghost use Rattle.bi_files.specs.Directories.{IsDirectoryNotSaved, IsDirectoryRemoved};
ghost use Rattle.bi_files.specs.Directories.{IsDirectorySaved, IsFileFilled, IsFileNotFilled};
ghost use Rattle.bi_files.specs.Directories.{IsWithoutSlashes};
ghost use Rattle.bi_files.specs.Files.{IsNotMade};

use crate::files::FileSystem;
use crate::saving::{MOST_NAMES, SaveError, name_beside};
use bi_base::write_and_flush;
use bi_commands::extract_all::Payload;
use std::alloc::Global;
use std::io::ErrorKind;

/// Saves these payloads in a new directory of this name, each in the file of its name: writes them
/// to a new directory beside it, which then takes the name.
///
/// Fails with NotWritten if something has the name, or if the new directory or a file in it cannot
/// be made, written, flushed, closed or renamed, and with OutOfMemory. After an error the new
/// directory is removed with its files; if that fails, it is left.
pub fn save_all<F: FileSystem>(
    alloc: Global,
    files: &mut F,
    name: &str,
    payloads: &[Payload<'_>],
) -> Result<(), SaveError>
    ensures saved { OnOk result (IsDirectorySaved (F.known files.old) name.now
        (map payload_file payloads.now) (F.steps files.old) (F.steps files.new)) }
    ensures failed { IfErr result (λ error. IsDirectoryNotSaved (F.known files.old) name.now
        (map payload_file payloads.now) error (F.steps files.old) (F.steps files.new)) }
{
    if !files.is_unused(name) {
        return Err(SaveError::NotWritten);
    }
    let beside = make_beside(alloc, files, name)?;
    match put_in_place(files, beside.as_str(), payloads, name) {
        Ok(()) => Ok(()),
        Err(made) => {
            remove_all(files, beside.as_str(), &payloads[..made]);
            Err(SaveError::NotWritten)
        }
    }
}

/// Makes a new directory beside this name, and returns its name. Fails with NotWritten if none can
/// be made, or with OutOfMemory.
fn make_beside<F: FileSystem>(alloc: Global, files: &mut F, name: &str) -> Result<String, SaveError>
    ensures made { IfOk result (λ beside. IsDirectoryMade (F.known files.old) name.now
        (string_bytes beside) (F.steps files.old) (F.steps files.new)) }
    ensures failed { IfErr result (λ error. IsNotMade name.now error (F.steps files.old)
        (F.steps files.new)) }
{
    for number in 0..MOST_NAMES {
        let beside = name_beside(alloc, name, number)?;
        if beside.as_str() == name {
            continue;
        }
        match files.make_directory(beside.as_str()) {
            Ok(()) => return Ok(beside),
            Err(error) if error.kind() == ErrorKind::AlreadyExists => {}
            Err(_) => return Err(SaveError::NotWritten),
        }
    }
    Err(SaveError::NotWritten)
}

/// Puts these payloads into the new directory of the name `beside`, and gives it the name `name`.
/// After an error, which is how many files were made, the directory has the name that it had.
fn put_in_place<F: FileSystem>(
    files: &mut F,
    beside: &str,
    payloads: &[Payload<'_>],
    name: &str,
) -> Result<(), usize>
    ensures put { OnOk result (IsDirectoryInPlace name.now beside.now
        (map payload_file payloads.now) (F.steps files.old) (F.steps files.new)) }
    ensures not_put { IfErr result (λ made. IsDirectoryNotInPlace name.now beside.now
        (map payload_file payloads.now) (map payload_file (take made payloads.now))
        (F.steps files.old) (F.steps files.new)) }
    ensures within { IfErr result (λ made. made ≤ length payloads.now) }
{
    put_files(files, beside, payloads)?;
    match files.rename_directory(beside, name) {
        Ok(()) => Ok(()),
        Err(_) => Err(payloads.len()),
    }
}

/// Writes each of these payloads to a new file in this directory. Fails with how many files were
/// made, the last of which may be without all of its bytes.
fn put_files<F: FileSystem>(
    files: &mut F,
    directory: &str,
    payloads: &[Payload<'_>],
) -> Result<(), usize>
    ensures put { OnOk result (AreFilesPut directory.now (map payload_file payloads.now)
        (F.steps files.old) (F.steps files.new)) }
    ensures not_put { IfErr result (λ made. AreFilesNotPut directory.now
        (map payload_file payloads.now) (map payload_file (take made payloads.now))
        (F.steps files.old) (F.steps files.new)) }
    ensures within { IfErr result (λ made. made ≤ length payloads.now) }
{
    let mut made = 0;
    for payload in payloads {
        let Ok(file) = files.create_in(directory, payload.file_name.as_str()) else {
            return Err(made);
        };
        made += 1;
        match write_payload(files, directory, payload, file) {
            Ok(()) => {}
            Err(_) => return Err(made),
        }
    }
    Ok(())
}

/// Writes the bytes of a payload to its new file in this directory, flushes it and closes it. Fails
/// with NotWritten. After an error it is closed, too.
fn write_payload<F: FileSystem>(
    files: &mut F,
    directory: &str,
    payload: &Payload<'_>,
    mut file: F::Created,
) -> Result<(), SaveError>
    ensures filled { OnOk result (IsFileFilled directory.now (payload_file payload.now)
        (F.Created.trace file) (F.steps files.old) (F.steps files.new)) }
    ensures not_filled { OnErr result (IsFileNotFilled directory.now (payload_file payload.now)
        (F.Created.trace file) (F.steps files.old) (F.steps files.new)) }
{
    let written = write_and_flush(&mut file, payload.bytes);
    let closed = files.close_in(directory, payload.file_name.as_str(), file);
    match (written, closed) {
        (Ok(()), Ok(())) => Ok(()),
        _ => Err(SaveError::NotWritten),
    }
}

/// Removes the files of these payloads from this directory, and then the directory. What cannot be
/// removed is left.
fn remove_all<F: FileSystem>(files: &mut F, directory: &str, payloads: &[Payload<'_>])
    ensures { IsDirectoryRemoved directory.now (map payload_file payloads.now)
        (F.steps files.old) (F.steps files.new) }
{
    for payload in payloads {
        let _ = files.remove_in(directory, payload.file_name.as_str());
    }
    let _ = files.remove_directory(directory);
}

/// Returns this name without the slashes at its end.
pub fn without_slashes(name: &str) -> &str
    ensures { IsWithoutSlashes name.now result.now }
{
    name.trim_end_matches('/')
}

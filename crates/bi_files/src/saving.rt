//! Saving an output in a file.

ghost use Rattle.std.specs.Prelude.{◌≡◌, IfOk, IfErr, OnOk, string_bytes};
ghost use Rattle.bi_files.specs.declared.saving.SaveError.TheVariants.{NotWritten};
ghost use Rattle.bi_files.specs.Files.{IsBeside, IsWrittenFile, IsMadeBeside, IsNotWrittenFile};
ghost use Rattle.bi_files.specs.Files.{IsNotMade};
ghost use Rattle.bi_files.specs.Files.{IsNotPutInPlace, IsNotSaved, IsPutInPlace, IsSaved};

use crate::files::FileSystem;
use bi_base::write_and_flush;
use std::alloc::{AllocError, Global};
use std::io::ErrorKind;

/// How many names are tried for a new file.
pub const MOST_NAMES: u32 = 10_000;

/// Why an output is not saved.
#[derive(Clone, Copy, Debug, PartialEq, Eq, thiserror::Error)]
pub enum SaveError {
    /// The file or the directory cannot be written.
    #[error("write failed")]
    NotWritten,
    /// Memory ran out.
    #[error("out of memory")]
    OutOfMemory,
}

impl From<AllocError> for SaveError {
    ghost use Rattle.bi_files.specs.declared.saving.SaveError.TheVariants.{OutOfMemory};

    ghost from_gives = { λ _ error. error ≡ OutOfMemory };

    fn from(_error: AllocError) -> SaveError {
        SaveError::OutOfMemory
    }
}

/// Saves these bytes in the file of this name: writes them to a new file beside it, which then
/// takes the name.
///
/// Fails with NotWritten if something that is no regular file has the name, or if the new file
/// cannot be made, written, flushed, closed or renamed, and with OutOfMemory. After an error the
/// file is unchanged, and the new file is removed; if that fails, it is left.
pub fn save<F: FileSystem>(
    alloc: Global,
    files: &mut F,
    name: &str,
    bytes: &[u8],
) -> Result<(), SaveError>
    ensures saved { OnOk result (IsSaved (F.known files.old) name.now bytes.now
        (F.steps files.old) (F.steps files.new)) }
    ensures failed { IfErr result (λ error. IsNotSaved (F.known files.old) name.now
        bytes.now error (F.steps files.old) (F.steps files.new)) }
{
    if !files.can_replace(name) {
        return Err(SaveError::NotWritten);
    }
    let (beside, file) = create_beside(alloc, files, name)?;
    match put_in_place(files, beside.as_str(), file, bytes, name) {
        Ok(()) => Ok(()),
        Err(error) => {
            let _ = files.remove(beside.as_str());
            Err(error)
        }
    }
}

/// Writes these bytes to the new file of the name `beside`, and gives it the name `name` in place
/// of a file that has it. Fails with NotWritten. After an error both files have the names that they
/// had.
fn put_in_place<F: FileSystem>(
    files: &mut F,
    beside: &str,
    file: F::Created,
    bytes: &[u8],
    name: &str,
) -> Result<(), SaveError>
    ensures put { OnOk result (IsPutInPlace name.now beside.now bytes.now (F.Created.trace file)
        (F.steps files.old) (F.steps files.new)) }
    ensures not_put { IfErr result (λ _. IsNotPutInPlace name.now beside.now bytes.now
        (F.Created.trace file) (F.steps files.old) (F.steps files.new)) }
    ensures error { IfErr result (λ error. error ≡ NotWritten) }
{
    write_new_file(files, beside, file, bytes)?;
    match files.rename(beside, name) {
        Ok(()) => Ok(()),
        Err(_) => Err(SaveError::NotWritten),
    }
}

/// Writes these bytes to the new file of this name, flushes it and closes it. Fails with
/// NotWritten. After an error it is closed, too.
fn write_new_file<F: FileSystem>(
    files: &mut F,
    beside: &str,
    mut file: F::Created,
    bytes: &[u8],
) -> Result<(), SaveError>
    ensures filled { OnOk result (IsWrittenFile beside.now bytes.now (F.Created.trace file)
        (F.steps files.old) (F.steps files.new)) }
    ensures not_filled { IfErr result (λ _. IsNotWrittenFile beside.now bytes.now
        (F.Created.trace file) (F.steps files.old) (F.steps files.new)) }
    ensures error { IfErr result (λ error. error ≡ NotWritten) }
{
    let written = write_and_flush(&mut file, bytes);
    let closed = files.close(beside, file);
    match (written, closed) {
        (Ok(()), Ok(())) => Ok(()),
        _ => Err(SaveError::NotWritten),
    }
}

/// Makes a new file beside the one of this name, with its permissions, and returns its name and the
/// file. Fails with NotWritten if none can be made, or with OutOfMemory.
fn create_beside<F: FileSystem>(
    alloc: Global,
    files: &mut F,
    name: &str,
) -> Result<(String, F::Created), SaveError>
    ensures made { IfOk result (λ made. IsMadeBeside (F.known files.old) name.now
        (string_bytes made.0) (F.Created.trace made.1) (F.steps files.old) (F.steps files.new)) }
    ensures failed { IfErr result (λ error. IsNotMade name.now error (F.steps files.old)
        (F.steps files.new)) }
{
    for number in 0..MOST_NAMES {
        let beside = name_beside(alloc, name, number)?;
        if beside.as_str() == name {
            continue;
        }
        match files.create(beside.as_str(), name) {
            Ok(file) => return Ok((beside, file)),
            Err(error) if error.kind() == ErrorKind::AlreadyExists => {}
            Err(_) => return Err(SaveError::NotWritten),
        }
    }
    Err(SaveError::NotWritten)
}

/// Returns the name of a new file with this number in the directory that has the file of this name.
pub fn name_beside(alloc: Global, name: &str, number: u32) -> Result<String, AllocError>
    ensures { IfOk result (λ beside. IsBeside name.now number (string_bytes beside)) }
{
    match name.rsplit_once('/') {
        Some((directory, _)) => format!(in alloc; "{directory}/.bootimg-{number}"),
        None => format!(in alloc; ".bootimg-{number}"),
    }
}

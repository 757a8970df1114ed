//! Files in memory, whose steps are recorded, and one of which can be made to fail.

ghost use Rattle.std.specs.Prelude.{◌≡◌, ◌↔◌, ◌∷◌, [], IsTrue, IsFalse, IfOk, None, Some};
ghost use Rattle.std.specs.Prelude.{IfErr, OnErr, OnOk};
ghost use Rattle.std.specs.IoError.{error_kind};
ghost use Rattle.std.specs.declared.io.ErrorKind.TheVariants.{OutOfMemory};
ghost use Rattle.std.specs.Prelude.{length, map};
ghost use Rattle.bi_files.specs.Files.{Entry, NameHas, TookSteps};
ghost use Rattle.bi_files.specs.FilesAfter.{AreRecorded, after_renaming, after_step, no_names};
ghost use Rattle.bi_files.specs.FilesAfter.{with_entry_at};
ghost use Rattle.bi_files.specs.MemoryFiles.{recorded_names, recorded_steps, recorded_step};
ghost use Rattle.bi_files.specs.MemoryFiles.{named_step, AreLookedUp, IsOccupant};

use crate::files::FileSystem;
use crate::new_file::NewFile;
use crate::opened_file::OpenedFile;
use bi_base::{ReadCalls, WriteCalls};
use std::alloc::{AllocError, Global};
use std::io::{self, ErrorKind};

/// A file that was open for reading: the bytes that its reader has left, and what is recorded of
/// the calls.
#[derive(Clone, Copy)]
pub struct ReadFile<'a> {
    remaining: &'a [u8],
    calls: ReadCalls,
}

/// A new file: the bytes that its writer holds, and what is recorded of the calls.
#[derive(Clone, Copy)]
pub struct WrittenFile<'a> {
    bytes: &'a [u8],
    calls: WriteCalls,
}

/// What was done with the file of a name, or was tried.
#[derive(Clone, Copy)]
pub enum StepKind<'a> {
    /// It was opened for reading, and has these bytes.
    Opened(&'a [u8]),
    /// It could not be opened for reading.
    NotOpened,
    /// Its reader was closed.
    ReaderClosed(ReadFile<'a>),
    /// It was made.
    Made(WrittenFile<'a>),
    /// It was not made, since something has the name.
    NameTaken,
    /// It was not made, for another reason.
    NotMade,
    /// The new file was closed.
    Closed(WrittenFile<'a>),
    /// Closing the new file failed.
    NotClosed(WrittenFile<'a>),
    /// It took this name.
    Renamed(&'a [u8]),
    /// It did not take this name.
    NotRenamed(&'a [u8]),
    /// It was removed.
    Removed,
    /// Removing it failed.
    NotRemoved,
    /// It was made, as a directory.
    DirectoryMade,
    /// It is a directory, and the new file of this name was made in it.
    MadeIn(&'a [u8], WrittenFile<'a>),
    /// The new file of this name was not made in it.
    NotMadeIn(&'a [u8]),
    /// The new file of this name in it was closed.
    ClosedIn(&'a [u8], WrittenFile<'a>),
    /// Closing the new file of this name in it failed.
    NotClosedIn(&'a [u8], WrittenFile<'a>),
    /// The directory took this name.
    DirectoryRenamed(&'a [u8]),
    /// The directory did not take this name.
    DirectoryNotRenamed(&'a [u8]),
    /// The file of this name was removed from it.
    RemovedIn(&'a [u8]),
    /// Removing the file of this name from it failed.
    NotRemovedIn(&'a [u8]),
    /// The directory was removed.
    DirectoryRemoved,
    /// Removing the directory failed.
    DirectoryNotRemoved,
}

/// A step with the file of a name.
#[derive(Clone, Copy)]
pub struct MemoryStep<'a> {
    name: &'a [u8],
    kind: StepKind<'a>,
}

/// What has a name.
#[derive(Clone, Copy)]
pub enum Occupant<'a> {
    /// Nothing has it.
    Nothing,
    /// A file with these bytes has it.
    File(&'a [u8]),
    /// A directory has it.
    Directory,
}

/// What a step says of what has a name after it.
#[derive(Clone, Copy)]
enum Lookup<'a> {
    /// This is what has the name.
    Has(Occupant<'a>),
    /// It had this name before.
    HadName(&'a [u8]),
    /// It had the same name before. If it is a directory, its files may have changed.
    HadSameName,
}

/// Files in memory: the steps that were taken, of which one can be made to fail. What has a name is
/// what the steps say of it.
#[derive(Drop)]
pub struct MemoryFiles<'a> {
    alloc: Global,
    /// The steps that are recorded, in their order.
    log: Vec<MemoryStep<'a>>,
    /// Whether memory ran out for a step, so that not all are recorded.
    is_lost: bool,
    /// The number of the step that fails, from 0, if it is one with a new file.
    failing: usize,
}

impl<'a> MemoryFiles<'a> {
    /// Returns files in memory, of which there are none so far. The step with this number fails, if
    /// it is one with a new file; steps are counted from 0.
    pub fn new(alloc: Global, failing: usize) -> MemoryFiles<'a>
        ensures no_files { ⟦<MemoryFiles<'a> as FileSystem>⟧.known result ≡ Some no_names }
        ensures no_steps { ⟦<MemoryFiles<'a> as FileSystem>⟧.steps result ≡ Some [] }
        ensures failing { result.failing ≡ failing }
    {
        MemoryFiles {
            alloc,
            log: Vec::new(alloc),
            is_lost: false,
            failing,
        }
    }

    /// Returns what has this name.
    pub fn find(&self, name: &[u8]) -> Occupant<'a>
        ensures { NameHas (⟦<MemoryFiles<'a> as FileSystem>⟧.known self.now) name.now
            (λ entry. IsOccupant entry result) }
    {
        let mut wanted = name;
        let mut left = self.log.len();
        while left > 0 {
            left -= 1;
            match look_up(self.log[left], wanted) {
                Lookup::Has(found) => return found,
                Lookup::HadName(other) => wanted = other,
                Lookup::HadSameName => {}
            }
        }
        Occupant::Nothing
    }

    /// Returns whether memory ran out for a step, so that not all are recorded.
    pub fn has_lost_steps(&self) -> bool
        ensures lost { IsTrue result → ⟦<MemoryFiles<'a> as FileSystem>⟧.steps self.now ≡ None }
        ensures not_lost { IsFalse result → AreRecorded
            (⟦<MemoryFiles<'a> as FileSystem>⟧.known self.now)
            (⟦<MemoryFiles<'a> as FileSystem>⟧.steps self.now) }
    {
        self.is_lost
    }

    /// Records a step with the file of this name, and returns whether there was memory for it.
    fn record(&mut self, name: &[u8], kind: StepKind<'a>) -> bool
        ensures steps { TookSteps (recorded_steps self.old.is_lost self.old.log.items)
            (recorded_steps self.new.is_lost self.new.log.items)
            (named_step name.now kind.entry ∷ []) }
        ensures recorded { IsTrue result → recorded_names self.new.log.items
            ≡ after_step (recorded_names self.old.log.items) (named_step name.now kind.entry) }
        ensures lost { IsFalse result → recorded_steps self.new.is_lost self.new.log.items ≡ None }
        ensures same_log { IsFalse result → self.new.log.items ≡ self.old.log.items }
    {
        match lasting_copy(self.alloc, name) {
            Ok(name) => match self.log.push(MemoryStep { name, kind }) {
                Ok(()) => true,
                Err(_) => self.lose(),
            },
            Err(_) => self.lose(),
        }
    }

    /// Records a step with the file of this name, as `record` does. Fails if there is no memory.
    fn note(&mut self, name: &[u8], kind: StepKind<'a>) -> io::Result<()>
        ensures steps { TookSteps (recorded_steps self.old.is_lost self.old.log.items)
            (recorded_steps self.new.is_lost self.new.log.items)
            (named_step name.now kind.entry ∷ []) }
        ensures lost { OnErr result
            (recorded_steps self.new.is_lost self.new.log.items ≡ None) }
        ensures same_log { OnErr result (self.new.log.items ≡ self.old.log.items) }
        ensures failed { IfErr result (λ error. error_kind error ≡ OutOfMemory) }
    {
        if self.record(name, kind) {
            Ok(())
        } else {
            Err(io::Error::from(ErrorKind::OutOfMemory))
        }
    }

    /// Returns a copy of a name for a step. Fails if there is no memory, and the step is lost.
    fn lasting_name(&mut self, name: &str) -> io::Result<&'a [u8]>
        ensures copy { IfOk result (λ copy. copy.now ≡ name.now) }
        ensures same { OnOk result (self.new ≡ self.old) }
        ensures lost { OnErr result
            (recorded_steps self.new.is_lost self.new.log.items ≡ None) }
        ensures same_log { OnErr result (self.new.log.items ≡ self.old.log.items) }
    {
        match lasting_copy(self.alloc, name.as_bytes()) {
            Ok(copy) => Ok(copy),
            Err(_) => {
                self.lose();
                Err(io::Error::from(ErrorKind::OutOfMemory))
            }
        }
    }

    /// Notes that a step is lost, and returns false.
    fn lose(&mut self) -> bool
        ensures is_false { IsFalse result }
        ensures lost { IsTrue self.new.is_lost }
        ensures same_log { self.new.log.items ≡ self.old.log.items }
    {
        self.is_lost = true;
        false
    }

    /// Returns whether the next step fails.
    fn fails(&self) -> bool
        ensures { IsTrue result ↔ (length self.now.log.items ≡ self.now.failing) }
    {
        self.log.len() == self.failing
    }
}

/// Returns a copy of these bytes that is never freed.
fn lasting_copy<'a>(alloc: Global, bytes: &[u8]) -> Result<&'a [u8], AllocError>
    ensures { IfOk result (λ copy. copy.now ≡ bytes.now) }
{
    let copy = Vec::from_slice(alloc, bytes)?;
    Ok(copy.leak())
}

/// Returns what this step says of the file of this name.
fn look_up<'a>(step: MemoryStep<'a>, name: &[u8]) -> Lookup<'a>
    ensures { AreLookedUp (λ names. after_step names (recorded_step step.entry)) name.now result }
{
    match step.kind {
        StepKind::Made(file) | StepKind::Closed(file) | StepKind::NotClosed(file) => look_up_at(
            step.name,
            Occupant::File(file.bytes),
            name,
        ),
        StepKind::DirectoryMade => look_up_at(step.name, Occupant::Directory, name),
        StepKind::Removed | StepKind::DirectoryRemoved => look_up_at(
            step.name,
            Occupant::Nothing,
            name,
        ),
        StepKind::Renamed(new_name) | StepKind::DirectoryRenamed(new_name) => look_up_renamed(
            step.name, new_name, name,
        ),
        _ => Lookup::HadSameName,
    }
}

/// Returns what is known of this name after this was found to have the name `changed`.
fn look_up_at<'a>(changed: &'a [u8], found: Occupant<'a>, name: &[u8]) -> Lookup<'a>
    ensures { (entry : Entry) → IsOccupant entry found.entry
        → AreLookedUp (λ names. with_entry_at names changed.now entry) name.now result }
{
    if name == changed {
        Lookup::Has(found)
    } else {
        Lookup::HadSameName
    }
}

/// Returns what is known of this name after a file was renamed.
fn look_up_renamed<'a>(old_name: &'a [u8], new_name: &'a [u8], name: &[u8]) -> Lookup<'a>
    ensures { AreLookedUp (λ names. after_renaming names old_name.now new_name.now) name.now
        result }
{
    if name == new_name {
        Lookup::HadName(old_name)
    } else if name == old_name {
        Lookup::Has(Occupant::Nothing)
    } else {
        Lookup::HadSameName
    }
}

impl<'a> FileSystem for MemoryFiles<'a> {
    type Opened = OpenedFile<&'a [u8]>;

    type Created = NewFile<Vec<u8>>;

    ghost known = { λ files. Some (recorded_names files.log.items) };

    ghost steps = { λ files. recorded_steps files.is_lost files.log.items };

    fn open(&mut self, name: &str) -> Option<OpenedFile<&'a [u8]>> {
        match self.find(name.as_bytes()) {
            Occupant::File(bytes) => {
                self.record(name.as_bytes(), StepKind::Opened(bytes));
                Some(OpenedFile::new(bytes))
            }
            Occupant::Nothing | Occupant::Directory => {
                self.record(name.as_bytes(), StepKind::NotOpened);
                None
            }
        }
    }

    fn close_reader(&mut self, name: &str, file: OpenedFile<&'a [u8]>) {
        let calls = file.calls();
        let remaining = file.into_reader();
        let file = ReadFile { remaining, calls };
        self.record(name.as_bytes(), StepKind::ReaderClosed(file));
    }

    fn can_replace(&self, name: &str) -> bool {
        !matches!(self.find(name.as_bytes()), Occupant::Directory)
    }

    fn create(&mut self, name: &str, _replaced: &str) -> io::Result<NewFile<Vec<u8>>> {
        if !self.is_unused(name) {
            self.record(name.as_bytes(), StepKind::NameTaken);
            return Err(io::Error::from(ErrorKind::AlreadyExists));
        }
        if self.fails() {
            self.record(name.as_bytes(), StepKind::NotMade);
            return Err(io::Error::from(ErrorKind::PermissionDenied));
        }
        let file = NewFile::new(Vec::new(self.alloc));
        let made = WrittenFile {
            bytes: &[],
            calls: file.calls(),
        };
        self.note(name.as_bytes(), StepKind::Made(made))?;
        Ok(file)
    }

    fn close(&mut self, name: &str, file: NewFile<Vec<u8>>) -> io::Result<()> {
        let calls = file.calls();
        let bytes = file.into_writer().leak();
        let written = WrittenFile { bytes, calls };
        if self.fails() {
            self.record(name.as_bytes(), StepKind::NotClosed(written));
            return Err(io::Error::from(ErrorKind::StorageFull));
        }
        self.note(name.as_bytes(), StepKind::Closed(written))
    }

    fn rename(&mut self, name: &str, new_name: &str) -> io::Result<()> {
        let new_name = self.lasting_name(new_name)?;
        if self.fails() {
            self.record(name.as_bytes(), StepKind::NotRenamed(new_name));
            return Err(io::Error::from(ErrorKind::PermissionDenied));
        }
        self.note(name.as_bytes(), StepKind::Renamed(new_name))
    }

    fn remove(&mut self, name: &str) -> io::Result<()> {
        if self.fails() {
            self.record(name.as_bytes(), StepKind::NotRemoved);
            return Err(io::Error::from(ErrorKind::PermissionDenied));
        }
        self.note(name.as_bytes(), StepKind::Removed)
    }

    fn is_unused(&self, name: &str) -> bool {
        matches!(self.find(name.as_bytes()), Occupant::Nothing)
    }

    fn make_directory(&mut self, name: &str) -> io::Result<()> {
        if !self.is_unused(name) {
            self.record(name.as_bytes(), StepKind::NameTaken);
            return Err(io::Error::from(ErrorKind::AlreadyExists));
        }
        if self.fails() {
            self.record(name.as_bytes(), StepKind::NotMade);
            return Err(io::Error::from(ErrorKind::PermissionDenied));
        }
        self.note(name.as_bytes(), StepKind::DirectoryMade)
    }

    fn create_in(&mut self, directory: &str, name: &str) -> io::Result<NewFile<Vec<u8>>> {
        let name = self.lasting_name(name)?;
        if self.fails() {
            self.record(directory.as_bytes(), StepKind::NotMadeIn(name));
            return Err(io::Error::from(ErrorKind::StorageFull));
        }
        let file = NewFile::new(Vec::new(self.alloc));
        let made = WrittenFile {
            bytes: &[],
            calls: file.calls(),
        };
        self.note(directory.as_bytes(), StepKind::MadeIn(name, made))?;
        Ok(file)
    }

    fn close_in(&mut self, directory: &str, name: &str, file: NewFile<Vec<u8>>) -> io::Result<()> {
        let name = self.lasting_name(name)?;
        let calls = file.calls();
        let bytes = file.into_writer().leak();
        let written = WrittenFile { bytes, calls };
        if self.fails() {
            self.record(directory.as_bytes(), StepKind::NotClosedIn(name, written));
            return Err(io::Error::from(ErrorKind::StorageFull));
        }
        self.note(directory.as_bytes(), StepKind::ClosedIn(name, written))
    }

    fn rename_directory(&mut self, name: &str, new_name: &str) -> io::Result<()> {
        let is_unused = self.is_unused(new_name);
        let new_name = self.lasting_name(new_name)?;
        if !is_unused || self.fails() {
            self.record(name.as_bytes(), StepKind::DirectoryNotRenamed(new_name));
            return Err(io::Error::from(ErrorKind::PermissionDenied));
        }
        self.note(name.as_bytes(), StepKind::DirectoryRenamed(new_name))
    }

    fn remove_in(&mut self, directory: &str, name: &str) -> io::Result<()> {
        let name = self.lasting_name(name)?;
        if self.fails() {
            self.record(directory.as_bytes(), StepKind::NotRemovedIn(name));
            return Err(io::Error::from(ErrorKind::PermissionDenied));
        }
        self.note(directory.as_bytes(), StepKind::RemovedIn(name))
    }

    fn remove_directory(&mut self, name: &str) -> io::Result<()> {
        if self.fails() {
            self.record(name.as_bytes(), StepKind::DirectoryNotRemoved);
            return Err(io::Error::from(ErrorKind::PermissionDenied));
        }
        self.note(name.as_bytes(), StepKind::DirectoryRemoved)
    }
}

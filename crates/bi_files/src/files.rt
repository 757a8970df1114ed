//! The files that the program opens by name, and those that it makes.

ghost use Rattle.std.specs.Prelude.{◌≡◌, ◌≢◌, ◌∷◌, [], Option, List, None, OnOk, OnErr};
ghost use Rattle.std.specs.Prelude.{IfOk, IfErr, IfSome, IfNone, IsTrue, IsFalse};
ghost use Rattle.std.specs.IoError.{error_kind};
ghost use Rattle.std.specs.declared.io.ErrorKind.TheVariants.{AlreadyExists};
ghost use Rattle.bi_files.specs.Files.{no_files, FileStep, NameHas, KnownFiles};
ghost use Rattle.bi_files.specs.Files.{IsNewFile, IsNoFile, IsNoRegularFile, IsOpenFile};
ghost use Rattle.bi_files.specs.Files.{MayBeReplaced, MayNotBeReplaced, TookSteps};
ghost use Rattle.bi_files.specs.Files.{Opened, NotOpened, ReaderClosed};
ghost use Rattle.bi_files.specs.Files.{Made, NameTaken, NotMade, Closed, NotClosed};
ghost use Rattle.bi_files.specs.Files.{Renamed, NotRenamed, Removed, NotRemoved};
ghost use Rattle.bi_files.specs.Files.{DirectoryMade, DirectoryRenamed, DirectoryNotRenamed};
ghost use Rattle.bi_files.specs.Files.{DirectoryRemoved, DirectoryNotRemoved, IsSomething};
ghost use Rattle.bi_files.specs.Files.{MadeIn, NotMadeIn, ClosedIn, NotClosedIn, RemovedIn};
ghost use Rattle.bi_files.specs.Files.{NotRemovedIn};

use crate::new_file::NewFile;
use crate::opened_file::OpenedFile;
use bi_base::{TracedRead, TracedWrite};
use std::alloc::{AllocError, Global};
use std::fs::{self, File, Files, OpenFile};
use std::io::{self, Empty, ErrorKind, Read, Write};

/// What opens files, and makes them.
pub trait FileSystem {
    /// A file that is open for reading, which records the outcome of each call.
    type Opened: TracedRead + Drop;

    /// A new file that is open for writing, which records the outcome of each call.
    type Created: TracedWrite + Drop;

    // What has each name, if it is known.
    ghost known: { Self → KnownFiles };

    // The steps with files so far, if they are known. Once they are not, they stay unknown.
    ghost steps: { Self → Option (List FileStep) };

    /// Opens the file of this name for reading. Returns None if it cannot be opened.
    fn open(&mut self, name: &str) -> Option<Self::Opened>
        ensures is_open { IfSome result (λ file. IsOpenFile (known self.old) name.now
            (Self.Opened.trace file)) }
        ensures is_no_file { IfNone result (NameHas (known self.old) name.now IsNoRegularFile) }
        ensures opened { IfSome result (λ file. TookSteps (steps self.old) (steps self.new)
            (Opened name.now (Self.Opened.trace file) ∷ [])) }
        ensures not_opened { IfNone result (TookSteps (steps self.old) (steps self.new)
            (NotOpened name.now ∷ [])) }
        ensures same_files { known self.new ≡ known self.old };

    /// Closes the file of this name, which was opened for reading.
    fn close_reader(&mut self, name: &str, file: Self::Opened)
        ensures closed { TookSteps (steps self.old) (steps self.new)
            (ReaderClosed name.now (Self.Opened.trace file) ∷ []) }
        ensures same_files { known self.new ≡ known self.old };

    /// Returns whether a new file may take this name: nothing has it, or a regular file does.
    fn can_replace(&self, name: &str) -> bool
        ensures can { IsTrue result → NameHas (known self.now) name.now MayBeReplaced }
        ensures cannot { IsFalse result → NameHas (known self.now) name.now MayNotBeReplaced };

    /// Makes a new file of this name for writing, which is to take the name `replaced`. If a file
    /// has that name, the new one has its permissions. Fails with the kind AlreadyExists if
    /// something has the name `name`.
    fn create(&mut self, name: &str, replaced: &str) -> io::Result<Self::Created>
        ensures is_new { IfOk result (λ file. IsNewFile (Self.Created.trace file)) }
        ensures is_unused { OnOk result (NameHas (known self.old) name.now IsNoFile) }
        ensures same_files { OnErr result (known self.new ≡ known self.old) }
        ensures made { IfOk result (λ file. TookSteps (steps self.old) (steps self.new)
            (Made name.now (Self.Created.trace file) ∷ [])) }
        ensures taken { IfErr result (λ error. error_kind error ≡ AlreadyExists
            → TookSteps (steps self.old) (steps self.new) (NameTaken name.now ∷ [])) }
        ensures not_made { IfErr result (λ error. error_kind error ≢ AlreadyExists
            → TookSteps (steps self.old) (steps self.new) (NotMade name.now ∷ [])) };

    /// Closes the new file of this name, once the storage has its bytes. After an error it is
    /// closed, too, but may not have the bytes that were written.
    fn close(&mut self, name: &str, file: Self::Created) -> io::Result<()>
        ensures closed { OnOk result (TookSteps (steps self.old) (steps self.new)
            (Closed name.now (Self.Created.trace file) ∷ [])) }
        ensures not_closed { OnErr result (TookSteps (steps self.old) (steps self.new)
            (NotClosed name.now (Self.Created.trace file) ∷ [])) };

    /// Renames a file, and replaces the file of the new name, if there is one. After an error each
    /// file has the name that it had.
    fn rename(&mut self, name: &str, new_name: &str) -> io::Result<()>
        ensures renamed { OnOk result (TookSteps (steps self.old) (steps self.new)
            (Renamed name.now new_name.now ∷ [])) }
        ensures not_renamed { OnErr result (TookSteps (steps self.old) (steps self.new)
            (NotRenamed name.now new_name.now ∷ [])) };

    /// Removes the file of this name. After an error the file may still be there.
    fn remove(&mut self, name: &str) -> io::Result<()>
        ensures removed { OnOk result (TookSteps (steps self.old) (steps self.new)
            (Removed name.now ∷ [])) }
        ensures not_removed { OnErr result (TookSteps (steps self.old) (steps self.new)
            (NotRemoved name.now ∷ [])) };

    /// Returns whether nothing has this name, not even a link that leads nowhere.
    fn is_unused(&self, name: &str) -> bool
        ensures unused { IsTrue result → NameHas (known self.now) name.now IsNoFile }
        ensures used { IsFalse result → NameHas (known self.now) name.now IsSomething };

    /// Makes a new directory of this name. Fails with the kind AlreadyExists if something has the
    /// name.
    fn make_directory(&mut self, name: &str) -> io::Result<()>
        ensures is_unused { OnOk result (NameHas (known self.old) name.now IsNoFile) }
        ensures same_files { OnErr result (known self.new ≡ known self.old) }
        ensures made { OnOk result (TookSteps (steps self.old) (steps self.new)
            (DirectoryMade name.now ∷ [])) }
        ensures taken { IfErr result (λ error. error_kind error ≡ AlreadyExists
            → TookSteps (steps self.old) (steps self.new) (NameTaken name.now ∷ [])) }
        ensures not_made { IfErr result (λ error. error_kind error ≢ AlreadyExists
            → TookSteps (steps self.old) (steps self.new) (NotMade name.now ∷ [])) };

    /// Makes a new file of this name in this directory, for writing. Fails if the directory has
    /// something of the name.
    fn create_in(&mut self, directory: &str, name: &str) -> io::Result<Self::Created>
        ensures is_new { IfOk result (λ file. IsNewFile (Self.Created.trace file)) }
        ensures made { IfOk result (λ file. TookSteps (steps self.old) (steps self.new)
            (MadeIn directory.now name.now (Self.Created.trace file) ∷ [])) }
        ensures not_made { OnErr result (TookSteps (steps self.old) (steps self.new)
            (NotMadeIn directory.now name.now ∷ [])) };

    /// Closes the new file of this name in this directory, as `close` does.
    fn close_in(&mut self, directory: &str, name: &str, file: Self::Created) -> io::Result<()>
        ensures closed { OnOk result (TookSteps (steps self.old) (steps self.new)
            (ClosedIn directory.now name.now (Self.Created.trace file) ∷ [])) }
        ensures not_closed { OnErr result (TookSteps (steps self.old) (steps self.new)
            (NotClosedIn directory.now name.now (Self.Created.trace file) ∷ [])) };

    /// Renames a directory. Fails if something has the new name. After an error each file has the
    /// name that it had.
    fn rename_directory(&mut self, name: &str, new_name: &str) -> io::Result<()>
        ensures is_unused { OnOk result (NameHas (known self.old) new_name.now IsNoFile) }
        ensures renamed { OnOk result (TookSteps (steps self.old) (steps self.new)
            (DirectoryRenamed name.now new_name.now ∷ [])) }
        ensures not_renamed { OnErr result (TookSteps (steps self.old) (steps self.new)
            (DirectoryNotRenamed name.now new_name.now ∷ [])) };

    /// Removes the file of this name from this directory. After an error it may still be there.
    fn remove_in(&mut self, directory: &str, name: &str) -> io::Result<()>
        ensures removed { OnOk result (TookSteps (steps self.old) (steps self.new)
            (RemovedIn directory.now name.now ∷ [])) }
        ensures not_removed { OnErr result (TookSteps (steps self.old) (steps self.new)
            (NotRemovedIn directory.now name.now ∷ [])) };

    /// Removes the directory of this name. After an error it may still be there.
    fn remove_directory(&mut self, name: &str) -> io::Result<()>
        ensures removed { OnOk result (TookSteps (steps self.old) (steps self.new)
            (DirectoryRemoved name.now ∷ [])) }
        ensures not_removed { OnErr result (TookSteps (steps self.old) (steps self.new)
            (DirectoryNotRemoved name.now ∷ [])) };
}

/// No files: none can be opened, and none can be made.
#[derive(Clone, Copy)]
pub struct NoFiles;

impl FileSystem for NoFiles {
    type Opened = OpenedFile<Empty>;

    type Created = NewFile<Vec<u8>>;

    ghost known = { λ _. no_files };

    ghost steps = { λ _. None };

    fn open(&mut self, _name: &str) -> Option<OpenedFile<Empty>> {
        None
    }

    fn close_reader(&mut self, _name: &str, _file: OpenedFile<Empty>) {}

    fn can_replace(&self, _name: &str) -> bool {
        false
    }

    fn create(&mut self, _name: &str, _replaced: &str) -> io::Result<NewFile<Vec<u8>>> {
        Err(io::Error::from(ErrorKind::Unsupported))
    }

    fn close(&mut self, _name: &str, _file: NewFile<Vec<u8>>) -> io::Result<()> {
        Err(io::Error::from(ErrorKind::Unsupported))
    }

    fn rename(&mut self, _name: &str, _new_name: &str) -> io::Result<()> {
        Err(io::Error::from(ErrorKind::Unsupported))
    }

    fn remove(&mut self, _name: &str) -> io::Result<()> {
        Err(io::Error::from(ErrorKind::Unsupported))
    }

    fn is_unused(&self, _name: &str) -> bool {
        false
    }

    fn make_directory(&mut self, _name: &str) -> io::Result<()> {
        Err(io::Error::from(ErrorKind::Unsupported))
    }

    fn create_in(&mut self, _directory: &str, _name: &str) -> io::Result<NewFile<Vec<u8>>> {
        Err(io::Error::from(ErrorKind::Unsupported))
    }

    fn close_in(
        &mut self,
        _directory: &str,
        _name: &str,
        _file: NewFile<Vec<u8>>,
    ) -> io::Result<()> {
        Err(io::Error::from(ErrorKind::Unsupported))
    }

    fn rename_directory(&mut self, _name: &str, _new_name: &str) -> io::Result<()> {
        Err(io::Error::from(ErrorKind::Unsupported))
    }

    fn remove_in(&mut self, _directory: &str, _name: &str) -> io::Result<()> {
        Err(io::Error::from(ErrorKind::Unsupported))
    }

    fn remove_directory(&mut self, _name: &str) -> io::Result<()> {
        Err(io::Error::from(ErrorKind::Unsupported))
    }
}

/// The files of the system. What they hold, and how they change, is not known to a proof.
#[derive(Drop)]
pub struct SystemFiles<'a, R> {
    /// The part of the runtime that opens files.
    pub runtime: &'a R,
    /// Where the names of files in directories are allocated.
    pub alloc: Global,
}

impl<'a, R: Files> FileSystem for SystemFiles<'a, R> {
    type Opened = OpenedFile<R::File>;

    type Created = NewFile<SystemFile<R::File>>;

    ghost known = { λ _. None };

    ghost steps = { λ _. None };

    fn open(&mut self, name: &str) -> Option<OpenedFile<R::File>> {
        match File::open(self.runtime, name) {
            Ok(file) => Some(OpenedFile::new(file)),
            Err(_) => None,
        }
    }

    // The system closes a file when it is dropped.
    fn close_reader(&mut self, _name: &str, _file: OpenedFile<R::File>) {}

    fn can_replace(&self, name: &str) -> bool {
        match fs::symlink_metadata(self.runtime, name) {
            Ok(metadata) => metadata.is_file(),
            Err(error) => error.kind() == ErrorKind::NotFound,
        }
    }

    fn create(&mut self, name: &str, replaced: &str) -> io::Result<NewFile<SystemFile<R::File>>> {
        let file = File::create_new(self.runtime, name)?;
        match copy_permissions(self.runtime, replaced, &file) {
            Ok(()) => Ok(NewFile::new(SystemFile { file })),
            Err(error) => {
                let _ = fs::remove_file(self.runtime, name);
                Err(error)
            }
        }
    }

    // The system closes a file when it is dropped, and reports no failure of that. A failure to
    // store what was written, as for a full quota, is reported here at the latest.
    fn close(&mut self, _name: &str, file: NewFile<SystemFile<R::File>>) -> io::Result<()> {
        file.writer().file.sync_all()
    }

    fn rename(&mut self, name: &str, new_name: &str) -> io::Result<()> {
        fs::rename(self.runtime, name, new_name)
    }

    fn remove(&mut self, name: &str) -> io::Result<()> {
        fs::remove_file(self.runtime, name)
    }

    // The empty name is never used, but nothing can have it.
    fn is_unused(&self, name: &str) -> bool {
        match fs::symlink_metadata(self.runtime, name) {
            Ok(_) => false,
            Err(error) => !name.is_empty() && error.kind() == ErrorKind::NotFound,
        }
    }

    fn make_directory(&mut self, name: &str) -> io::Result<()> {
        fs::create_dir(self.runtime, name)
    }

    fn create_in(
        &mut self,
        directory: &str,
        name: &str,
    ) -> io::Result<NewFile<SystemFile<R::File>>> {
        let path = path_in(self.alloc, directory, name)?;
        let file = File::create_new(self.runtime, path.as_str())?;
        Ok(NewFile::new(SystemFile { file }))
    }

    fn close_in(
        &mut self,
        _directory: &str,
        name: &str,
        file: NewFile<SystemFile<R::File>>,
    ) -> io::Result<()> {
        self.close(name, file)
    }

    // The system would replace an empty directory of the new name. So an own one is made first,
    // which fails if something has the name, and this one is replaced.
    fn rename_directory(&mut self, name: &str, new_name: &str) -> io::Result<()> {
        fs::create_dir(self.runtime, new_name)?;
        match fs::rename(self.runtime, name, new_name) {
            Ok(()) => Ok(()),
            Err(error) => {
                let _ = fs::remove_dir(self.runtime, new_name);
                Err(error)
            }
        }
    }

    fn remove_in(&mut self, directory: &str, name: &str) -> io::Result<()> {
        let path = path_in(self.alloc, directory, name)?;
        fs::remove_file(self.runtime, path.as_str())
    }

    fn remove_directory(&mut self, name: &str) -> io::Result<()> {
        fs::remove_dir(self.runtime, name)
    }
}

/// Returns the path of the file of this name in this directory. Fails if memory runs out.
fn path_in(alloc: Global, directory: &str, name: &str) -> Result<String, AllocError> {
    format!(in alloc; "{directory}/{name}")
}

/// Gives a new file the permissions of the file of this name, if there is one.
fn copy_permissions<R: Files>(runtime: &R, name: &str, file: &R::File) -> io::Result<()> {
    let wanted = match fs::symlink_metadata(runtime, name) {
        Ok(metadata) => metadata.permissions(),
        Err(_) => return Ok(()),
    };
    if file.metadata()?.permissions() == wanted {
        return Ok(());
    }
    file.set_permissions(wanted)
}

/// A new file of the system. What it holds is not known to a proof.
#[derive(Drop)]
pub struct SystemFile<W> {
    file: W,
}

impl<W: Write> Write for SystemFile<W> {
    fn write(&mut self, bytes: &[u8]) -> io::Result<usize> {
        self.file.write(bytes)
    }

    fn flush(&mut self) -> io::Result<()> {
        self.file.flush()
    }
}

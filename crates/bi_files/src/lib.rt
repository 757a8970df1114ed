//! The files that the program opens by name, and those that it makes: over the files of the system,
//! or over files in memory whose steps are known.
#![tactic(auto)]

mod directories;
mod files;
pub mod known_steps;
mod memory_files;
mod new_file;
mod opened_file;
mod saving;

pub use directories::{save_all, without_slashes};
pub use files::{FileSystem, NoFiles, SystemFiles};
pub use memory_files::{MemoryFiles, Occupant};
pub use new_file::NewFile;
pub use opened_file::OpenedFile;
pub use saving::{SaveError, save};

//! Readers and writers for tests, over memory. Each call follows a script, and the calls are
//! counted.
#![tactic(auto)]

mod reader;
mod script;
mod writer;

pub use reader::{EndlessReader, ScriptedReader};
pub use script::{Script, Turn};
pub use writer::ScriptedWriter;

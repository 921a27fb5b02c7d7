//! Bytes from outside and to outside: sources, sinks and folders with a count of their faults, and what takes
//! lines and pieces of a known length from a source.
#![tactic(auto)]

mod calls;
mod clean_folder;
mod clean_sink;
mod clean_source;
mod folder;
mod line;
mod memory_folder;
mod memory_sink;
mod memory_source;
mod put;
mod reader;
mod refusal;
mod sink;
mod source;
mod standard_input;
mod standard_output;
mod take;
mod working_folder;

pub use clean_folder::CleanFolder;
pub use clean_sink::CleanSink;
pub use clean_source::CleanSource;
pub use folder::Folder;
pub use line::TextLine;
pub use memory_folder::MemoryFolder;
pub use memory_sink::MemorySink;
pub use memory_source::MemorySource;
pub use put::put_all;
pub use reader::Reader;
pub use refusal::{Failed, FolderRefusal, TakeRefusal, WriteRefusal};
pub use sink::Sink;
pub use source::Source;
pub use standard_input::StandardInput;
pub use standard_output::StandardOutput;
pub use take::{take_exact, take_line};
pub use working_folder::WorkingFolder;

//! Files that are read and a sink that is written: the program's outside, as two traits.
//!
//! Model: files may tell their content, a finite map from names to bytes, and keep a count of
//! faults for each name; a sink may tell what was written to it, and keeps one count. No count
//! falls.
//!
//! The contract above which the top call rests: a read or a write fails only where the count of
//! that name, or of the sink, rose in this call; a read gives the told bytes, and a failed write
//! added a prefix of its piece.
#![tactic(auto)]

mod failed;
mod files;
mod host;
mod memory_files;
mod memory_sink;
mod reading;
mod sink;
#[cfg(test)]
mod tests;
mod writing;

pub use failed::Failed;
pub use files::Files;
pub use host::{HostFiles, HostSink};
pub use memory_files::MemoryFiles;
pub use memory_sink::MemorySink;
pub use reading::{ReadFault, read_file};
pub use sink::Sink;
pub use writing::write_all;

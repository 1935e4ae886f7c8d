//! The outside world: where bytes come from, where they go, and files by name. Each is a trait that
//! counts its faults, so that a caller's contract can name the cause of a failure.
#![tactic(auto)]

mod calls;
mod disk_files;
mod faults;
mod mem_files;
mod mem_sink;
mod mem_source;
mod pieces;
mod std_sink;
mod std_source;
mod sure_files;
mod sure_sink;
mod sure_source;
#[cfg(test)]
mod testing;
mod traits;

pub use disk_files::DiskFiles;
pub use faults::{Failed, FileFault};
pub use mem_files::MemFiles;
pub use mem_sink::MemSink;
pub use mem_source::MemSource;
pub use std_sink::StdSink;
pub use std_source::StdSource;
pub use sure_files::SureFiles;
pub use sure_sink::SureSink;
pub use sure_source::SureSource;
pub use traits::{Files, Sink, Source};

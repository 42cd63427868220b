//! The outside as it really is: files of a directory, the standard streams and the system's clock.
#![tactic(auto)]

mod dir_shelf;
mod file_share;
mod gathered;
mod ledger;
mod placed;
mod shared_file;
mod std_sink;
mod std_source;
mod store_files;
mod system_clock;
mod tries;
mod window;

pub use dir_shelf::DirShelf;
pub use file_share::{FileShare, OpenStop};
pub use shared_file::SharedFile;
pub use std_sink::StdSink;
pub use std_source::StdSource;
pub use system_clock::SystemClock;

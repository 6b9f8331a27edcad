//! What the host reads and writes outside itself: a folder of files, a keeper of one text and a sink for its report.
#![tactic(auto)]

mod calls;
mod faults;
mod host;
mod memory;
mod quiet;
mod traits;

pub use host::{FILE_LIMIT, HostFolder, HostKeeper, HostSink, STORE_LIMIT};
pub use memory::{MemoryFolder, MemoryKeeper, MemorySink};
pub use quiet::{QuietFolder, QuietKeeper, QuietSink, is_folder};
pub use traits::{Folder, Keeper, Lost, NAME_LIMIT, Sink, write_all};

#[cfg(test)]
mod tests;

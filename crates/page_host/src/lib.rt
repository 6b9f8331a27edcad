//! The run of a page and its userscripts, from the words of the command line to the bytes of the report.
#![tactic(auto)]

mod address;
mod faults;
mod folder;
mod host;
mod load;
mod names;
mod report_text;
mod run;
mod scripts;
mod words;

pub use faults::{HostFault, fault_line};
pub use host::{Ended, host_run};
pub use page_text::{PageFault, PageKind};

#[cfg(test)]
mod play_tests;
#[cfg(test)]
mod tests;

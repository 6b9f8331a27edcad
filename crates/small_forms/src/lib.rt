//! The forms of pages and scripts that are read until the page grammar and the language are built.
#![tactic(auto)]

mod ascii;
mod bytes;
mod limits;
mod lines;
mod page;
mod script;
mod sums;
#[cfg(test)]
mod tests;
mod userscript;

pub use ascii::text_of;
pub use bytes::{Class, after, are_all, are_runs, before, front, number_in};
pub use limits::{ADDED_LIMIT, PAGE_SCRIPT_LIMIT, SCRIPT_LIMIT, SMALL_PAGE_LIMIT};
pub use page::{
    Page, PageScript, PageScripts, page_in, page_scripts_are_ascii, page_scripts_are_read_one_way,
    pages_are_ascii, pages_are_read_one_way,
};
pub use script::{Line, Lines, Part, Parts, Sum};
pub use userscript::{
    ScriptFile, Userscript, userscript_in, userscripts_are_ascii, userscripts_are_read_one_way,
};

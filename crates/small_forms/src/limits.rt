//! The limits of the small forms, which are this project's own. They have one home, so that code, definitions and
//! documents cite one number each.

/// Bytes of a userscript.
pub const SCRIPT_LIMIT: usize = 1_024;

/// Bytes of a page.
pub const SMALL_PAGE_LIMIT: usize = 65_536;

/// Script elements of a page.
pub const PAGE_SCRIPT_LIMIT: usize = 4;

/// Parts of a sum after its first.
pub const ADDED_LIMIT: usize = 7;

//! The limits of a run, which are this project's own. They have one home, so that code, definitions and documents
//! cite one number each. The limits of texts and numbers are those of `base_text`, the limits of syntax those of
//! `js_syntax`.

/// Units of fuel of one entry.
pub const FUEL_LIMIT: u32 = 200_000;

/// Levels of unfinished calls of one actor.
pub const LEVEL_LIMIT: u32 = 480;

/// Dispatches of one actor in one turn.
pub const DISPATCH_LIMIT: u32 = 64;

/// Dispatches of one actor that are unfinished at once.
pub const NESTED_DISPATCH_LIMIT: u32 = 4;

/// Cells of one actor: its proper cells, scopes, and the things and objects of others that it has met.
pub const CELL_LIMIT: u32 = 1_000_000;

/// Nodes of one maker.
pub const NODE_LIMIT: u32 = 100_000;

/// Steps of a node below the root of its tree.
pub const DEPTH_LIMIT: u32 = 256;

/// Listeners of one actor.
pub const LISTENER_LIMIT: u32 = 10_000;

/// Waiting timers of one actor.
pub const TIMER_LIMIT: u32 = 1_000;

/// Userscripts of a run.
pub const USERSCRIPT_LIMIT: usize = 8;

/// Turns of a run.
pub const TASK_LIMIT: u32 = 20_000;

/// Marks of a journal.
pub const MARK_LIMIT: u32 = 4_000_000;

/// Bytes of the page.
pub const PAGE_LIMIT: usize = 4_194_304;

/// Bytes of an address.
pub const ADDRESS_LIMIT: usize = 8_192;

//! Values that leave the sandbox (MDN, `Components.utils`): what is said of one that can't.

/// This project's own: the most scalars of the path to it.
pub const PATH_LIMIT: usize = 200;

//! What userscripts keep from run to run (Greasemonkey manual, GM_setValue), as plain values, so that the definitions
//! and the code speak of one type.

use base_text::Text;

/// This project's own: the most values of one script.
pub const VALUE_LIMIT: usize = 1_000;

/// A value that is kept.
#[derive(Clone, Debug, Drop, PartialEq, Eq)]
pub enum Kept {
    Str(Text),
    Bool(bool),
    Number(i64),
}

/// Whose values they are: a script's namespace and name.
#[derive(Clone, Debug, Drop, PartialEq, Eq)]
pub struct Owner {
    pub namespace: Text,
    pub name: Text,
}

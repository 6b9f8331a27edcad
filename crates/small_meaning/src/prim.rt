//! The primitive values of the scripts that are read.

use base_text::Text;

/// What a part or a sum is evaluated to.
#[derive(Debug, Drop)]
pub enum Prim {
    /// A whole number.
    Number(u32),
    /// A text.
    Str(Text),
}

//! Texts of bytes that are known to be ASCII.

ghost use Rattle.base_text.specs.declared.text.TheConstants.{SOURCE_LIMIT, TEXT_LIMIT};
ghost use Rattle.std.specs.Prelude.{◌≡◌, ◌≤◌, length, IfOk, IsTrue};
ghost use Rattle.std.specs.List.{list_all};
ghost use Rattle.std.specs.Char.{is_ascii};

use base_text::{Mem, NoMemory, Text, TextFault};
use std::alloc::Global;
use std::str;

/// The text of bytes of ASCII.
pub fn text_of(alloc: Global, bytes: &[u8]) -> Mem<Text>
    requires short { length bytes.now ≤ TEXT_LIMIT }
    requires ascii { IsTrue (list_all is_ascii bytes.now) }
    ensures { IfOk result (λ t. t ≡ bytes.now) }
{
    match str::from_utf8(bytes) {
        Ok(s) => match Text::of(alloc, s) {
            Ok(text) => Ok(text),
            Err(TextFault::NoMemory) => Err(NoMemory),
            Err(TextFault::TooLong) => unreachable!(),
        },
        Err(_) => unreachable!(),
    }
}

/// The text of bytes of ASCII that are a script, or a part of one.
pub fn source_of(alloc: Global, bytes: &[u8]) -> Mem<Text>
    requires short { length bytes.now ≤ SOURCE_LIMIT }
    requires ascii { IsTrue (list_all is_ascii bytes.now) }
    ensures { IfOk result (λ t. t ≡ bytes.now) }
{
    match str::from_utf8(bytes) {
        Ok(s) => match Text::source(alloc, s) {
            Ok(text) => Ok(text),
            Err(TextFault::NoMemory) => Err(NoMemory),
            Err(TextFault::TooLong) => unreachable!(),
        },
        Err(_) => unreachable!(),
    }
}

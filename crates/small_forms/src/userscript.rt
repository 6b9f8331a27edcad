//! The form of userscript that is read until the metadata block and the language are built.

ghost use Rattle.small_forms.specs.Bytes.{IsRun};
ghost use Rattle.small_forms.specs.Scripts.{IsUserscript, block_end, block_start};
ghost use Rattle.small_forms.specs.declared.bytes.Class.TheVariants.{Alphanumeric};
ghost use Rattle.small_forms.specs.declared.script.Line.{Line};
ghost use Rattle.std.specs.Prelude.{◌≡◌, ◌≢◌, ◌≤◌, ◌++◌, List, ℕ, length, IfNone, IfOk, IfSome, IsTrue};
ghost use Rattle.std.specs.List.{list_all};
ghost use Rattle.std.specs.Char.{is_ascii};

use crate::ascii::{source_of, text_of};
use crate::bytes::{Class, after, front};
use crate::limits::SCRIPT_LIMIT;
use crate::lines::userscript_lines_in;
use crate::script::Lines;
use base_text::{Mem, Text};
use std::alloc::Global;

/// A userscript of the form that is read.
#[derive(Debug, Drop)]
pub struct Userscript {
    /// What its metadata block says as `@name`.
    pub name: Text,
    /// The whole text of its file.
    pub text: Text,
    /// The lines that the text is read as.
    pub lines: Lines,
}

/// A userscript with the name of its file.
#[derive(Debug, Drop)]
pub struct ScriptFile {
    pub file: String,
    pub script: Userscript,
}

/// The userscript of a file's bytes. `None` exactly where they aren't of the form that is read yet.
pub fn userscript_in(alloc: Global, bytes: &[u8]) -> Mem<Option<Userscript>>
    ensures some { IfOk result (λ found. IfSome found (λ script. (script.text ≡ bytes.now) × IsUserscript bytes.now script.name script.lines)) }
    ensures none { IfOk result (λ found. IfNone found ((name : List ℕ) (lines : List Line) → IsUserscript bytes.now name lines → ⊥)) }
    ensures ascii { IfOk result (λ found. IfSome found (λ script. IsTrue (list_all is_ascii script.name) × IsTrue (list_all is_ascii script.text))) }
{
    let Some((name, lines)) = read(alloc, bytes)? else {
        return Ok(None);
    };
    let name = text_of(alloc, name)?;
    let text = source_of(alloc, bytes)?;
    Ok(Some(Userscript { name, text, lines }))
}

/// The name and the lines of a userscript.
fn read(alloc: Global, bytes: &[u8]) -> Mem<Option<(&[u8], Lines)>>
    ensures some { IfOk result (λ found. IfSome found (λ p. IsUserscript bytes.now p.0.now p.1)) }
    ensures none { IfOk result (λ found. IfNone found ((name : List ℕ) (lines : List Line) → IsUserscript bytes.now name lines → ⊥)) }
{
    if bytes.len() > SCRIPT_LIMIT {
        return Ok(None);
    }
    let Some((name, body)) = after_block(bytes) else {
        return Ok(None);
    };
    let Some(lines) = userscript_lines_in(alloc, body)? else {
        return Ok(None);
    };
    Ok(Some((name, lines)))
}

/// The name in the metadata block, and what follows the block.
fn after_block(bytes: &[u8]) -> Option<(&[u8], &[u8])>
    ensures some { IfSome result (λ p. IsRun Alphanumeric p.0.now × (bytes.now ≡ block_start ++ (p.0.now ++ (block_end ++ p.1.now)))) }
    ensures none { IfNone result ((name rest : List ℕ) → IsRun Alphanumeric name → bytes.now ≢ block_start ++ (name ++ (block_end ++ rest))) }
{
    let Some(named) = after(bytes, b"// ==UserScript==\n// @name ") else {
        return None;
    };
    let (name, rest) = front(named, Class::Alphanumeric);
    if name.is_empty() {
        return None;
    }
    let Some(body) = after(rest, b"\n// @grant GM_log\n// ==/UserScript==\n") else {
        return None;
    };
    Some((name, body))
}

/// A law: the text of a userscript determines its name and its lines.
pub fn userscripts_are_read_one_way()
    ensures { (text name other : List ℕ) (lines more : List Line) → IsUserscript text name lines → IsUserscript text other more → (name ≡ other) × (lines ≡ more) }
{}

/// A law: a userscript and its name are ASCII, and each of its lines has a character at least.
pub fn userscripts_are_ascii()
    ensures text { (text name : List ℕ) (lines : List Line) → IsUserscript text name lines → IsTrue (list_all is_ascii text) }
    ensures name { (text name : List ℕ) (lines : List Line) → IsUserscript text name lines → IsTrue (list_all is_ascii name) }
    ensures lines { (text name : List ℕ) (lines : List Line) → IsUserscript text name lines → length lines ≤ length text }
{}

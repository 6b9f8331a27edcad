//! What is read of a text: the script printed, or the first fault and its place.
ghost use Rattle.std.specs.Prelude.{◌≤◌, length};
ghost use Rattle.base_text.specs.declared.text.TheConstants.{SOURCE_LIMIT};

use crate::print::stmt;
use base_text::{NoMemory, OrMemory, SOURCE_LIMIT};
use js_lexer::lex;
use js_parser::{parse, tokens_of_a_text_end_well};
use js_syntax::{ParseFault, Script};
use std::alloc::Global;
use std::string::String;
use std::test::Fail;

/// How many calls deep a tree is printed.
const DEEP: u32 = 10_000;

/// What is read of the text; none where it has no tokens.
pub fn read(alloc: Global, text: &str) -> Result<Option<Result<Script, ParseFault>>, Fail>
    requires { length text.now ≤ SOURCE_LIMIT }
{
    let tokens = match lex(alloc, text) {
        Ok(tokens) => tokens,
        Err(OrMemory::Fault(_)) => return Ok(None),
        Err(OrMemory::NoMemory) => return Err(Fail::from(NoMemory)),
    };
    tokens_of_a_text_end_well();
    match parse(alloc, tokens.as_slice()) {
        Ok(script) => Ok(Some(Ok(script))),
        Err(OrMemory::Fault(fault)) => Ok(Some(Err(fault))),
        Err(OrMemory::NoMemory) => Err(Fail::from(NoMemory)),
    }
}

fn printed(alloc: Global, script: &Script) -> Result<String, Fail> {
    let mut out = String::new(alloc);
    for item in script.body.as_slice() {
        if !out.is_empty() {
            out.push(' ')?;
        }
        stmt(alloc, &mut out, item, DEEP)?;
    }
    Ok(out)
}

/// What is read of the text, as a text.
pub fn told(alloc: Global, text: &str) -> Result<String, Fail>
    requires { length text.now ≤ SOURCE_LIMIT }
{
    match read(alloc, text)? {
        None => Ok(String::from_str(alloc, "no tokens")?),
        Some(Ok(script)) => printed(alloc, &script),
        Some(Err(ParseFault { at, kind })) => Ok(format!(in alloc; "{kind:?} {at}")?),
    }
}

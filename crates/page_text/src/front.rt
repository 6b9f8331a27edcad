//! What stands at the front of the text that is left.

ghost use Rattle.std.specs.Prelude.{◌≡◌, ◌&&◌, codes, drop, false};
ghost use Rattle.page_text.specs.Bytes as bytes_spec;
ghost use Rattle.page_text.specs.StepsModel as spec;
ghost use Rattle.page_text.specs.TagsModel as tags_spec;
ghost use Rattle.page_text.specs.ValuesModel.{spells};

use crate::scan::{begins_letter, opens};
use crate::tags::is_empty;
use crate::values::after;

/// What stands at the front of a text, and what follows its mark.
#[derive(Clone, Copy)]
pub(crate) enum Front<'a> {
    End,
    Text,
    /// What follows `<!--`.
    Comment(&'a str),
    Doctype,
    /// What follows `<`.
    StartTag(&'a str),
    EndTag,
    /// `</` or `<!` that begins nothing.
    Bad,
}

pub(crate) fn front_of(text: &str) -> Front<'_>
    ensures { spec.FrontIs text.now result }
{
    if is_empty(text) {
        return Front::End;
    }
    if let Some(inside) = after(text, "<!--") {
        return Front::Comment(inside);
    }
    if opens(b"<!doctype", text.as_bytes()) {
        return Front::Doctype;
    }
    match after(text, "<") {
        Some(inside) if begins_letter(inside.as_bytes()) => Front::StartTag(inside),
        _ => front_of_slash(text),
    }
}

/// The same, where the text begins with none of these.
fn front_of_slash(text: &str) -> Front<'_>
    requires some { tags_spec.is_empty text.now ≡ false }
    requires comment { spells (codes "<!--") text.now ≡ false }
    requires doctype { bytes_spec.opens (codes "<!doctype") text.now ≡ false }
    requires start_tag { (bytes_spec.sees 60 text.now && bytes_spec.begins bytes_spec.is_letter (drop 1 text.now)) ≡ false }
    ensures { spec.FrontIs text.now result }
{
    match after(text, "</") {
        Some(inside) if begins_letter(inside.as_bytes()) => return Front::EndTag,
        Some(_) => return Front::Bad,
        None => {}
    }
    match after(text, "<!") {
        Some(_) => Front::Bad,
        None => Front::Text,
    }
}

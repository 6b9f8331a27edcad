//! Finding the first place of some kind in a text.

ghost use Rattle.std.specs.Prelude.{◌≡◌, ◌<◌, ◌≤◌, ◌==◌, ◌+◌, IfNone, IfSome, MatchOption, List, ℕ, Bool, false, ◌∷◌, drop, length, take};
ghost use Rattle.std.specs.Str.{IsUtf8};
ghost use Rattle.page_text.specs.Bytes as bytes_spec;
ghost use Rattle.dom_semantics.specs.Whitespace.{is_white_space};
ghost use Rattle.page_text.specs.ScansModel.{IsAsciiStop, before, from, stops, is_raw_end, is_end_of, is_markup, is_markup_byte, ends_raw_name, raw_name};

/// An element whose content is read as one text, up to its end tag.
#[derive(Clone, Copy, Debug, PartialEq, Eq)]
pub(crate) enum Raw {
    Script,
    Style,
    Title,
    Textarea,
}

/// A kind of places in a text.
#[derive(Clone, Copy)]
pub(crate) enum Stop {
    /// Where no white space stands.
    AfterSpace,
    /// Where no byte of a tag's name stands.
    AfterName,
    /// Where no byte of an attribute's name stands.
    AfterAttribute,
    /// Where a value without quotes ends.
    AfterUnquoted,
    /// At this ASCII byte.
    AtByte(u8),
    /// At `-->`.
    AtCommentEnd,
    /// At a `<` that isn't text.
    AtMarkup,
    /// At the end tag of such an element.
    AtEndOf(Raw),
}

pub(crate) fn is_white_space(b: u8) -> bool
    ensures { result ≡ is_white_space b }
{
    matches!(b, b' ' | b'\n' | b'\t' | b'\r' | 12)
}

pub(crate) fn is_letter(b: u8) -> bool
    ensures { result ≡ bytes_spec.is_letter b }
{
    (b'a' <= b && b <= b'z') || (b'A' <= b && b <= b'Z')
}

fn is_name_byte(b: u8) -> bool
    ensures { result ≡ bytes_spec.is_name_byte b }
{
    is_letter(b) || (b'0' <= b && b <= b'9') || b == b'-' || b == b':'
}

pub(crate) fn is_attribute_byte(b: u8) -> bool
    ensures { result ≡ bytes_spec.is_attribute_byte b }
{
    !(is_white_space(b) || matches!(b, b'"' | b'\'' | b'>' | b'/' | b'=' | b'<'))
}

/// Whether the text begins with a word of lower-case letters, its letters in any case.
pub(crate) fn opens(word: &[u8], text: &[u8]) -> bool
    ensures { result ≡ bytes_spec.opens word.now text.now }
{
    for (i, w) in word.iter().enumerate() {
        if i == text.len() {
            return false;
        }
        if text[i].to_ascii_lowercase() != *w {
            return false;
        }
    }
    true
}

impl Raw {
    pub(crate) fn name(self) -> &'static [u8]
        ensures { result.now ≡ raw_name self }
    {
        match self {
            Raw::Script => b"script",
            Raw::Style => b"style",
            Raw::Title => b"title",
            Raw::Textarea => b"textarea",
        }
    }
}

impl Stop {
    /// Whether the text begins at such a place.
    fn holds(self, text: &[u8]) -> bool
        ensures { result ≡ stops self text.now }
    {
        match self {
            Stop::AfterSpace => !begins_space(text),
            Stop::AfterName => !begins_name(text),
            Stop::AfterAttribute => !begins_attribute(text),
            Stop::AfterUnquoted => ends_unquoted(text),
            Stop::AtByte(b) => sees(b, text),
            Stop::AtCommentEnd => opens(b"-->", text),
            Stop::AtMarkup => begins_markup(text),
            Stop::AtEndOf(raw) => ends_raw(raw, text),
        }
    }
}

pub(crate) fn begins_space(text: &[u8]) -> bool
    ensures { result ≡ bytes_spec.begins is_white_space text.now }
{
    match text {
        [] => false,
        [b, ..] => is_white_space(*b),
    }
}

fn begins_name(text: &[u8]) -> bool
    ensures { result ≡ bytes_spec.begins bytes_spec.is_name_byte text.now }
{
    match text {
        [] => false,
        [b, ..] => is_name_byte(*b),
    }
}

pub(crate) fn begins_attribute(text: &[u8]) -> bool
    ensures { result ≡ bytes_spec.begins bytes_spec.is_attribute_byte text.now }
{
    match text {
        [] => false,
        [b, ..] => is_attribute_byte(*b),
    }
}

pub(crate) fn begins_letter(text: &[u8]) -> bool
    ensures { result ≡ bytes_spec.begins bytes_spec.is_letter text.now }
{
    match text {
        [] => false,
        [b, ..] => is_letter(*b),
    }
}

fn ends_unquoted(text: &[u8]) -> bool
    ensures { result ≡ stops Stop.AfterUnquoted text.now }
{
    match text {
        [] => false,
        [b, ..] => is_white_space(*b) || *b == b'>',
    }
}

/// Whether the text begins with this byte.
pub(crate) fn sees(byte: u8, text: &[u8]) -> bool
    ensures { result ≡ bytes_spec.sees byte text.now }
{
    match text {
        [] => false,
        [b, ..] => *b == byte,
    }
}

fn begins_markup(text: &[u8]) -> bool
    ensures { result ≡ is_markup text.now }
{
    match text {
        [b'<', b, ..] => is_letter(*b) || *b == b'/' || *b == b'!',
        _ => false,
    }
}

fn ends_raw(raw: Raw, text: &[u8]) -> bool
    ensures { result ≡ is_raw_end (raw_name raw) text.now }
{
    if !opens(b"</", text) {
        return false;
    }
    let (_, text) = text.split_at(2);
    ends_with(raw.name(), text)
}

fn ends_with(name: &[u8], text: &[u8]) -> bool
    ensures { result ≡ is_end_of name.now text.now }
{
    if !opens(name, text) {
        return false;
    }
    let (_, text) = text.split_at(name.len());
    ends_name(text)
}

fn ends_name(text: &[u8]) -> bool
    ensures { result ≡ bytes_spec.begins ends_raw_name text.now }
{
    match text {
        [] => false,
        [b, ..] => is_white_space(*b) || *b == b'/' || *b == b'>',
    }
}

/// The first place of this kind, or the text's end.
fn place(text: &[u8], stop: Stop) -> usize
    ensures within { result ≤ length text.now }
    ensures front { take result text.now ≡ before (stops stop) text.now }
    ensures back { drop result text.now ≡ from (stops stop) text.now }
{
    for i in 0..text.len() {
        let (_, rest) = text.split_at(i);
        if stop.holds(rest) {
            return i;
        }
    }
    text.len()
}

/// The text before the first place of this kind, and the text from there on.
pub(crate) fn scan(text: &str, stop: Stop) -> (&str, &str)
    requires { IsAsciiStop stop }
    ensures front { result.0.now ≡ before (stops stop) text.now }
    ensures back { result.1.now ≡ from (stops stop) text.now }
    ensures len { length result.0.now + length result.1.now ≡ length text.now }
    ensures utf8 { IsUtf8 result.1.now }
{
    text.split_at(place(text.as_bytes(), stop))
}

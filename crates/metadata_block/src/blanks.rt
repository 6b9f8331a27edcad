//! Texts cut at their blanks.
ghost use Rattle.std.specs.Prelude.{◌≡◌};
ghost use Rattle.metadata_block.specs.Blanks.{is_blank as blank};
ghost use Rattle.metadata_block.specs.BlanksModel.{skip_blanks as skipped, drop_blanks as dropped, until_blank, from_blank};

/// Whether a byte is a space or a tab.
pub(crate) fn is_blank(byte: u8) -> bool
    ensures { result ≡ blank byte }
{
    byte == b' ' || byte == b'\t'
}

/// The text without the blanks at its front.
pub(crate) fn skip_blanks(s: &str) -> &str
    ensures { result.now ≡ skipped s.now }
{
    let bytes = s.as_bytes();
    let mut n = 0;
    while n < bytes.len() && is_blank(bytes[n]) {
        n += 1;
    }
    &s[n..]
}

/// The text without the blanks at its end.
pub(crate) fn drop_blanks(s: &str) -> &str
    ensures { result.now ≡ dropped s.now }
{
    let bytes = s.as_bytes();
    let mut n = bytes.len();
    while n > 0 && is_blank(bytes[n - 1]) {
        n -= 1;
    }
    &s[..n]
}

/// The text up to its first blank, and from there on.
pub(crate) fn split_blank(s: &str) -> (&str, &str)
    ensures key { result.0.now ≡ until_blank s.now }
    ensures rest { result.1.now ≡ from_blank s.now }
{
    let bytes = s.as_bytes();
    let mut n = 0;
    while n < bytes.len() && !is_blank(bytes[n]) {
        n += 1;
    }
    (&s[..n], &s[n..])
}

//! Texts that many values share, so that to hand one on costs no memory.
ghost use Rattle.std.specs.Prelude.{◌≡◌, ◌+◌, ◌<◌, ◌≤◌, ◌↔◌, ◌++◌, length, refl, IsTrue, IfOk, IsErrOf, MatchOption, slice_get, slice_range, take, drop, encode_utf8_all};
ghost use Rattle.std.specs.Cmp.{on_total, partial_equiv_from_equiv};
ghost use Rattle.std.specs.Cmp.Lexicographic.{nat_list_eq_equiv, nat_list_cmp_total};
ghost use Rattle.std.specs.Fmt.{signed_decimal};
ghost use Rattle.std.specs.Str.{bytes_eq, chars, IsAscii};
ghost use Rattle.std.specs.String.{string_bytes};
ghost use Rattle.std.specs.declared.option.Option.TheVariants.{Some};
ghost use Rattle.base_text.specs.Scalars.{utf8_len, text_cmp, text_ties, text_order};
ghost use Rattle.base_text.specs.declared.text.TheConstants.{SOURCE_LIMIT};

use crate::memory::{Mem, NoMemory};
use std::alloc::{AllocError, Global};
use std::cmp::Ordering;
use std::fmt;
use std::marker::Model;
use std::rc::Rc;

/// The most bytes of UTF-8 that a text has, but for the whole text of a script.
pub const TEXT_LIMIT: usize = 262_144;

/// The most bytes of UTF-8 that the whole text of a script has.
pub const SOURCE_LIMIT: usize = 1_048_576;

/// Why a text isn't made.
#[derive(Clone, Copy, Debug, PartialEq, Eq)]
pub enum TextFault {
    /// It has more bytes of UTF-8 than the limit.
    TooLong,
    /// No memory was found.
    NoMemory,
}

impl From<AllocError> for TextFault {
    ghost use Rattle.std.specs.Prelude.{◌≡◌};
    ghost use Rattle.base_text.specs.declared.text.TextFault.TheVariants.{NoMemory};

    ghost from_gives = { λ _ e. e ≡ NoMemory };

    fn from(_error: AllocError) -> TextFault {
        TextFault::NoMemory
    }
}

impl From<NoMemory> for TextFault {
    ghost use Rattle.std.specs.Prelude.{◌≡◌};
    ghost use Rattle.base_text.specs.declared.text.TextFault.TheVariants.{NoMemory};

    ghost from_gives = { λ _ e. e ≡ NoMemory };

    fn from(_error: NoMemory) -> TextFault {
        TextFault::NoMemory
    }
}

/// What all holders of a text share.
#[derive(Drop)]
struct Content {
    text: String,
    count: u32,
    ghost counted: { count ≡ length (chars (string_bytes text)) },
    ghost within: { length (string_bytes text) ≤ SOURCE_LIMIT },
}

/// A shared text, which contracts see as the list of its scalars.
///
/// It knows how many scalars it has, so `count` takes constant time, and where it is ASCII `scalar`
/// and `cut` go straight to their places. A text has at most 262,144 bytes of UTF-8, but one that
/// [`Text::source`] made, or a part of such a text, may have 1,048,576.
#[derive(Drop)]
pub struct Text {
    shared: Rc<Content>,
}

impl Model for Text {
    ghost use Rattle.std.specs.Prelude.{List, ℕ};
    ghost use Rattle.std.specs.String.{string_bytes};
    ghost use Rattle.std.specs.Str.{chars};

    ghost Value = { List ℕ };

    ghost view = { λ t. chars (string_bytes t.shared.value.text) };
}

impl Text {
    /// The text of `s`.
    ///
    /// `TooLong` exactly where `s` has over 262,144 bytes.
    pub fn of(alloc: Global, s: &str) -> Result<Text, TextFault>
        ensures ok { IfOk result (λ t. encode_utf8_all t ≡ s.now) }
        ensures scalars { IfOk result (λ t. t ≡ chars s.now) }
        ensures too_long { IsErrOf result TextFault.TooLong ↔ (TEXT_LIMIT < length s.now) }
    {
        if s.len() > TEXT_LIMIT {
            return Err(TextFault::TooLong);
        }
        Ok(copied(alloc, s)?)
    }

    /// The text of `s`, the whole text of a script or what stands for one.
    ///
    /// `TooLong` exactly where `s` has over 1,048,576 bytes.
    pub fn source(alloc: Global, s: &str) -> Result<Text, TextFault>
        ensures ok { IfOk result (λ t. encode_utf8_all t ≡ s.now) }
        ensures scalars { IfOk result (λ t. t ≡ chars s.now) }
        ensures too_long { IsErrOf result TextFault.TooLong ↔ (SOURCE_LIMIT < length s.now) }
    {
        if s.len() > SOURCE_LIMIT {
            return Err(TextFault::TooLong);
        }
        Ok(copied(alloc, s)?)
    }

    /// The decimal digits of `n`, with `-` before them where it is below 0.
    pub fn decimal(alloc: Global, n: i64) -> Mem<Text>
        ensures { IfOk result (λ t. t ≡ signed_decimal n) }
    {
        let digits = digits_of(alloc, n)?;
        let count = digits.len() as u32;
        new_text(alloc, digits, count)
    }

    /// The text as a `str`, without a copy.
    pub fn as_str(&self) -> &str
        ensures bytes { result.now ≡ encode_utf8_all self.now }
        ensures scalars { chars result.now ≡ self.now }
        ensures limit { length result.now ≤ SOURCE_LIMIT }
    {
        self.shared.as_ref().text.as_str()
    }

    /// How many scalars it has.
    pub fn count(&self) -> u32
        ensures exact { result ≡ length self.now }
        ensures limit { result ≤ SOURCE_LIMIT }
    {
        self.shared.as_ref().count
    }

    /// Whether each scalar is one byte.
    fn is_ascii(&self) -> bool
        ensures { IsTrue result ↔ IsAscii (encode_utf8_all self.now) }
    {
        self.count() as usize == self.as_str().len()
    }

    /// The scalar at a place, counted in scalars from 0; `None` exactly where `at >= count`.
    pub fn scalar(&self, at: u32) -> Option<char>
        ensures value { result ≡ slice_get self.now at }
        ensures place { MatchOption result (length self.now ≤ at) (λ _. at < length self.now) }
    {
        if self.is_ascii() {
            byte_at(self.as_str(), at as usize)
        } else {
            scalar_at(self.as_str(), at as usize)
        }
    }

    /// The same text once more, which copies nothing.
    pub fn share(&self) -> Mem<Text>
        ensures { IfOk result (λ t. t ≡ self.now) }
    {
        Ok(self.clone()?)
    }

    /// This text and then `right`.
    ///
    /// `TooLong` exactly where both together have over 262,144 bytes.
    pub fn join(&self, alloc: Global, right: &Text) -> Result<Text, TextFault>
        ensures ok { IfOk result (λ t. t ≡ self.now ++ right.now) }
        ensures too_long { IsErrOf result TextFault.TooLong
            ↔ (TEXT_LIMIT < utf8_len self.now + utf8_len right.now) }
    {
        let count = self.count() + right.count();
        let left = self.as_str();
        let right = right.as_str();
        if left.len() + right.len() > TEXT_LIMIT {
            return Err(TextFault::TooLong);
        }
        let joined = both(alloc, left, right)?;
        Ok(new_text(alloc, joined, count)?)
    }

    /// The scalars from the place `from` up to the place `to`, both counted in scalars from 0.
    pub fn cut(&self, alloc: Global, from: u32, to: u32) -> Mem<Text>
        requires order { from ≤ to }
        requires within { to ≤ length self.now }
        ensures { IfOk result (λ t. t ≡ slice_range self.now from to) }
    {
        let piece = self.piece(alloc, from as usize, to as usize)?;
        new_text(alloc, piece, to - from)
    }

    /// The bytes of a cut.
    fn piece(&self, alloc: Global, from: usize, to: usize) -> Result<String, AllocError>
        requires order { from ≤ to }
        requires within { to ≤ length self.now }
        ensures exact { IfOk result (λ t. string_bytes t ≡ encode_utf8_all (slice_range self.now from to)) }
        ensures limit { IfOk result (λ t. length (string_bytes t) ≤ SOURCE_LIMIT) }
    {
        let whole = self.as_str();
        if self.is_ascii() {
            bytes_between(alloc, whole, from, to)
        } else {
            scalars_between(alloc, whole, from, to)
        }
    }
}

impl fmt::Debug for Text {
    fn fmt<W: fmt::Write>(&self, f: &mut fmt::Formatter<W>) -> fmt::Result {
        self.as_str().fmt(f)
    }
}

impl Clone for Text {
    ghost is_clone = { λ t copy. copy ≡ t };

    fn clone(&self) -> Result<Text, AllocError> {
        let shared = self.shared.clone()?;
        Ok(Text { shared })
    }
}

impl PartialEq for Text {
    ghost eq = { λ x y. bytes_eq x y };

    ghost laws = { partial_equiv_from_equiv nat_list_eq_equiv };

    fn eq(&self, other: &Text) -> bool {
        self.as_str() == other.as_str()
    }
}

impl Eq for Text {
    ghost laws = { nat_list_eq_equiv };
}

/// By bytes of UTF-8, as `str` is ordered.
impl Ord for Text {
    ghost cmp = { text_cmp };

    ghost total = { on_total encode_utf8_all nat_list_cmp_total };

    ghost matches_partial_cmp = { λ x y. refl };

    ghost matches_eq = { text_ties };

    fn cmp(&self, other: &Text) -> Ordering {
        self.as_str().cmp(&other.as_str())
    }
}

impl PartialOrd for Text {
    ghost partial_cmp = { λ x y. Some (text_cmp x y) };

    ghost laws = { text_order };

    fn partial_cmp(&self, other: &Text) -> Option<Ordering> {
        Some(self.cmp(other))
    }
}

fn scalar_count(s: &str) -> usize
    ensures exact { result ≡ length (chars s.now) }
    ensures bound { result ≤ length s.now }
{
    if s.is_ascii() {
        s.len()
    } else {
        s.chars().count()
    }
}

/// The one place that makes a text.
fn new_text(alloc: Global, text: String, count: u32) -> Mem<Text>
    requires counted { count ≡ length (chars (string_bytes text)) }
    requires within { length (string_bytes text) ≤ SOURCE_LIMIT }
    ensures bytes { IfOk result (λ t. encode_utf8_all t ≡ string_bytes text) }
    ensures scalars { IfOk result (λ t. t ≡ chars (string_bytes text)) }
{
    let shared = Rc::new(alloc, Content { text, count })?;
    Ok(Text { shared })
}

fn copied(alloc: Global, s: &str) -> Mem<Text>
    requires { length s.now ≤ SOURCE_LIMIT }
    ensures bytes { IfOk result (λ t. encode_utf8_all t ≡ s.now) }
    ensures scalars { IfOk result (λ t. t ≡ chars s.now) }
{
    let count = scalar_count(s) as u32;
    let text = String::from_str(alloc, s)?;
    new_text(alloc, text, count)
}

fn both(alloc: Global, left: &str, right: &str) -> Result<String, AllocError>
    requires { length left.now + length right.now ≤ SOURCE_LIMIT }
    ensures { IfOk result (λ t. string_bytes t ≡ left.now ++ right.now) }
{
    let mut both = String::with_capacity(alloc, left.len() + right.len())?;
    both.push_str(left)?;
    both.push_str(right)?;
    Ok(both)
}

fn digits_of(alloc: Global, n: i64) -> Result<String, AllocError>
    ensures { IfOk result (λ t. string_bytes t ≡ signed_decimal n) }
{
    n.to_string(alloc)
}

fn byte_at(s: &str, at: usize) -> Option<char>
    requires { IsAscii s.now }
    ensures { result ≡ slice_get (chars s.now) at }
{
    let byte = s.as_bytes().get(at)?;
    Some(char::from(*byte))
}

fn scalar_at(s: &str, at: usize) -> Option<char>
    ensures { result ≡ slice_get (chars s.now) at }
{
    s.chars().nth(at)
}

fn bytes_between(alloc: Global, s: &str, from: usize, to: usize) -> Result<String, AllocError>
    requires order { from ≤ to }
    requires within { to ≤ length s.now }
    requires ascii { IsAscii s.now }
    ensures { IfOk result (λ t. string_bytes t ≡ encode_utf8_all (slice_range (chars s.now) from to)) }
{
    String::from_str(alloc, &s[from..to])
}

fn scalars_between(alloc: Global, s: &str, from: usize, to: usize) -> Result<String, AllocError>
    requires { from ≤ to }
    ensures { IfOk result (λ t. string_bytes t ≡ encode_utf8_all (slice_range (chars s.now) from to)) }
{
    s.chars().skip(from).take(to - from).collect(alloc)
}

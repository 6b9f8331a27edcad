//! Small readers over bytes, which the forms of words, addresses, pages and userscripts share.

ghost use Rattle.small_forms.specs.Bytes.{AreRuns, IsNumeral, are_in, is_in, stops};
ghost use Rattle.std.specs.Prelude.{◌≡◌, ◌≢◌, ◌<◌, ◌≤◌, length, ◌++◌, ◌↔◌, List, ℕ, IfNone, IfSome, IsTrue};
ghost use Rattle.std.specs.Fmt.{decimal};
ghost use Rattle.std.specs.Str.Parse.{digits_value};

/// A class of ASCII characters.
#[derive(Clone, Copy)]
pub enum Class {
    Digit,
    Lower,
    Alphanumeric,
    Blank,
    AlphanumericOrBlank,
    Dot,
    /// ASCII but `<`, which no script of the forms that are read has.
    RawText,
}

impl Class {
    /// Whether a byte is of this class.
    pub fn has(self, byte: u8) -> bool
        ensures { result ≡ is_in self byte }
    {
        match self {
            Class::Digit => byte.is_ascii_digit(),
            Class::Lower => byte.is_ascii_lowercase(),
            Class::Alphanumeric => byte.is_ascii_alphanumeric(),
            Class::Blank => byte == b' ' || byte == b'\t',
            Class::AlphanumericOrBlank => byte.is_ascii_alphanumeric()
                || byte == b' '
                || byte == b'\t',
            Class::Dot => byte == b'.',
            Class::RawText => byte.is_ascii() && byte != b'<',
        }
    }
}

/// What follows a prefix.
pub fn after<'a>(bytes: &'a [u8], prefix: &[u8]) -> Option<&'a [u8]>
    ensures some { IfSome result (λ rest. bytes.now ≡ prefix.now ++ rest.now) }
    ensures none { IfNone result ((rest : List ℕ) → bytes.now ≢ prefix.now ++ rest) }
{
    bytes.strip_prefix(prefix)
}

/// What stands before a suffix.
pub fn before<'a>(bytes: &'a [u8], suffix: &[u8]) -> Option<&'a [u8]>
    ensures some { IfSome result (λ front. bytes.now ≡ front.now ++ suffix.now) }
    ensures none { IfNone result ((front : List ℕ) → bytes.now ≢ front ++ suffix.now) }
{
    bytes.strip_suffix(suffix)
}

/// The bytes of a class at the front, as many as there are, and what follows them.
pub fn front(bytes: &[u8], class: Class) -> (&[u8], &[u8])
    ensures whole { bytes.now ≡ result.0.now ++ result.1.now }
    ensures inside { IsTrue (are_in class result.0.now) }
    ensures stops { IsTrue (stops class result.1.now) }
{
    for (at, byte) in bytes.iter().enumerate() {
        if !class.has(*byte) {
            return bytes.split_at(at);
        }
    }
    bytes.split_at(bytes.len())
}

/// Whether these are one or more runs of letters with one separator between two.
pub fn are_runs(bytes: &[u8], letter: Class, separator: Class) -> bool
    ensures { IsTrue result ↔ AreRuns letter separator bytes.now }
{
    let mut in_run = false;
    for byte in bytes {
        if letter.has(*byte) {
            in_run = true;
        } else if in_run && separator.has(*byte) {
            in_run = false;
        } else {
            return false;
        }
    }
    in_run
}

/// Whether all bytes are of a class.
pub fn are_all(bytes: &[u8], class: Class) -> bool
    ensures { result ≡ are_in class bytes.now }
{
    for byte in bytes {
        if !class.has(*byte) {
            return false;
        }
    }
    true
}

/// The number below 10,000 whose decimal digits these are.
pub fn number_in(bytes: &[u8]) -> Option<u16>
    ensures some { IfSome result (λ n. (bytes.now ≡ decimal n) × (n < 10000)) }
    ensures none { IfNone result ((n : ℕ) → n < 10000 → bytes.now ≢ decimal n) }
{
    if bytes.len() <= 4 && are_all(bytes, Class::Digit) && is_numeral(bytes) {
        Some(value_of(bytes))
    } else {
        None
    }
}

/// Whether digits are those of a number: some, and no zero before others.
fn is_numeral(digits: &[u8]) -> bool
    ensures { IsTrue result ↔ IsNumeral digits.now }
{
    match digits {
        [] => false,
        [_] => true,
        [first, ..] => *first != b'0',
    }
}

/// The value of at most four digits.
fn value_of(digits: &[u8]) -> u16
    requires digits { IsTrue (are_in Class.Digit digits.now) }
    requires few { length digits.now ≤ 4 }
    ensures { result ≡ digits_value 10 digits.now }
{
    let mut value = 0;
    for digit in digits {
        value = value * 10 + u16::from(*digit - b'0');
    }
    value
}

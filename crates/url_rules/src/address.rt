//! The address of the page, and the parts of it that rules look at (URL Standard).
ghost use Rattle.std.specs.Prelude.{◌≡◌, ◌≤◌, length, None, Ok, IfOk, IfErr};
ghost use Rattle.std.specs.Str.{IsAscii};
ghost use Rattle.url.specs.Parser.{parse_url};
ghost use Rattle.url_rules.specs.Address.{RefusesAddress, address_text, path_text, host_text_of};

use door::ADDRESS_LIMIT;
use std::alloc::Global;
use url::{ParseError, Position, Url};

/// Why a text is no address.
#[derive(Clone, Copy, Debug, PartialEq, Eq)]
pub enum AddressFault {
    /// It has over 8,192 bytes: this many, or 2^32 - 1 where there are more.
    TooLong(u32),
    /// The URL Standard's parser refuses it.
    Parse(ParseError),
    /// No memory was found, or the URL is too long for `url`.
    NoMemory,
}

/// The address that a text spells (URL Standard, URL parsing).
///
/// `TooLong` where `s` has over 8,192 bytes, and else `Parse` with the fault that the parser gives.
pub fn read_address(alloc: Global, s: &str) -> Result<Url, AddressFault>
    ensures ok { IfOk result (λ address. (length s.now ≤ ADDRESS_LIMIT) × (parse_url None s.now ≡ Ok address)) }
    ensures err { IfErr result (RefusesAddress s.now) }
{
    if s.len() > ADDRESS_LIMIT {
        return Err(AddressFault::TooLong(s.len().min(u32::MAX as usize) as u32));
    }
    match Url::parse(alloc, s) {
        Ok(url) => Ok(url),
        Err(ParseError::OutOfMemory) => Err(AddressFault::NoMemory),
        Err(ParseError::Overflow) => Err(AddressFault::NoMemory),
        Err(fault) => Err(AddressFault::Parse(fault)),
    }
}

/// The text of the address without its fragment (URL Standard, URL serializing).
pub fn address_of(address: &Url) -> &str
    ensures text { result.now ≡ address_text address.now }
    ensures ascii { IsAscii result.now }
{
    address.slice(Position::BeforeScheme, Position::AfterQuery)
}

/// The path of the address, followed by `?` and the query where there is one.
pub fn path_of(address: &Url) -> &str
    ensures text { result.now ≡ path_text address.now }
    ensures ascii { IsAscii result.now }
{
    address.slice(Position::BeforePath, Position::AfterQuery)
}

/// The host of the address, empty where there is none.
pub fn host_of(address: &Url) -> &str
    ensures text { result.now ≡ host_text_of address.now }
    ensures ascii { IsAscii result.now }
{
    address.slice(Position::BeforeHost, Position::AfterHost)
}

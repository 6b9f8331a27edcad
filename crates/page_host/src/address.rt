//! The form of address that is read until addresses are parsed by the URL Standard.

ghost use Rattle.page_host.specs.Address.{IsPlainAddress};
ghost use Rattle.std.specs.Prelude.{◌↔◌, IsTrue};

use small_forms::{Class, after, are_runs, before};

/// The most bytes of an address of this form. The limit of all addresses is `door`'s.
pub const PLAIN_ADDRESS_LIMIT: usize = 253;

/// Whether an address is of the form that is read yet.
pub fn is_plain_address(address: &str) -> bool
    ensures { IsTrue result ↔ IsPlainAddress address.now }
{
    let bytes = address.as_bytes();
    let Some(rest) = after(bytes, b"http://") else {
        return false;
    };
    let Some(host) = before(rest, b"/") else {
        return false;
    };
    bytes.len() <= PLAIN_ADDRESS_LIMIT && are_runs(host, Class::Lower, Class::Dot)
}

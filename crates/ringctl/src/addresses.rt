//! The addresses at which a service may be.
ghost use Rattle.std.specs.Prelude.{◌≡◌, ◌≢◌, ◌++◌, ◌↔◌, ◌⊎◌, ℕ, IfOk, IsTrue, List, MatchOption, codes, map};
ghost use Rattle.ringctl.specs.Addresses.{AreAddresses, IsAddress, IsPort, Names};

use std::alloc::{AllocError, Global};

/// Returns whether a text names addresses: it is one, or each of its parts at the commas is one.
pub fn names_addresses(text: &str) -> bool
    ensures { IsTrue result ↔ (IsAddress text.now ⊎ AreAddresses text.now) }
{
    is_address(text) || are_addresses(text)
}

/// Returns the addresses that a text names, in their order.
///
/// If each part of the text at its commas is an address, the parts are the addresses. Otherwise
/// the text is one address, because the path of a socket may have commas.
pub fn addresses_of(alloc: Global, text: &str) -> Result<Vec<&str>, AllocError>
    ensures { IfOk result (λ addresses. Names text.now (map (λ a. a.now) addresses.items)) }
{
    if are_addresses(text) {
        return text.split(',').collect(alloc);
    }
    let mut addresses = Vec::new(alloc);
    addresses.push(text)?;
    Ok(addresses)
}

// Returns whether each part of a text, at its commas, is an address.
fn are_addresses(text: &str) -> bool
    ensures { IsTrue result ↔ AreAddresses text.now }
{
    text.split(',').all(|part| is_address(part))
}

// Returns whether this is a host and a port, or the path of a socket.
fn is_address(text: &str) -> bool
    ensures { IsTrue result ↔ IsAddress text.now }
{
    if let Some(path) = path_of(text) {
        return !path.is_empty();
    }
    let Some((host, port)) = text.rsplit_once(':') else {
        return false;
    };
    !host.is_empty() && is_port(port)
}

// Returns whether this is the number of a port, 1 to 65535.
fn is_port(text: &str) -> bool
    ensures { IsTrue result ↔ IsPort text.now }
{
    match text.parse::<u16>() {
        Ok(port) => port > 0,
        Err(_) => false,
    }
}

/// Returns the path of the socket that an address names: what follows `unix:`. Returns `None` if
/// the address is that of a port.
pub fn path_of(address: &str) -> Option<&str>
    ensures { MatchOption result
        ((path : List ℕ) → address.now ≢ codes "unix:" ++ path)
        (λ path. address.now ≡ codes "unix:" ++ path.now) }
{
    address.strip_prefix("unix:")
}

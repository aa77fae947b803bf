//! Addresses against a base, by the URL Standard.
ghost use Rattle.std.specs.Prelude.{◌≡◌, Ok, Err, IfOk, string_bytes};
ghost use Rattle.std.specs.Option.{option_copied};
ghost use Rattle.url.specs.Parser.{parse_url};
ghost use Rattle.htmd_addresses.specs.Addresses as spec;
ghost use Rattle.htmd_addresses.specs.Views.{GivesUrl};

use std::alloc::{AllocError, Global};
use url::{ParseError, ParseResult, Url};

/// The URL that was read, if there is one. `Err` means out of memory, or a URL of 4 GB.
pub(crate) fn url_of(parsed: ParseResult<Url>) -> Result<Option<Url>, AllocError>
    ensures { IfOk result (GivesUrl parsed) }
{
    match parsed {
        Ok(url) => Ok(Some(url)),
        Err(ParseError::OutOfMemory) => Err(AllocError),
        Err(ParseError::Overflow) => Err(AllocError),
        Err(_) => Ok(None),
    }
}

/// Whether an address is a fragment alone, which leads into the page itself.
fn is_fragment(address: &[u8]) -> bool
    ensures { result ≡ spec.is_fragment address.now }
{
    match address {
        [] => false,
        [first, ..] => *first == b'#',
    }
}

/// The address against the base; one that can't be resolved stays.
fn joined(alloc: Global, base: &Url, address: &str) -> Result<String, AllocError>
    ensures { IfOk result (λ s. string_bytes s ≡ spec.joined base.now address.now) }
{
    match url_of(base.join(address))? {
        Some(url) => String::from_str(alloc, url.as_str()),
        None => String::from_str(alloc, address),
    }
}

/// The address against the base; one that leads into the page itself or can't be resolved stays.
pub(crate) fn resolved(alloc: Global, base: &Url, address: &str) -> Result<String, AllocError>
    ensures { IfOk result (λ s. string_bytes s ≡ spec.resolved base.now address.now) }
{
    if is_fragment(address.as_bytes()) {
        return String::from_str(alloc, address);
    }
    joined(alloc, base, address)
}

/// The same against a base, if there is one.
pub(crate) fn resolved_by(
    alloc: Global,
    base: Option<&Url>,
    address: &str,
) -> Result<String, AllocError>
    ensures { IfOk result (λ s. string_bytes s ≡ spec.resolved_by (option_copied base.entry) address.now) }
{
    let Some(base) = base else {
        return String::from_str(alloc, address);
    };
    resolved(alloc, base, address)
}

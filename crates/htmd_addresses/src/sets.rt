//! Sets of addresses, as in `srcset`.
ghost use Rattle.std.specs.Prelude.{◌≡◌, ◌<◌, ◌++◌, length, option_map, false, IfOk, IfSome, OnOk, string_bytes};
ghost use Rattle.std.specs.Str.{IsCharBoundary};
ghost use Rattle.htmd_addresses.specs.AddressSets as spec;
ghost use Rattle.htmd_addresses.specs.SetViews.{candidate_of};

use crate::attributes::Resolve;
use htmd_text::repeats::trailing_len;
use std::alloc::{AllocError, Global};

/// An address, what is before it in a set, what describes it, and the candidates after that.
#[derive(Clone, Copy)]
struct Candidate<'a> {
    before: &'a str,
    address: &'a str,
    description: &'a str,
    after: &'a str,
}

/// How many bytes of white space and commas begin a set.
fn before_len(set: &[u8]) -> usize
    ensures { result ≡ spec.before_len set.now }
{
    for (len, b) in set.iter().enumerate() {
        if !(b.is_ascii_whitespace() || *b == b',') {
            return len;
        }
    }
    set.len()
}

/// How many bytes come before the first white space.
fn word_len(set: &str) -> usize
    ensures boundary { IsCharBoundary set.now result }
    ensures value { result ≡ spec.word_len set.now }
{
    for (len, b) in set.as_bytes().iter().enumerate() {
        if b.is_ascii_whitespace() {
            return len;
        }
    }
    set.len()
}

/// How long the address is that begins a set: up to white space, without the commas at its end.
fn address_len(set: &str) -> usize
    ensures boundary { IsCharBoundary set.now result }
    ensures value { result ≡ spec.address_len set.now }
{
    let len = word_len(set);
    len - trailing_len(&set.as_bytes()[..len], b',')
}

/// How long the description is that begins a set: up to a comma that isn't in parentheses.
fn description_len(set: &str) -> usize
    ensures boundary { IsCharBoundary set.now result }
    ensures value { result ≡ spec.description_len false set.now }
{
    let mut is_inside = false;
    for (len, b) in set.as_bytes().iter().enumerate() {
        if !is_inside && *b == b',' {
            return len;
        }
        is_inside = if is_inside { *b != b')' } else { *b == b'(' };
    }
    set.len()
}

/// The first candidate of a set.
fn first_candidate(set: &str) -> Option<Candidate<'_>>
    ensures value { option_map candidate_of result ≡ spec.first_candidate set.now }
    ensures shorter { IfSome result (λ c. length c.after.now < length set.now) }
{
    let (before, rest) = set.split_at(before_len(set.as_bytes()));
    let (address, rest) = rest.split_at(address_len(rest));
    if address.is_empty() {
        return None;
    }
    let (description, after) = rest.split_at(description_len(rest));
    Some(Candidate {
        before,
        address,
        description,
        after,
    })
}

/// Appends a candidate, with what its address becomes.
fn push_candidate<R: Resolve>(
    set: &mut String,
    alloc: Global,
    resolve: &R,
    candidate: Candidate<'_>,
) -> Result<(), AllocError>
    ensures { OnOk result (string_bytes set.new ≡ string_bytes set.old ++ (candidate.entry.before.now
        ++ (R.to resolve.now candidate.entry.address.now ++ candidate.entry.description.now))) }
{
    let address = resolve.resolved(alloc, candidate.address)?;
    set.push_str(candidate.before)?;
    set.push_str(address.as_str())?;
    set.push_str(candidate.description)
}

/// A set with what its addresses become.
pub(crate) fn set_of<R: Resolve>(
    alloc: Global,
    resolve: &R,
    set: &str,
) -> Result<String, AllocError>
    ensures { IfOk result (λ s. string_bytes s ≡ spec.set_with (R.to resolve.now) set.now) }
{
    let mut copy = String::new(alloc);
    let mut rest = set;
    while let Some(candidate) = first_candidate(rest) {
        push_candidate(&mut copy, alloc, resolve, candidate)?;
        rest = candidate.after;
    }
    copy.push_str(rest)?;
    Ok(copy)
}

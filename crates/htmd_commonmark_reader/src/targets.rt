//! Where links lead (CommonMark 0.31.2, 6.3), as it is written.
ghost use Rattle.std.specs.Prelude.{◌≡◌, option_map};
ghost use Rattle.htmd_commonmark_reading.specs.Brackets as spec;
ghost use Rattle.htmd_commonmark_reading.specs.Characters.{unescaped};
ghost use Rattle.htmd_commonmark_reading.specs.LinkDefinitions.{title_after};
ghost use Rattle.htmd_commonmark_reader.specs.Destinations.{AreKnown};
ghost use Rattle.htmd_commonmark_reader.specs.Targets.{target_of};

use crate::definitions::Definition;
use crate::destinations::lacks_destination;
use crate::link_definitions::{destination, past_white, title_after};
use htmd_scanning::{first_is, strip_byte};

/// The address and title of a link, with their escapes and references, and the text behind it.
#[derive(Clone, Copy, Drop)]
pub(crate) struct RawTarget<'a> {
    pub(crate) address: &'a str,
    pub(crate) title: Option<&'a str>,
    pub(crate) rest: &'a str,
}

/// Where a link leads: as it is written, or by a definition.
#[derive(Clone, Copy, Drop)]
pub(crate) enum Target<'a> {
    Written {
        address: &'a str,
        title: Option<&'a str>,
    },
    Defined(&'a Definition),
}

/// A target, and the text behind it.
#[derive(Clone, Copy, Drop)]
pub(crate) struct Found<'a> {
    pub(crate) target: Target<'a>,
    pub(crate) rest: &'a str,
}

fn closed_target<'a>(
    address: &'a str,
    title: Option<&'a str>,
    text: &'a str,
) -> Option<RawTarget<'a>>
    ensures { option_map target_of result
        ≡ spec.closed_target address.now (option_map (λ t. unescaped t.now) title.entry) text.now }
{
    match strip_byte(text, b')') {
        Some(rest) => Some(RawTarget {
            address,
            title,
            rest,
        }),
        None => None,
    }
}

/// A target from the text behind its address on.
fn target_title<'a>(address: &'a str, text: &'a str) -> Option<RawTarget<'a>>
    ensures { option_map target_of result ≡ spec.target_title address.now text.now (title_after text.now) }
{
    match title_after(text) {
        Some(title) => closed_target(address, Some(title.front), past_white(title.rest)),
        None => closed_target(address, None, past_white(text)),
    }
}

/// Behind `(`: a destination and a title, each of which may be left out, and `)`.
fn resource<'a>(text: &'a str, known: &[Option<usize>]) -> Option<RawTarget<'a>>
    requires { AreKnown known.now text.now }
    ensures { option_map target_of result ≡ spec.resource text.now }
{
    let inside = past_white(text);
    if first_is(inside.as_bytes(), b')') {
        return closed_target("", None, inside);
    }
    if lacks_destination(inside.as_bytes(), known) {
        return None;
    }
    match destination(inside) {
        Some(address) => target_title(address.front, address.rest),
        None => None,
    }
}

/// What is known of bare destinations is looked up.
pub(crate) fn inline_target<'a>(text: &'a str, known: &[Option<usize>]) -> Option<RawTarget<'a>>
    requires { AreKnown known.now text.now }
    ensures { option_map target_of result ≡ spec.inline_target text.now }
{
    match strip_byte(text, b'(') {
        Some(inside) => resource(inside, known),
        None => None,
    }
}

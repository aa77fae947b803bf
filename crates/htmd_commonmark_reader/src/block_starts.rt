//! The starts of blocks (CommonMark 0.31.2, 4.1, 4.2, 4.5, 4.6, 5.1 and 5.2).
ghost use Rattle.std.specs.Prelude.{◌≡◌, ◌<◌, reverse};
ghost use Rattle.std.specs.List.{list_all};
ghost use Rattle.htmd_commonmark_reading.specs.BlockStarts as spec;
ghost use Rattle.htmd_commonmark_reading.specs.Containers.{after_container};
ghost use Rattle.htmd_commonmark_reader.specs.LineViews.{line_of, IsLine};
ghost use Rattle.htmd_commonmark_reader.specs.Starts.{after_of, heading_of, fence_of};

use crate::characters::{SpaceOrTab, is_space_or_tab, lacks, stripped, stripped_end};
use crate::lines::Line;
use htmd_scanning::{ByteClass, split_run};

/// What a line stands under.
#[derive(Clone, Copy, Drop)]
pub(crate) enum After {
    /// Nothing that it could go on with.
    Alone,
    /// A paragraph.
    Under,
    /// A paragraph in a container that the line doesn't go on.
    Lazy,
}

impl After {
    pub(crate) fn is_alone(self) -> bool
        ensures { result ≡ spec.is_alone (after_of self) }
    {
        matches!(self, After::Alone)
    }

    pub(crate) fn is_under(self) -> bool
        ensures { result ≡ spec.is_under (after_of self) }
    {
        matches!(self, After::Under)
    }

    /// What a line stands under that isn't in the container: it may be a lazy one, or not.
    pub(crate) fn container(is_lazy: bool) -> After
        ensures { after_of result ≡ after_container is_lazy }
    {
        if is_lazy { After::Lazy } else { After::Alone }
    }
}

/// One byte alone.
#[derive(Clone, Copy)]
struct Same {
    sign: u8,
}

impl ByteClass for Same {
    ghost use Rattle.htmd_commonmark_reading.specs.BlockStarts.{is_same};

    ghost bytes = { λ class. is_same class.sign };

    #[inline(always)]
    fn has(self, byte: u8) -> bool {
        byte == self.sign
    }
}

/// Whether a text is empty or begins with white space.
pub(crate) fn is_empty_or_blank(bytes: &[u8]) -> bool
    ensures { result ≡ spec.is_empty_or_blank bytes.now }
{
    match bytes {
        [first, ..] => is_space_or_tab(*first),
        [] => true,
    }
}

/// Whether a text is empty or ends with white space.
fn is_empty_or_ends_blank(bytes: &[u8]) -> bool
    ensures { result ≡ spec.is_empty_or_blank (reverse bytes.now) }
{
    match bytes {
        [.., last] => is_space_or_tab(*last),
        [] => true,
    }
}

/// The text of a heading without its closing sequence, which goes if it is all, or white space stands before it.
#[tactic(auto, using(crate::proofs::StartsLemmas::heading_closed, crate::proofs::StartsLemmas::heading_open))]
fn heading_text(text: &str) -> &str
    ensures { result.now ≡ spec.heading_text text.now }
{
    let whole = stripped(text);
    let open = stripped_end(whole, Same { sign: b'#' });
    if is_empty_or_ends_blank(open.as_bytes()) {
        stripped_end(open, SpaceOrTab)
    } else {
        whole
    }
}

/// The level of a heading, and its raw text.
#[derive(Clone, Copy, Drop)]
pub(crate) struct Heading<'a> {
    pub(crate) level: u8,
    pub(crate) text: &'a str,
}

/// The heading that a line is: one to six `#`, and white space or the end of the line.
pub(crate) fn heading_start(text: &str) -> Option<Heading<'_>>
    ensures { heading_of result ≡ spec.heading_start text.now }
{
    let (signs, rest) = split_run(text, Same { sign: b'#' });
    if signs.len() > 6 || !is_empty_or_blank(rest.as_bytes()) {
        return None;
    }
    Some(Heading {
        level: signs.len() as u8,
        text: heading_text(rest),
    })
}

/// An opening fence: the columns before it, its sign, how often that stands there, and the info string.
#[derive(Clone, Copy, Drop)]
pub(crate) struct Fence<'a> {
    pub(crate) columns: usize,
    pub(crate) sign: u8,
    pub(crate) count: usize,
    pub(crate) info: &'a str,
}

/// The fence that a line is: three or more of one sign; the info string after grave accents has none.
pub(crate) fn fence_start(columns: usize, sign: u8, text: &str) -> Option<Fence<'_>>
    requires { sign < 128 }
    ensures { fence_of result ≡ spec.fence_start columns sign text.now }
{
    let (signs, info) = split_run(text, Same { sign });
    if signs.len() < 3 {
        return None;
    }
    if sign != b'~' && !lacks(info.as_bytes(), b'`') {
        return None;
    }
    Some(Fence {
        columns,
        sign,
        count: signs.len(),
        info: stripped(info),
    })
}

pub(crate) fn are_all(bytes: &[u8], sign: u8) -> bool
    ensures { result ≡ list_all (spec.is_same sign) bytes.now }
{
    bytes.iter().all(|byte| *byte == sign)
}

/// Whether a line closes a fence: at least as many of the sign, and nothing else.
pub(crate) fn closes_fence(sign: u8, count: usize, line: Line<'_>) -> bool
    requires { IsLine line }
    ensures { result ≡ spec.closes_fence sign count (line_of line.entry) }
{
    if line.indent > 3 {
        return false;
    }
    let text = stripped(line.text);
    if text.len() < count {
        return false;
    }
    are_all(text.as_bytes(), sign)
}

/// Whether a line is a thematic break: three or more of one sign, and spaces or tabs between them.
#[tactic(auto, using(crate::proofs::StartsLemmas::marks_skip, crate::proofs::StartsLemmas::marks_take))]
pub(crate) fn is_rule(sign: u8, bytes: &[u8]) -> bool
    ensures { result ≡ spec.is_rule sign bytes.now }
{
    let mut count: usize = 0;
    for byte in bytes {
        if is_space_or_tab(*byte) {
            continue;
        }
        if *byte != sign {
            return false;
        }
        count += 1;
    }
    count >= 3
}

//! The markers of a list's items (CommonMark 0.31.2, 5.2 and 5.3).
ghost use Rattle.std.specs.Prelude.{◌≡◌, ◌<◌, ◌^◌, OnOk, string_bytes};
ghost use Rattle.htmd_commonmark.specs.BlockMarkdown as spec;
ghost use Rattle.htmd_commonmark.specs.Pages.{IsMarker};

use crate::options::DocumentOptions;
use htmd_markdown::{BulletListMarker, aligned_spaces};
use std::alloc::AllocError;

/// A bullet, or what ends a number.
#[derive(Debug, Clone, Copy, PartialEq)]
pub enum Sign {
    Asterisk,
    Hyphen,
    FullStop,
    Parenthesis,
}

impl Sign {
    /// What it is written as.
    fn text(self) -> &'static str
        ensures { result.now ≡ spec.sign_text self }
    {
        match self {
            Sign::Asterisk => "*",
            Sign::Hyphen => "-",
            Sign::FullStop => ".",
            Sign::Parenthesis => ")",
        }
    }

    /// Whether there is a list with this sign beside a list.
    fn is_beside(self, beside: Option<Sign>) -> bool
        ensures { result ≡ spec.is_beside self beside }
    {
        match (self, beside) {
            (Sign::Asterisk, Some(Sign::Asterisk)) => true,
            (Sign::Hyphen, Some(Sign::Hyphen)) => true,
            (Sign::FullStop, Some(Sign::FullStop)) => true,
            (Sign::Parenthesis, Some(Sign::Parenthesis)) => true,
            _ => false,
        }
    }
}

/// The markers of a list's items, and how many spaces come after them.
#[derive(Clone, Copy)]
pub enum Markers {
    Bullets {
        bullet: Sign,
        spacing: u8,
    },
    Numbers {
        start: u32,
        highest: usize,
        delimiter: Sign,
        spacing: u8,
    },
}

impl Markers {
    /// The markers of a list of so many items, numbered from the start if there is one. `before` is the sign of the
    /// list that stands before, `outer` the bullet of the item that begins with this list.
    pub(crate) fn of(
        options: &DocumentOptions,
        start: Option<u32>,
        count: usize,
        before: Option<Sign>,
        outer: Option<Sign>,
    ) -> Markers
        requires { count < 2 ^ 63 }
        ensures { result ≡ spec.markers_of options.now before outer start count }
    {
        match start {
            Some(start) => Markers::Numbers {
                start,
                highest: (start as usize + count).saturating_sub(1),
                delimiter: delimiter(before),
                spacing: options.ol_number_spacing,
            },
            None => Markers::Bullets {
                bullet: bullet(options.bullet_list_marker, before, outer),
                spacing: options.ul_bullet_spacing,
            },
        }
    }

    /// The bullet that a list at the beginning of an item doesn't take.
    pub(crate) fn outer(self) -> Option<Sign>
        ensures { result ≡ spec.outer_of self }
    {
        match self {
            Markers::Bullets { bullet, .. } => Some(bullet),
            Markers::Numbers { .. } => None,
        }
    }

    /// The spaces after the marker of the item at this place: at least 1, and at most 4, since with more a reader sees
    /// code.
    pub(crate) fn spaces(self, place: usize) -> usize
        requires { place < 2 ^ 63 }
        ensures { result ≡ spec.spaces self place }
    {
        let spacing = match self {
            Markers::Bullets { spacing, .. } => spacing as usize,
            Markers::Numbers {
                start,
                highest,
                spacing,
                ..
            } => aligned_spaces(spacing, highest, start as usize + place),
        };
        spacing.max(1).min(4)
    }

    /// Writes the marker of the item at this place in place of the text.
    pub(crate) fn write(self, place: usize, text: &mut String) -> Result<(), AllocError>
        requires { place < 2 ^ 63 }
        ensures text { OnOk result (string_bytes text.new ≡ spec.marker self place) }
        ensures line { IsMarker (spec.marker self place) }
    {
        text.clear();
        match self {
            Markers::Bullets { bullet, .. } => text.push_str(bullet.text()),
            Markers::Numbers {
                start,
                delimiter,
                ..
            } => {
                let number = start as usize + place;
                write!(text, "{number}")?;
                text.push_str(delimiter.text())
            }
        }
    }
}

/// The sign of a list, which the next one doesn't take.
pub(crate) fn list_sign(
    options: &DocumentOptions,
    start: Option<u32>,
    before: Option<Sign>,
    outer: Option<Sign>,
) -> Sign
    ensures { result ≡ spec.list_sign options.now before outer start }
{
    match start {
        Some(_) => delimiter(before),
        None => bullet(options.bullet_list_marker, before, outer),
    }
}

/// The bullet of a list: the other one after a list with the usual one, and at the beginning of an item of such a list.
fn bullet(marker: BulletListMarker, before: Option<Sign>, outer: Option<Sign>) -> Sign
    ensures { result ≡ spec.bullet_of marker before outer }
{
    let usual = usual_bullet(marker);
    if usual.is_beside(before) || usual.is_beside(outer) {
        other_bullet(marker)
    } else {
        usual
    }
}

fn usual_bullet(marker: BulletListMarker) -> Sign
    ensures { result ≡ spec.usual_bullet marker }
{
    match marker {
        BulletListMarker::Asterisk => Sign::Asterisk,
        BulletListMarker::Dash => Sign::Hyphen,
    }
}

fn other_bullet(marker: BulletListMarker) -> Sign
    ensures { result ≡ spec.other_bullet marker }
{
    match marker {
        BulletListMarker::Asterisk => Sign::Hyphen,
        BulletListMarker::Dash => Sign::Asterisk,
    }
}

/// What ends the numbers of a list.
fn delimiter(before: Option<Sign>) -> Sign
    ensures { result ≡ spec.delimiter_of before }
{
    if Sign::FullStop.is_beside(before) {
        Sign::Parenthesis
    } else {
        Sign::FullStop
    }
}

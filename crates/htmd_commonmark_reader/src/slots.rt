//! What is read of a line, in one flat list: however deep formats nest, no value holds another.
ghost use Rattle.std.specs.Prelude.{◌≡◌, ◌≤◌, ◌<◌, ◌+◌, length};
ghost use Rattle.htmd_commonmark_reader.specs.Openers.{put_at};

use crate::characters::Meaning;
use crate::targets::Target;
use htmd_document::Format;

/// What is read at a place of a line.
#[derive(Clone, Copy, Drop)]
pub(crate) enum Slot<'a> {
    /// A sign that is used.
    Nothing,
    /// A sign of a run, as text.
    Sign(u8),
    Text(&'a str),
    /// What a reference stands for.
    Reference(Meaning),
    /// A code span with this content.
    Code(&'a str),
    /// An autolink to this address.
    Uri(&'a str),
    Email(&'a str),
    Raw(&'a str),
    LineBreak,
    Begin(Format),
    End(Format),
    /// A bracket that may begin an image or a link, as text.
    Opening(bool),
    BeginLink(Target<'a>),
    EndLink,
    BeginImage(Target<'a>),
    EndImage(Target<'a>),
}

/// Puts something into the first of some slots, and nothing into the others.
pub(crate) fn put<'a>(slots: &mut [Slot<'a>], from: usize, count: usize, first: Slot<'a>)
    requires some { 0 < count }
    requires within { from + count ≤ length slots.old }
    ensures { slots.new ≡ put_at from count first.entry slots.old }
{
    slots[from] = first;
    for place in from + 1..from + count {
        slots[place] = Slot::Nothing;
    }
}

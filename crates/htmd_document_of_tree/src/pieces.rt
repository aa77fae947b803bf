//! Pieces of what is in a link, one after the other.
ghost use Rattle.std.specs.Prelude.{◌≡◌};
ghost use Rattle.htmd_shown.specs.Pieces as spec;
ghost use Rattle.htmd_shown.specs.SimpleViews.{simple_of};
ghost use Rattle.htmd_document_of_tree.specs.PieceViews.{pieces_of};

use htmd_shown::showing::image_shows;
use htmd_shown::shown_text::is_blank_when_shown;
use htmd_shown::{Role, Simple};

/// How many pieces so far, and the breaks since something showed: two where a block begins or ends.
#[derive(Clone, Copy)]
pub(crate) struct Pieces {
    pub(crate) count: u32,
    breaks: u8,
}

/// Whether nothing of a leaf shows.
pub(crate) fn is_unseen(tree: &Simple) -> bool
    ensures { result ≡ spec.is_unseen (simple_of tree.now) }
{
    match tree {
        Simple::Text(text) => is_blank_when_shown(text),
        Simple::Image { address, attrs } => !image_shows(*address, attrs),
        Simple::Element { facts, .. } => facts.is_blank,
        Simple::Formula { .. } => false,
        Simple::Embedded(_) => false,
        Simple::Anchor(_) => false,
    }
}

/// Whether a node counts as a whole: a text, an image, what is embedded, a formula, a code block.
pub(crate) fn is_leaf(tree: &Simple) -> bool
    ensures { result ≡ spec.is_leaf (simple_of tree.now) }
{
    match tree {
        Simple::Element { role, .. } => role.is_verbatim(),
        Simple::Anchor(_) => false,
        Simple::Text(_) => true,
        Simple::Image { .. } => true,
        Simple::Formula { .. } => true,
        Simple::Embedded(_) => true,
    }
}

/// Whether a leaf is a block.
fn is_alone(tree: &Simple) -> bool
    ensures { result ≡ spec.is_alone (simple_of tree.now) }
{
    match tree {
        Simple::Formula { is_alone, .. } => *is_alone,
        Simple::Embedded(_) => true,
        Simple::Element { .. } => true,
        Simple::Text(_) => false,
        Simple::Image { .. } => false,
        Simple::Anchor(_) => false,
    }
}

impl Pieces {
    /// Nothing.
    pub(crate) const NONE: Pieces = Pieces {
        count: 0,
        breaks: 2,
    };

    /// After a leaf.
    pub(crate) fn after_leaf(self, tree: &Simple) -> Pieces
        ensures { pieces_of result ≡ spec.after_leaf (pieces_of self) (simple_of tree.now) }
    {
        if is_unseen(tree) {
            return self;
        }
        self.with_leaf(is_alone(tree))
    }

    /// After a leaf that shows, and is a block or not.
    fn with_leaf(self, is_alone: bool) -> Pieces
        ensures { pieces_of result ≡ spec.with_leaf (pieces_of self) is_alone }
    {
        let begins = is_alone || self.breaks >= 2;
        Pieces {
            count: if begins {
                self.count.saturating_add(1)
            } else {
                self.count
            },
            breaks: if is_alone { 2 } else { 0 },
        }
    }

    /// After a break.
    pub(crate) fn with_break(self) -> Pieces
        ensures { pieces_of result ≡ spec.with_break (pieces_of self) }
    {
        Pieces {
            breaks: self.breaks.saturating_add(1).min(2),
            ..self
        }
    }

    /// Where an element begins or ends.
    pub(crate) fn at_edge(self, role: Role) -> Pieces
        ensures { pieces_of result ≡ spec.at_edge role (pieces_of self) }
    {
        if role.is_edged() {
            Pieces { breaks: 2, ..self }
        } else {
            self
        }
    }
}

//! What is known of nodes after a walk over them.
ghost use Rattle.std.specs.Prelude.{◌≡◌, true, false, Some, None};
ghost use Rattle.htmd_shown.specs.Belows as views;

use crate::facts::Facts;
use crate::role::Role;
use crate::sign::Sign;

/// What is known of nodes.
#[derive(Clone, Copy)]
pub(crate) struct Below {
    /// Whether nothing of them is to be seen.
    pub(crate) is_blank: bool,
    /// How many `pre` they are and hold, up to two.
    pres: u8,
    /// Whether one is a table, or has one in it.
    holds_table: bool,
    /// Whether one is a header cell, or has one in it.
    holds_header: bool,
    /// What their texts show.
    sign: Sign,
    /// Whether an image with an address is in them.
    has_image: bool,
    /// How many things of them show.
    leaves: u32,
}

impl Below {
    /// Nothing.
    pub(crate) const NOTHING: Below = Below {
        is_blank: true,
        pres: 0,
        holds_table: false,
        holds_header: false,
        sign: Sign::Nothing,
        has_image: false,
        leaves: 0,
    };

    /// A text that shows this.
    pub(crate) fn of_sign(sign: Sign) -> Below
        ensures { result ≡ views.below_of_sign sign }
    {
        Below {
            is_blank: sign.is_nothing(),
            sign,
            leaves: !sign.is_nothing() as u32,
            ..Below::NOTHING
        }
    }

    /// An image with this description, of which it is known whether it has an address.
    pub(crate) fn of_image(has_address: bool, description: &str) -> Below
        ensures { result ≡ views.below_of_image has_address description.now }
    {
        Below {
            is_blank: false,
            sign: Sign::of_text(description),
            has_image: has_address,
            leaves: 1,
            ..Below::NOTHING
        }
    }

    /// A formula, or what is embedded: something that shows.
    pub(crate) fn of_leaf(sign: Sign) -> Below
        ensures { result ≡ views.below_of_leaf sign }
    {
        Below {
            is_blank: false,
            sign,
            leaves: 1,
            ..Below::NOTHING
        }
    }

    /// This, and what comes after it.
    pub(crate) fn and(self, other: Below) -> Below
        ensures { result ≡ views.below_and self other }
    {
        Below {
            is_blank: self.is_blank && other.is_blank,
            pres: self.pres.saturating_add(other.pres).min(2),
            holds_table: self.holds_table || other.holds_table,
            holds_header: self.holds_header || other.holds_header,
            sign: self.sign.and(other.sign),
            has_image: self.has_image || other.has_image,
            leaves: self.leaves.saturating_add(other.leaves),
        }
    }

    /// An element of this role with this content.
    pub(crate) fn within(self, role: Role) -> Below
        ensures { result ≡ views.below_within role self }
    {
        Below {
            is_blank: !role.is_void() && self.is_blank,
            pres: if role.is_preformatted() { 1 } else { self.pres },
            holds_table: role.is_table() || self.holds_table,
            holds_header: role.is_header_cell() || self.holds_header,
            leaves: if role.is_verbatim() { 1 } else { self.leaves },
            ..self
        }
    }

    /// Whether all that shows is one usual sign.
    pub(crate) fn is_usual_sign(self) -> bool
        ensures { result ≡ views.shows_usual_sign self }
    {
        self.sign.is_usual() && !self.has_image
    }

    /// Whether all that shows is one sign.
    pub(crate) fn is_sign(self) -> bool
        ensures { result ≡ views.shows_sign self }
    {
        self.sign.is_any() && !self.has_image
    }

    /// The facts of an element with this content.
    pub(crate) fn facts(self) -> Facts
        ensures { result ≡ views.facts_in self }
    {
        Facts {
            is_blank: self.is_blank,
            pres: self.pres,
            holds_table: self.holds_table,
            holds_header: self.holds_header,
            shows_sign: self.is_usual_sign(),
            leaves: self.leaves,
        }
    }
}

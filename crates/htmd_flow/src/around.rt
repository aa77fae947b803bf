//! What is around a leaf of a page.

ghost use Rattle.std.specs.Prelude.{◌≡◌, IfOk};
ghost use Rattle.htmd_document.specs.DocumentViews.{inline_of, inlines_of};
ghost use Rattle.htmd_flow.specs.Nesting as spec;
ghost use Rattle.htmd_flow.specs.PartViews.{around_of};

use htmd_document::{Format, Inline, InlineElement};
use htmd_nodes::NodeId;
use std::alloc::AllocError;

/// What is around a leaf: a format, an element that stays one, an abbreviation, or a link with its node.
#[derive(Drop)]
pub(crate) enum Around {
    Format(Format),
    Element(InlineElement),
    /// An abbreviation with this title.
    Abbreviation(String),
    Link {
        node: NodeId,
        address: String,
        title: Option<String>,
    },
}

impl Around {
    /// Whether it is the same format or element, or the same link.
    pub(crate) fn is_same(&self, other: &Around) -> bool
        ensures { result
            ≡ spec.is_same (spec.wrapper_of (around_of self.now)) (spec.wrapper_of (around_of other.now)) }
    {
        match (self, other) {
            (Around::Format(this), Around::Format(that)) => *this == *that,
            (Around::Element(this), Around::Element(that)) => *this == *that,
            (Around::Abbreviation(this), Around::Abbreviation(that)) => *this == *that,
            (Around::Link { node: this, .. }, Around::Link { node: that, .. }) => *this == *that,
            _ => false,
        }
    }

    /// The same again. `Err` means out of memory.
    pub(crate) fn clone(&self) -> Result<Around, AllocError>
        ensures { IfOk result (λ a. around_of a ≡ around_of self.now) }
    {
        match self {
            Around::Format(format) => Ok(Around::Format(*format)),
            Around::Element(element) => Ok(Around::Element(*element)),
            Around::Abbreviation(title) => Ok(Around::Abbreviation(title.clone()?)),
            Around::Link {
                node,
                address,
                title,
            } => Ok(Around::Link {
                node: *node,
                address: address.clone()?,
                title: title.clone()?,
            }),
        }
    }

    /// The inlines in this format or element, or in this link.
    pub(crate) fn wrap(self, content: Vec<Inline>) -> Inline
        ensures { inline_of result ≡ spec.wrapped_by (around_of self) (inlines_of content.items) }
    {
        match self {
            Around::Format(format) => Inline::Formatted(format, content),
            Around::Element(element) => Inline::Element(element, content),
            Around::Abbreviation(title) => Inline::Abbreviation { title, content },
            Around::Link { address, title, .. } => Inline::Link {
                address,
                title,
                content,
            },
        }
    }
}

//! The name of an element, in little room.
ghost use Rattle.std.specs.Prelude.{◌≡◌, IfNone, IfOk, IfSome};
ghost use Rattle.std.specs.Str.{bytes_eq};
ghost use Rattle.htmd_nodes.specs.Tags.{tag_text, HasNoTag};

use crate::tag::Tag;
use std::alloc::{AllocError, Global};
use std::marker::Model;

/// The name of an element: 16 bytes, and no memory of its own if it is one of HTML's frequent names.
#[derive(Drop)]
pub struct Name {
    kept: Kept,
}

/// A frequent name is kept as a number.
#[derive(Drop)]
enum Kept {
    Frequent(Tag),
    Other(Box<String>),
}

impl Model for Name {
    ghost use Rattle.std.specs.Prelude.{ℕ, List};

    ghost Value = { List ℕ };

    ghost use Rattle.htmd_nodes.specs.ElementNames.{text_of, IsKeptShort};

    ghost view = { λ n. text_of n.kept };

    ghost invariant = { λ n. IsKeptShort n.kept };
}

impl Name {
    /// The name with this text.
    pub(crate) fn new(alloc: Global, text: &str) -> Result<Name, AllocError>
        ensures { IfOk result (λ name. name ≡ text.now) }
    {
        let kept = match Tag::with_text(text) {
            Some(tag) => Kept::Frequent(tag),
            None => Kept::Other(Box::new(alloc, String::from_str(alloc, text)?)?),
        };
        Ok(Name { kept })
    }

    /// The text of the name.
    pub fn as_str(&self) -> &str
        ensures { result.now ≡ self.now }
    {
        match &self.kept {
            Kept::Frequent(tag) => tag.text(),
            Kept::Other(text) => text.as_str(),
        }
    }

    /// Whether it is the name of a tag.
    pub fn is(&self, tag: Tag) -> bool
        ensures { result ≡ bytes_eq self.now (tag_text tag) }
    {
        match &self.kept {
            Kept::Frequent(found) => *found == tag,
            Kept::Other(_) => false,
        }
    }

    /// The tag with this name, if it is a frequent one.
    pub fn tag(&self) -> Option<Tag>
        ensures some { IfSome result (λ tag. self.now ≡ tag_text tag) }
        ensures none { IfNone result (HasNoTag self.now) }
    {
        match &self.kept {
            Kept::Frequent(tag) => Some(*tag),
            Kept::Other(_) => None,
        }
    }
}

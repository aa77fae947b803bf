//! The containers that are open.
ghost use Rattle.std.specs.Prelude.{◌≡◌, ◌≤◌, ◌∷◌, ◌++◌, [], map, take, length, OnOk};
ghost use Rattle.htmd_commonmark_reader.specs.ClosedParts.{kind_of};
ghost use Rattle.htmd_commonmark_reader.specs.Quotes.{quote_count};

use crate::closed::Container;
use std::alloc::{AllocError, Global};

/// The containers that are open, from the outermost on, and how many of them are quotes.
#[derive(Drop)]
pub(crate) struct OpenContainers {
    pub(crate) kinds: Vec<Container>,
    pub(crate) quotes: usize,
    ghost counted: { quotes ≡ quote_count (map kind_of kinds.items) },
}

/// How many of these are quotes.
fn quote_count(kinds: &[Container]) -> usize
    ensures { result ≡ quote_count (map kind_of kinds.now) }
{
    let mut count = 0;
    for kind in kinds {
        count += kind.quotes();
    }
    count
}

impl OpenContainers {
    pub(crate) fn new(alloc: Global) -> OpenContainers
        ensures { result.kinds.items ≡ [] }
    {
        OpenContainers {
            kinds: Vec::new(alloc),
            quotes: 0,
        }
    }

    pub(crate) fn push(&mut self, kind: Container) -> Result<(), AllocError>
        ensures { OnOk result (self.new.kinds.items ≡ self.old.kinds.items ++ (kind ∷ [])) }
    {
        self.kinds.push(kind)?;
        self.quotes += kind.quotes();
        Ok(())
    }

    /// Keeps so many.
    pub(crate) fn truncate(&mut self, depth: usize)
        requires { depth ≤ length self.now.kinds.items }
        ensures { self.new.kinds.items ≡ take depth self.old.kinds.items }
    {
        self.quotes -= quote_count(&self.kinds[depth..]);
        self.kinds.truncate(depth);
    }
}

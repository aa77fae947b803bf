//! The lines of an open leaf as one text.
ghost use Rattle.std.specs.Prelude.{◌≡◌, ◌∷◌, ◌++◌, ℕ, [], List, IfOk, OnOk};
ghost use Rattle.htmd_commonmark_reading.specs.Boxes.{joined_lines};
ghost use Rattle.htmd_commonmark_reader.specs.LineViews.{line_of};
ghost use Rattle.htmd_commonmark_reader.specs.OpenLeaves.{IsRows};

use crate::leaf_texts::{push_break, push_line};
use crate::lines::Line;
use std::alloc::{AllocError, Global};

/// Lines with a line feed between two.
#[derive(Drop)]
pub(crate) struct Rows {
    pub(crate) text: String,
    pub(crate) is_empty: bool,
}

impl Rows {
    pub(crate) fn new(alloc: Global) -> Rows
        ensures { IsRows [] result }
    {
        Rows {
            text: String::new(alloc),
            is_empty: true,
        }
    }

    pub(crate) fn copied(&self, alloc: Global) -> Result<Rows, AllocError>
        ensures { IfOk result (λ rows. (ls : List (List ℕ)) → IsRows ls self.now → IsRows ls rows) }
    {
        let text = String::from_str(alloc, self.text.as_str())?;
        Ok(Rows {
            text,
            is_empty: self.is_empty,
        })
    }

    /// Appends a line.
    pub(crate) fn push(&mut self, line: Line<'_>) -> Result<(), AllocError>
        ensures { OnOk result ((ls : List (List ℕ)) → IsRows ls self.old
            → IsRows (ls ++ ((line_of line.entry).text ∷ [])) self.new) }
    {
        push_line(&mut self.text, self.is_empty, line)?;
        self.is_empty = false;
        Ok(())
    }

    /// Appends lines that are a text.
    pub(crate) fn push_text(&mut self, text: &str) -> Result<(), AllocError>
        ensures { OnOk result ((ls : List (List ℕ)) (s : List ℕ) (more : List (List ℕ)) → IsRows ls self.old
            → text.now ≡ joined_lines (s ∷ more) → IsRows (ls ++ (s ∷ more)) self.new) }
    {
        push_break(&mut self.text, self.is_empty)?;
        self.text.push_str(text)?;
        self.is_empty = false;
        Ok(())
    }

    /// Appends the lines of others, which are none then.
    pub(crate) fn take_all(&mut self, others: &mut Rows) -> Result<(), AllocError>
        ensures all { OnOk result ((ls more : List (List ℕ)) → IsRows ls self.old → IsRows more others.old
            → IsRows (ls ++ more) self.new) }
        ensures none { OnOk result ((more : List (List ℕ)) → IsRows more others.old → IsRows [] others.new) }
    {
        if others.is_empty {
            return Ok(());
        }
        self.push_text(others.text.as_str())?;
        others.text.clear();
        others.is_empty = true;
        Ok(())
    }
}

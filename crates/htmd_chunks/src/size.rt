//! How much room a text takes in a piece.
ghost use Rattle.std.specs.Prelude.{◌≡◌, IfOk};
ghost use Rattle.htmd_chunks.specs.Sizes as spec;

use crate::numbers::{product, sum};
use std::alloc::AllocError;

/// How many bytes a text has, and how many lines with and without something in them.
#[derive(Clone, Copy)]
pub struct Size {
    pub bytes: usize,
    pub full: usize,
    pub empty: usize,
}

/// How many bytes are before each line with something in it, and before each empty one.
#[derive(Clone, Copy)]
pub struct Margin {
    pub full: usize,
    pub empty: usize,
}

impl Size {
    /// Of nothing.
    pub(crate) const NOTHING: Size = Size {
        bytes: 0,
        full: 0,
        empty: 0,
    };

    /// Of one line with something in it.
    pub(crate) fn of_line(bytes: usize) -> Size
        ensures { result ≡ record { bytes = bytes; full = 1; empty = 0 } }
    {
        Size {
            bytes,
            full: 1,
            empty: 0,
        }
    }

    /// Of a text.
    pub(crate) fn of_text(text: &str) -> Result<Size, AllocError>
        ensures { IfOk result (λ size. size ≡ spec.text_size text.now) }
    {
        let mut full: usize = 0;
        let mut empty: usize = 0;
        for line in text.split('\n') {
            if line.is_empty() {
                empty = sum(empty, 1)?;
            } else {
                full = sum(full, 1)?;
            }
        }
        Ok(Size {
            bytes: text.len(),
            full,
            empty,
        })
    }

    /// Of what is between two blocks.
    pub(crate) fn of_gap(is_tight: bool) -> Size
        ensures { result ≡ spec.gap_size is_tight }
    {
        if is_tight {
            Size {
                bytes: 1,
                full: 0,
                empty: 0,
            }
        } else {
            Size {
                bytes: 2,
                full: 0,
                empty: 1,
            }
        }
    }

    /// With what comes after it.
    pub(crate) fn plus(self, other: Size) -> Result<Size, AllocError>
        ensures { IfOk result (λ size. size ≡ spec.plus self other) }
    {
        Ok(Size {
            bytes: sum(self.bytes, other.bytes)?,
            full: sum(self.full, other.full)?,
            empty: sum(self.empty, other.empty)?,
        })
    }

    /// The same in a quote.
    pub(crate) fn quoted(self) -> Result<Size, AllocError>
        ensures { IfOk result (λ size. size ≡ spec.quoted_size self) }
    {
        let bytes = sum(self.bytes, product(2, self.full)?)?;
        Ok(Size {
            bytes: sum(bytes, self.empty)?,
            full: sum(self.full, self.empty)?,
            empty: 0,
        })
    }

    /// The same in an item of this width.
    pub(crate) fn indented(self, width: usize) -> Result<Size, AllocError>
        ensures { IfOk result (λ size. size ≡ spec.indented_size width self) }
    {
        Ok(Size {
            bytes: sum(self.bytes, product(width, self.full)?)?,
            ..self
        })
    }
}

impl Margin {
    /// Nothing is before a line.
    pub(crate) const NONE: Margin = Margin { full: 0, empty: 0 };

    /// The margin in a quote.
    pub(crate) fn in_quote(self) -> Result<Margin, AllocError>
        ensures { IfOk result (λ m. m ≡ spec.in_quote self) }
    {
        Ok(Margin {
            full: sum(self.full, 2)?,
            empty: sum(self.full, 1)?,
        })
    }

    /// The margin in an item of this width.
    pub(crate) fn in_item(self, width: usize) -> Result<Margin, AllocError>
        ensures { IfOk result (λ m. m ≡ spec.in_item width self) }
    {
        Ok(Margin {
            full: sum(self.full, width)?,
            empty: self.empty,
        })
    }

    /// The bytes of a text of this size after the margin.
    pub(crate) fn cost(self, size: Size) -> Result<usize, AllocError>
        ensures { IfOk result (λ bytes. bytes ≡ spec.cost self size) }
    {
        let full = sum(size.bytes, product(size.full, self.full)?)?;
        sum(full, product(size.empty, self.empty)?)
    }
}

//! What pieces are measured by.
ghost use Rattle.std.specs.Prelude.{◌≡◌, ◌<◌, ◌^◌, IfOk};
ghost use Rattle.htmd_chunks.specs.Measures as spec;

use crate::numbers::sum;
use crate::size::Size;
use htmd_commonmark::DocumentOptions;
use htmd_markdown::aligned_spaces;
use htmd_text::digits;
use std::alloc::AllocError;

/// How many bytes a piece may have, and how it is written.
#[derive(Drop)]
pub struct Bounds {
    pub most: usize,
    pub options: DocumentOptions,
}

/// A list: its start if it is numbered, and how many items it has.
#[derive(Clone, Copy)]
pub struct ListShape {
    pub start: Option<u32>,
    pub is_tight: bool,
    pub count: usize,
}

impl ListShape {
    /// The length of the marker of the item at this place.
    fn marker_len(self, place: usize) -> Result<usize, AllocError>
        requires { place < 2 ^ 63 }
        ensures { IfOk result (λ len. len ≡ spec.marker_len self.start place) }
    {
        match self.start {
            Some(start) => sum(digits(start as usize + place), 1),
            None => Ok(1),
        }
    }

    /// How many spaces are after that marker.
    fn spaces_len(self, options: &DocumentOptions, place: usize) -> usize
        requires place { place < 2 ^ 63 }
        requires count { self.count < 2 ^ 63 }
        ensures { result ≡ spec.spaces_len options.now self.start self.count place }
    {
        let spacing = match self.start {
            Some(start) => {
                let start = start as usize;
                let highest = (start + self.count).saturating_sub(1);
                aligned_spaces(options.ol_number_spacing, highest, start + place)
            }
            None => options.ul_bullet_spacing as usize,
        };
        spacing.max(1).min(4)
    }

    /// How wide the margin of that item is.
    pub(crate) fn item_width(
        self,
        options: &DocumentOptions,
        place: usize,
    ) -> Result<usize, AllocError>
        requires place { place < 2 ^ 63 }
        requires count { self.count < 2 ^ 63 }
        ensures { IfOk result (λ width. width ≡ spec.item_width options.now self place) }
    {
        sum(self.marker_len(place)?, self.spaces_len(options, place))
    }

    /// The size of that item if it is empty.
    pub(crate) fn empty_item_size(self, place: usize) -> Result<Size, AllocError>
        requires { place < 2 ^ 63 }
        ensures { IfOk result (λ size. size ≡ spec.empty_item_size self place) }
    {
        Ok(Size::of_line(self.marker_len(place)?))
    }
}

//! What is known of the content of an element.

/// What is known of the content of an element, from before anchors were put in.
#[derive(Clone, Copy, PartialEq, Eq)]
pub struct Facts {
    /// Whether nothing of it is to be seen.
    pub is_blank: bool,
    /// How many `pre` are in it, up to two.
    pub pres: u8,
    /// Whether a table is in it.
    pub holds_table: bool,
    /// Whether a header cell is in it.
    pub holds_header: bool,
    /// Whether all that shows of it is one usual sign.
    pub shows_sign: bool,
    /// How many things of it may show: texts that aren't blank, images and the like, code blocks.
    pub leaves: u32,
}

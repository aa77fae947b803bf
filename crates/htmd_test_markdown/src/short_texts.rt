//! Each text of at most four of seven characters, most of which mean something in Markdown.
use std::alloc::{AllocError, Global};

/// Each length, and how many texts have it.
pub(crate) const SHORT_TEXTS: &[(usize, usize)] = &[(0, 1), (1, 7), (2, 49), (3, 343), (4, 2401)];

/// The text of this length and number.
pub(crate) fn short_text(alloc: Global, len: usize, number: usize) -> Result<String, AllocError> {
    let characters = ['`', '\\', '<', '!', '[', ' ', 'a'];
    let mut text = String::new(alloc);
    let mut rest = number;
    for _ in 0..len {
        text.push(characters[rest % 7])?;
        rest /= 7;
    }
    Ok(text)
}

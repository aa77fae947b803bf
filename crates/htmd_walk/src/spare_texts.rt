//! Texts that a conversion is done with; their memory is used for the next ones.

ghost use Rattle.std.specs.Prelude.{◌≡◌, [], string_bytes};

use std::alloc::Global;
use std::cell::Cell;

/// At most this many are kept: about as many as are written at a time, one for each level of nesting.
const MOST: usize = 16;

/// Texts that are done with, and the allocator of the conversion.
#[derive(Drop)]
pub(crate) struct SpareTexts {
    pub(crate) alloc: Global,
    texts: Cell<Vec<String>>,
}

impl SpareTexts {
    /// None yet.
    pub(crate) fn new(alloc: Global) -> SpareTexts {
        SpareTexts {
            alloc,
            texts: Cell::new(Vec::new(alloc)),
        }
    }

    /// An empty text, in the memory of one that is done with if there is one.
    pub(crate) fn take(&self) -> String
        ensures { string_bytes result ≡ [] }
    {
        let mut texts = self.texts.replace(Vec::new(self.alloc));
        let text = texts.pop();
        self.texts.set(texts);
        match text {
            Some(mut text) => {
                text.clear();
                text
            }
            None => String::new(self.alloc),
        }
    }

    /// Keeps a text that is done with, unless there are enough or there is no memory for one more.
    pub(crate) fn keep(&self, text: String) {
        if text.capacity() == 0 {
            return;
        }
        let mut texts = self.texts.replace(Vec::new(self.alloc));
        if texts.len() < MOST {
            let _ = texts.push(text);
        }
        self.texts.set(texts);
    }
}

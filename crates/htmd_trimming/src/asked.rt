//! What can be asked of a page.
use htmd_nodes::Tree;
use std::alloc::Global;

/// How images are kept.
#[derive(Debug, Clone, Copy, PartialEq, Eq, Default)]
pub enum Images {
    #[default]
    Keep,
    /// Those whose address has the file in itself give way to their text.
    Linked,
    /// All give way to their text.
    Alt,
    Drop,
}

/// What is asked of a page.
#[derive(Clone, Copy)]
pub(crate) struct Asked {
    /// Hidden elements go.
    pub(crate) visible: bool,
    pub(crate) images: Images,
    /// What leads elsewhere doesn't say where.
    pub(crate) links_as_text: bool,
    /// Elements `title` go.
    pub(crate) untitled: bool,
}

impl Asked {
    /// All stays.
    pub(crate) const NOTHING: Asked = Asked {
        visible: false,
        images: Images::Keep,
        links_as_text: false,
        untitled: false,
    };
}

/// A page, and what is asked of it.
#[derive(Clone, Copy)]
pub(crate) struct Page<'t> {
    pub(crate) tree: &'t Tree,
    pub(crate) asked: Asked,
    pub(crate) alloc: Global,
}

//! A law of the definitions: it is the contract of a function that does nothing.
ghost use Rattle.htmd_nodes.specs.Layout.{LayoutDenotes};

/// A document laid out in document order denotes that document.
pub fn layout_denotes()
    ensures { LayoutDenotes }
{}

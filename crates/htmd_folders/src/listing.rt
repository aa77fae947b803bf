//! What is below a folder.
use crate::faults::StoreFault;

/// The files below a folder, in no order that is told. A path goes from that folder on, with `/` between its names.
#[derive(Drop)]
pub struct Listing {
    pub files: Vec<String>,
    /// What is of concern and can't be read: folders, and names that aren't UTF-8, with U+FFFD in place of what isn't.
    pub unread: Vec<Unread>,
}

/// A path that can't be read, and why.
#[derive(Drop)]
pub struct Unread {
    pub path: String,
    pub fault: StoreFault,
}

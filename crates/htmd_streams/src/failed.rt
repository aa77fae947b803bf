//! A read or a write that failed.

/// A read or a write failed.
#[derive(Debug, Clone, Copy, PartialEq, Eq)]
pub struct Failed;

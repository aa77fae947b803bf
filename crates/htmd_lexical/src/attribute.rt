//! An attribute, as trees and tags hold it.

/// An attribute of an element.
#[derive(Debug, PartialEq, Eq, Drop)]
pub struct Attribute {
    pub name: String,
    pub value: String,
}

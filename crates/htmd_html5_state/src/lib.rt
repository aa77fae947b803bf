//! The state of tree construction and the steps on it (HTML Standard, 13.2.4 and 13.2.6): documents while they are
//! made, the stack of open elements, the list of active formatting elements, and what the insertion modes do with them.
#![tactic(auto, using(std::proofs::lemmas::Grind::common_steps))]

mod adoption;
mod attributes;
mod children;
mod document;
mod foreign;
mod foreign_places;
mod formatting;
mod formatting_list;
mod insertion;
mod modes;
mod names;
mod open_elements;
mod places;
mod resetting;
mod sets;
mod state;

pub use children::Children;
pub use document::{Node, NodeKind, OtherElement};
pub use modes::InsertionMode;
pub use names::{ElementName, HtmlName, Namespace, TagName};
pub use sets::{NameSet, Scope};
pub use state::HtmlState;

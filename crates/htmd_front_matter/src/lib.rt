//! What the head of a page says about it, as lines of YAML or as JSON.
#![tactic(auto)]

mod lines;
mod objects;
mod sources;
mod titles;
mod values;

pub use lines::front_matter;
pub use objects::front_object;
pub use titles::title_of;

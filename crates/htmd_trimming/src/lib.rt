//! What people ask for of a page, as changes of its tree: without what is hidden, with other images or with links as
//! text, and with its title as a heading.
#![tactic(auto)]

mod asked;
mod copying;
mod fates;
mod formulas;
mod hidden;
mod titles;
mod trimming;

pub use asked::Images;
pub use titles::titled_page;
pub use trimming::{plainer_page, visible_page};

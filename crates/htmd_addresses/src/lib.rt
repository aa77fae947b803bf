//! The addresses of a page, made absolute, or leading to the outputs of other pages: functions from trees to trees. And
//! the URL of a page of a folder.
#![tactic(auto)]

mod absolute;
mod attributes;
mod bases;
mod leads;
mod page_urls;
mod pages;
mod paths;
mod resolving;
mod sets;

pub use absolute::make_absolute;
pub use bases::{base_address, base_of};
pub use leads::{RunPage, lead_to_pages};
pub use page_urls::page_url;
pub use pages::{Page, Pages};

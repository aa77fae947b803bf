//! A page by its bytes and settings.
use htmd::{PageError, PageSettings, Selectors, convert_page};
use std::alloc::Global;

/// The Markdown of the parts of a page that the selectors find, as a reader of the page sees them.
pub(crate) fn selected_parts(
    alloc: Global,
    page: &[u8],
    selected: Selectors,
) -> Result<String, PageError> {
    let mut settings = PageSettings::new(alloc);
    settings.html5 = true;
    settings.guarded = true;
    settings.selected = selected;
    convert_page(alloc, page, &settings)
}

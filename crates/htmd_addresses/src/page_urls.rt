//! The URL of a page of a folder.
ghost use Rattle.std.specs.Prelude.{◌≡◌, IfOk};
ghost use Rattle.htmd_addresses.specs.PageUrls as spec;

use crate::leads::relative;
use crate::resolving::url_of;
use std::alloc::{AllocError, Global};
use url::Url;

/// The URL of the page with this path in a folder with this URL, whose names are escaped: `a/b c.html` in
/// `https://example.org/docs/` is at `https://example.org/docs/a/b%20c.html`. None if the URL is of no folder, as
/// `mailto:x`. `Err` means out of memory, or a URL of 4 GB.
pub fn page_url(alloc: Global, url: &Url, path: &str) -> Result<Option<Url>, AllocError>
    ensures ok { IfOk result (λ found. found ≡ spec.page_url url.now path.now) }
{
    let address = relative(alloc, &[], path)?;
    url_of(url.join(address.as_str()))
}

//! The pages of a plan, as addresses find them.
ghost use Rattle.std.specs.Prelude.{◌≡◌, IfOk, option_map};
ghost use Rattle.htmd_addresses.specs.RunViews.{pages_in};
ghost use Rattle.htmd_files.specs.WordViews.{job_in};
ghost use Rattle.htmd_command.specs.PageResults.{pages_led_to};

use htmd_addresses::{Page as LedPage, Pages};
use htmd_files::{Job, Page};
use std::alloc::{AllocError, Global};

/// The pages whose addresses should lead to each other's outputs, if requested.
pub(crate) fn led_pages(
    alloc: Global,
    job: &Job<'_>,
    pages: &[Page],
) -> Result<Option<Pages>, AllocError>
    ensures { IfOk result
        (λ led. option_map pages_in led ≡ pages_led_to (job_in job.now) pages.now) }
{
    if !job.links_to_markdown {
        return Ok(None);
    }
    let mut led = Vec::with_capacity(alloc, pages.len())?;
    for page in pages {
        let input = String::from_str(alloc, &page.input)?;
        let output = String::from_str(alloc, &page.output)?;
        led.push(LedPage { input, output })?;
    }
    Ok(Some(Pages::new(alloc, led)?))
}

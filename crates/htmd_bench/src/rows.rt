//! How long a batch takes, compared with only the conversions of its pages.

use crate::faults::Fault;
use crate::speed::Speed;
use htmd::HtmlToMarkdown;
use htmd_cli::{Input, Output, Settings, run_rows};
use std::io;
use std::time::{Duration, Instant};

/// Tells how long the rows of the input take as a batch, and how long `convert` takes on their pages by one
/// converter: the best of this many rounds each. A row is a page alone, without escapes.
pub(crate) fn tell_rows(rt: &HostRuntime, input: &str, rounds: u32) -> Result<(), Fault> {
    let mut batch = batch_time(rt, input)?;
    let mut alone = conversions_time(rt, input)?;
    for _ in 1..rounds {
        batch = batch.min(batch_time(rt, input)?);
        alone = alone.min(conversions_time(rt, input)?);
    }
    let batch = Speed::new(input.len(), batch);
    let alone = Speed::new(input.len(), alone);
    println!(rt; "rows: {batch}")?;
    println!(rt; "convert of each page: {alone}")?;
    Ok(())
}

/// How long the batch takes once.
fn batch_time(rt: &HostRuntime, input: &str) -> Result<Duration, Fault> {
    let settings = Settings::new(rt.alloc());
    let mut source = Input::new(input.as_bytes());
    let mut sink = Output::new(io::sink());
    let mut errors = Output::new(io::sink());
    let start = Instant::now(rt)?;
    run_rows(
        rt.alloc(),
        &mut source,
        &mut sink,
        &mut errors,
        &settings,
        false,
    )?;
    Ok(start.elapsed(rt)?)
}

/// How long the conversions of the pages take once.
fn conversions_time(rt: &HostRuntime, input: &str) -> Result<Duration, Fault> {
    let start = Instant::now(rt)?;
    let converter = HtmlToMarkdown::new(rt.alloc())?;
    for page in input.lines() {
        converter.convert(rt.alloc(), page)?;
    }
    Ok(start.elapsed(rt)?)
}

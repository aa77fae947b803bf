//! The lines that a run prints.
use super::doubles::{Twice, options};
use htmd_files::Page;
use htmd_folders::{MemoryStore, MemoryWriter, Progress, ShownName, Tally, run_pages, write_total};
use htmd_test_expected::expect_text;
use std::alloc::{AllocError, Global};
use std::test::Fail;

fn page(alloc: Global, number: usize) -> Result<Page, AllocError> {
    Ok(Page {
        input: format!(in alloc; "{number}.html")?,
        output: format!(in alloc; "{number}.md")?,
        path_in_folder: None,
        is_copy: false,
    })
}

// A run of so many pages, each of which holds one byte, but the one of this number is refused.
fn expect_said(
    alloc: Global,
    count: usize,
    refused: usize,
    progress: Progress,
    wanted: &str,
) -> Result<(), Fail> {
    let mut store = MemoryStore::new(alloc);
    let mut pages = Vec::new(alloc);
    for number in 0..count {
        let page = page(alloc, number)?;
        let text = if number == refused { "!" } else { "a" };
        store.place(&page.input, text.as_bytes())?;
        pages.push(page)?;
    }
    let mut errors = MemoryWriter::new(alloc);
    run_pages(
        alloc,
        &mut store,
        &Twice { alloc },
        &pages,
        &mut errors,
        options(progress),
    );
    let said = errors.into_bytes();
    expect_text(wanted, str::from_utf8(&said)?, wanted)
}

const BLANK: &str = "\r                                                            \r";

// A count is written before the first page and after each sixteen, and is erased before a line and at the end.
#[test]
fn counts(rt: HostRuntime) -> Result<(), Fail> {
    let alloc = rt.alloc();
    expect_said(alloc, 17, 99, Progress::Total, "")?;
    expect_said(alloc, 1, 99, Progress::Count, "")?;
    expect_said(alloc, 1, 0, Progress::Quiet, "htmd: 0.html: refused\n")?;
    let wanted = format!(in alloc; "\rhtmd: 0 of 17 pages\rhtmd: 16 of 17 pages{BLANK}")?;
    expect_said(alloc, 17, 99, Progress::Count, &wanted)?;
    let wanted = format!(in alloc; "\rhtmd: 0 of 2 pages{BLANK}htmd: 1.html: refused\n{BLANK}")?;
    expect_said(alloc, 2, 1, Progress::Count, &wanted)
}

#[test]
fn writes_the_total(rt: HostRuntime) -> Result<(), Fail> {
    const ROWS: &[(u64, u64, u64, u64, &str)] = &[
        (0, 0, 0, 2, "htmd: 0 pages converted, 2 failed\n"),
        (1, 0, 0, 1, "htmd: 1 page converted, 1 failed\n"),
        (999, 0, 0, 0, "htmd: 999 pages converted, 0 failed\n"),
        (
            1_962,
            1,
            1_000,
            3,
            "htmd: 1,962 pages converted, 3 failed, 1 file copied, 1,000 up to date\n",
        ),
        (
            1_002_003,
            2_000,
            0,
            40_000,
            "htmd: 1,002,003 pages converted, 40,000 failed, 2,000 files copied\n",
        ),
    ];
    for &(converted, copied, up_to_date, failed, wanted) in ROWS {
        let mut errors = MemoryWriter::new(rt.alloc());
        let tally = Tally {
            converted,
            copied,
            up_to_date,
            failed,
        };
        write_total(&mut errors, Progress::Total, tally);
        write_total(&mut errors, Progress::Quiet, tally);
        let said = errors.into_bytes();
        expect_text(wanted, str::from_utf8(&said)?, wanted)?;
    }
    Ok(())
}

// A name in a line takes one line.
#[test]
fn shows_names(rt: HostRuntime) -> Result<(), Fail> {
    let shown = format!(in rt.alloc(); "{}", ShownName("a\nb\u{1b}[1m\u{e9}"))?;
    expect_text("controls", &shown, "a\u{fffd}b\u{fffd}[1m\u{e9}")
}

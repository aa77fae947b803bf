//! A file that is copied has the bytes of its input, whatever the conversion makes of pages.
use super::doubles::{Call, FailingStore, Twice, options};
use htmd_files::Page;
use htmd_folders::{MemoryStore, MemoryWriter, Progress, Tally, run_pages};
use htmd_test_expected::{expect_text, expect_that};
use std::alloc::{AllocError, Global};
use std::test::Fail;

/// Longer than what is read at once.
const LENGTH: usize = 70_000;

fn image(alloc: Global) -> Result<Vec<u8>, AllocError> {
    let mut bytes = Vec::new(alloc);
    for number in 0..LENGTH {
        bytes.push((number % 251) as u8)?;
    }
    Ok(bytes)
}

fn push(
    alloc: Global,
    pages: &mut Vec<Page>,
    input: &str,
    output: &str,
    is_copy: bool,
) -> Result<(), AllocError> {
    pages.push(Page {
        input: String::from_str(alloc, input)?,
        output: String::from_str(alloc, output)?,
        path_in_folder: None,
        is_copy,
    })?;
    Ok(())
}

fn pages(alloc: Global) -> Result<Vec<Page>, AllocError> {
    let mut pages = Vec::new(alloc);
    push(alloc, &mut pages, "in/a.html", "out/a.md", false)?;
    push(alloc, &mut pages, "in/b.png", "out/b.png", true)?;
    Ok(pages)
}

// A store with a page and an image, of which a call fails for the image.
fn store(alloc: Global, fails: Call, page: usize) -> Result<FailingStore, AllocError> {
    let mut inner = MemoryStore::new(alloc);
    inner.place("in/a.html", b"a")?;
    inner.place("in/b.png", &image(alloc)?)?;
    Ok(FailingStore {
        inner,
        fails,
        page,
        opened: 0,
        keeps: false,
    })
}

fn expect_run(
    alloc: Global,
    store: &mut FailingStore,
    wanted: Tally,
    line: &str,
) -> Result<(), Fail> {
    let mut errors = MemoryWriter::new(alloc);
    let pages = pages(alloc)?;
    let tally = run_pages(
        alloc,
        store,
        &Twice { alloc },
        &pages,
        &mut errors,
        options(Progress::Quiet),
    );
    expect_that("tally", tally == wanted)?;
    let said = errors.into_bytes();
    expect_text("line", str::from_utf8(&said)?, line)?;
    expect_that("page", store.inner.bytes("out/a.md") == Some(b"aa"))
}

#[test]
fn copies_a_file(rt: HostRuntime) -> Result<(), Fail> {
    let alloc = rt.alloc();
    let wanted = Tally {
        converted: 1,
        copied: 1,
        up_to_date: 0,
        failed: 0,
    };
    let mut store = store(alloc, Call::Open, 9)?;
    expect_run(alloc, &mut store, wanted, "")?;
    let image = image(alloc)?;
    expect_that(
        "image",
        store.inner.bytes("out/b.png") == Some(image.as_slice()),
    )
}

#[test]
fn says_why_a_copy_failed(rt: HostRuntime) -> Result<(), Fail> {
    const LINES: &[(Call, &str)] = &[
        (Call::Open, "htmd: in/b.png: permission denied\n"),
        (Call::Read, "htmd: in/b.png: read failed\n"),
        (Call::Write, "htmd: in/b.png: write failed\n"),
        (Call::Flush, "htmd: in/b.png: write failed\n"),
        (
            Call::Publish,
            "htmd: in/b.png: out/b.png can't be written: permission denied\n",
        ),
    ];
    let alloc = rt.alloc();
    let wanted = Tally {
        converted: 1,
        copied: 0,
        up_to_date: 0,
        failed: 1,
    };
    for (call, line) in LINES {
        let mut store = store(alloc, *call, 1)?;
        expect_run(alloc, &mut store, wanted, line)?;
        expect_that(line, store.inner.bytes("out/b.png").is_none())?;
        expect_that(line, store.inner.is_free("out/b.png.0.htmd-partial"))?;
    }
    Ok(())
}

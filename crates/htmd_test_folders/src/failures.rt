//! Each call of a store fails in turn: the run goes on, and no output holds a part of a page.
use super::doubles::{Call, FailingStore, Twice, options};
use htmd_files::Page;
use htmd_folders::{MemoryStore, MemoryWriter, Progress, run_pages};
use htmd_test_expected::{expect_text, expect_that};
use std::alloc::{AllocError, Global};
use std::test::Fail;

/// The pages of the runs: their names, what they hold, and what their outputs held before.
const PAGES: &[(&str, &str, Option<&str>)] = &[
    ("in/a.html", "a", None),
    ("in/b.html", "bc", Some("old b")),
    ("in/c.html", "d", Some("old c")),
];

fn output_of(alloc: Global, input: &str) -> Result<String, AllocError> {
    let name = input
        .strip_prefix("in/")
        .unwrap_or(input)
        .strip_suffix("html")
        .unwrap_or(input);
    format!(in alloc; "out/{name}md")
}

fn pages(alloc: Global) -> Result<Vec<Page>, AllocError> {
    let mut pages = Vec::new(alloc);
    for (input, _, _) in PAGES {
        pages.push(Page {
            input: String::from_str(alloc, input)?,
            output: output_of(alloc, input)?,
            path_in_folder: None,
            is_copy: false,
        })?;
    }
    Ok(pages)
}

fn store(alloc: Global) -> Result<MemoryStore, AllocError> {
    let mut store = MemoryStore::new(alloc);
    for (input, text, before) in PAGES {
        store.place(input, text.as_bytes())?;
        if let Some(before) = before {
            store.place(&output_of(alloc, input)?, before.as_bytes())?;
        }
    }
    Ok(store)
}

/// The line for a page whose call fails.
fn line_of(alloc: Global, call: Call, input: &str) -> Result<String, AllocError> {
    let output = output_of(alloc, input)?;
    match call {
        Call::Open => format!(in alloc; "htmd: {input}: permission denied\n"),
        Call::Read => format!(in alloc; "htmd: {input}: read failed\n"),
        Call::Write | Call::Flush => format!(in alloc; "htmd: {input}: write failed\n"),
        Call::Folder | Call::Create | Call::Publish => {
            format!(in alloc; "htmd: {input}: {output} can't be written: permission denied\n")
        }
    }
}

// A name holds this text, or no complete file.
fn expect_held(store: &MemoryStore, name: &str, wanted: Option<&str>) -> Result<(), Fail> {
    match (store.bytes(name), wanted) {
        (Some(bytes), Some(text)) => expect_text(name, str::from_utf8(bytes)?, text),
        (found, wanted) => expect_that(name, found.is_none() && wanted.is_none()),
    }
}

// What the output of a page holds after a run in which this page failed: what it held before, and else the page twice.
fn expect_output(
    alloc: Global,
    store: &MemoryStore,
    page: usize,
    failed: usize,
) -> Result<(), Fail> {
    let Some((input, text, before)) = PAGES.get(page) else {
        return Ok(());
    };
    let output = output_of(alloc, input)?;
    if page == failed {
        return expect_held(store, &output, *before);
    }
    let twice = format!(in alloc; "{text}{text}")?;
    expect_held(store, &output, Some(&twice))
}

// An unfinished output stays only if it can't be taken away, and never holds a whole file.
fn expect_no_unfinished(alloc: Global, store: &MemoryStore, keeps: bool) -> Result<(), Fail> {
    for (input, _, _) in PAGES {
        let output = output_of(alloc, input)?;
        let name = format!(in alloc; "{output}.0.htmd-partial")?;
        expect_that(&name, keeps || store.is_free(&name))?;
        expect_held(store, &name, None)?;
    }
    Ok(())
}

// The page of this number fails at this call.
fn expect_failure(alloc: Global, call: Call, failed: usize, keeps: bool) -> Result<(), Fail> {
    let mut store = FailingStore {
        inner: store(alloc)?,
        fails: call,
        page: failed,
        opened: 0,
        keeps,
    };
    let mut errors = MemoryWriter::new(alloc);
    let pages = pages(alloc)?;
    let tally = run_pages(
        alloc,
        &mut store,
        &Twice { alloc },
        &pages,
        &mut errors,
        options(Progress::Total),
    );
    expect_that("converted", tally.converted == 2)?;
    expect_that("failed", tally.failed == 1)?;
    let Some((input, _, _)) = PAGES.get(failed) else {
        return Ok(());
    };
    let line = line_of(alloc, call, input)?;
    let said = errors.into_bytes();
    expect_text(input, str::from_utf8(&said)?, &line)?;
    for page in 0..PAGES.len() {
        expect_output(alloc, &store.inner, page, failed)?;
    }
    expect_no_unfinished(alloc, &store.inner, keeps)
}

#[test]
fn each_call_fails_in_turn(rt: HostRuntime) -> Result<(), Fail> {
    const CALLS: &[Call] = &[
        Call::Open,
        Call::Read,
        Call::Folder,
        Call::Create,
        Call::Write,
        Call::Flush,
        Call::Publish,
    ];
    for call in CALLS {
        for page in 0..PAGES.len() {
            expect_failure(rt.alloc(), *call, page, false)?;
            expect_failure(rt.alloc(), *call, page, true)?;
        }
    }
    Ok(())
}

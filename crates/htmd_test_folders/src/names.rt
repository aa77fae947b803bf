//! What is under the names that a page is written to stays, unless it is a file in the output's place.
use super::doubles::{Twice, options};
use htmd_files::Page;
use htmd_folders::{MemoryStore, MemoryWriter, Progress, Store, StoreFault, run_pages};
use htmd_test_expected::{expect_text, expect_that};
use std::alloc::{AllocError, Global};
use std::test::Fail;

// A store with a page.
fn store(alloc: Global) -> Result<MemoryStore, AllocError> {
    let mut store = MemoryStore::new(alloc);
    store.place("a.html", b"a")?;
    Ok(store)
}

// Converts the page, and expects these lines.
fn expect_said(alloc: Global, store: &mut MemoryStore, wanted: &str) -> Result<(), Fail> {
    let mut pages = Vec::new(alloc);
    pages.push(Page {
        input: String::from_str(alloc, "a.html")?,
        output: String::from_str(alloc, "a.md")?,
        path_in_folder: None,
        is_copy: false,
    })?;
    let mut errors = MemoryWriter::new(alloc);
    run_pages(
        alloc,
        store,
        &Twice { alloc },
        &pages,
        &mut errors,
        options(Progress::Quiet),
    );
    let said = errors.into_bytes();
    expect_text("what is said", str::from_utf8(&said)?, wanted)
}

fn expect_bytes(store: &MemoryStore, name: &str, wanted: &[u8]) -> Result<(), Fail> {
    expect_that(name, store.bytes(name) == Some(wanted))
}

// A run goes on to the first name that nothing has.
#[test]
fn takes_the_next_name(rt: HostRuntime) -> Result<(), Fail> {
    let mut store = store(rt.alloc())?;
    store.place("a.md.0.htmd-partial", b"left")?;
    store.obstruct("a.md.1.htmd-partial")?;
    expect_said(rt.alloc(), &mut store, "")?;
    expect_bytes(&store, "a.md", b"aa")?;
    expect_bytes(&store, "a.md.0.htmd-partial", b"left")?;
    expect_that("obstacle", !store.is_free("a.md.1.htmd-partial"))?;
    expect_that("next", store.is_free("a.md.2.htmd-partial"))
}

#[test]
fn spares_an_obstacle(rt: HostRuntime) -> Result<(), Fail> {
    let mut store = store(rt.alloc())?;
    store.obstruct("a.md")?;
    let line = "htmd: a.html: a.md can't be written: not a file\n";
    expect_said(rt.alloc(), &mut store, line)?;
    expect_that("obstacle", !store.is_free("a.md"))?;
    expect_that("bytes", store.bytes("a.md").is_none())?;
    expect_that("beside", store.is_free("a.md.0.htmd-partial"))
}

#[test]
fn replaces_a_file(rt: HostRuntime) -> Result<(), Fail> {
    let mut store = store(rt.alloc())?;
    store.place("a.md", b"old")?;
    expect_said(rt.alloc(), &mut store, "")?;
    expect_bytes(&store, "a.md", b"aa")
}

#[test]
fn creates_only_what_is_new(rt: HostRuntime) -> Result<(), Fail> {
    let mut store = store(rt.alloc())?;
    store.obstruct("b")?;
    for name in ["a.html", "b"] {
        expect_that(name, matches!(store.create(name), Err(StoreFault::Taken)))?;
    }
    expect_bytes(&store, "a.html", b"a")
}

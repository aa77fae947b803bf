//! With newer outputs kept, a page is left alone only if its output was written later.
use super::doubles::Twice;
use htmd_files::{Page, PageKind};
use htmd_folders::{
    Listing, MemoryStore, MemoryWriter, Progress, RunOptions, Store, StoreFault, Tally, run_pages,
};
use htmd_streams::Input;
use htmd_test_expected::expect_that;
use std::alloc::{AllocError, Global};
use std::io::Cursor;
use std::test::Fail;

/// The pages by their names without the ending, when they were written, when their outputs were, if they are there, and
/// whether they are left alone.
const PAGES: &[(&str, u64, Option<u64>, bool)] = &[
    ("missing", 5, None, false),
    ("older", 5, Some(4), false),
    ("same", 5, Some(5), false),
    ("newer", 5, Some(6), true),
];

/// A store in memory whose files bear the times of these pages.
#[derive(Drop)]
struct DatedStore {
    inner: MemoryStore,
}

fn written_at(path: &str) -> Option<u64> {
    for (name, page, output, _) in PAGES {
        if path.strip_prefix(name) == Some(".html") {
            return Some(*page);
        }
        if path.strip_prefix(name) == Some(".md") {
            return *output;
        }
    }
    None
}

impl Store for DatedStore {
    type Reader = Input<Cursor<Vec<u8>>>;

    type Writer = MemoryWriter;

    fn open(&mut self, path: &str) -> Result<Input<Cursor<Vec<u8>>>, StoreFault> {
        self.inner.open(path)
    }

    fn protect(&mut self, path: &str) {
        self.inner.protect(path);
    }

    fn create(&mut self, path: &str) -> Result<MemoryWriter, StoreFault> {
        self.inner.create(path)
    }

    fn publish(&mut self, writer: MemoryWriter, from: &str, to: &str) -> Result<(), StoreFault> {
        self.inner.publish(writer, from, to)
    }

    fn discard(&mut self, writer: MemoryWriter, path: &str) {
        self.inner.discard(writer, path);
    }

    fn make_folder(&mut self, path: &str) -> Result<(), StoreFault> {
        self.inner.make_folder(path)
    }

    fn is_folder(&mut self, path: &str) -> Result<bool, StoreFault> {
        self.inner.is_folder(path)
    }

    fn is_newer(&mut self, path: &str, other: &str) -> bool {
        match (written_at(path), written_at(other)) {
            (Some(time), Some(other)) => time > other,
            _ => false,
        }
    }

    fn list(
        &mut self,
        alloc: Global,
        folder: &str,
        kind: PageKind,
        all: bool,
    ) -> Result<Listing, StoreFault> {
        self.inner.list(alloc, folder, kind, all)
    }
}

fn pages(alloc: Global) -> Result<Vec<Page>, AllocError> {
    let mut pages = Vec::new(alloc);
    for (name, _, _, _) in PAGES {
        pages.push(Page {
            input: format!(in alloc; "{name}.html")?,
            output: format!(in alloc; "{name}.md")?,
            path_in_folder: None,
            is_copy: false,
        })?;
    }
    Ok(pages)
}

fn store(alloc: Global) -> Result<MemoryStore, AllocError> {
    let mut store = MemoryStore::new(alloc);
    for page in &pages(alloc)? {
        store.place(&page.input, b"a")?;
        if written_at(&page.output).is_some() {
            store.place(&page.output, b"old")?;
        }
    }
    Ok(store)
}

// A run over the pages leaves those alone that are to be, and converts the others.
fn expect_run(alloc: Global, keeps_newer: bool, wanted: Tally) -> Result<(), Fail> {
    let mut store = DatedStore {
        inner: store(alloc)?,
    };
    let pages = pages(alloc)?;
    let options = RunOptions {
        keeps_newer,
        progress: Progress::Quiet,
    };
    let mut errors = MemoryWriter::new(alloc);
    let tally = run_pages(
        alloc,
        &mut store,
        &Twice { alloc },
        &pages,
        &mut errors,
        options,
    );
    expect_that("tally", tally == wanted)?;
    for (page, (name, _, _, is_left)) in pages.iter().zip(PAGES) {
        let text: &[u8] = if keeps_newer && *is_left {
            b"old"
        } else {
            b"aa"
        };
        expect_that(name, store.inner.bytes(&page.output) == Some(text))?;
    }
    Ok(())
}

#[test]
fn leaves_what_is_newer(rt: HostRuntime) -> Result<(), Fail> {
    let kept = Tally {
        converted: 3,
        copied: 0,
        up_to_date: 1,
        failed: 0,
    };
    expect_run(rt.alloc(), true, kept)?;
    let all = Tally {
        converted: 4,
        copied: 0,
        up_to_date: 0,
        failed: 0,
    };
    expect_run(rt.alloc(), false, all)
}

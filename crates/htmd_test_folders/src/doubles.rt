//! A store that fails where it is told to, and a conversion that is easy to follow.
ghost use Rattle.std.specs.Prelude.{◌≡◌, ◌++◌, OnOk, ⊤};
ghost use Rattle.std.specs.Io.KnownBytes.{Appends};

use htmd_files::{Page, PageKind};
use htmd_folders::{
    Conversion, Lines, Listing, MemoryStore, MemoryWriter, Progress, RunOptions, ShownName, Store,
    StoreFault,
};
use htmd_streams::{Failed, Input, Sink, Source, write_all};
use std::alloc::Global;
use std::fmt::Write;
use std::io::{Cursor, ErrorKind};

/// A call of a store, or of the files that it gives.
#[derive(Debug, Clone, Copy, PartialEq, Eq, Drop)]
pub enum Call {
    Open,
    Read,
    Folder,
    Create,
    Write,
    Flush,
    Publish,
}

/// A store in memory of which a call fails: each of this kind for the page of this number, from 0.
#[derive(Drop)]
pub struct FailingStore {
    pub inner: MemoryStore,
    pub fails: Call,
    pub page: usize,
    // How many pages were opened.
    pub opened: usize,
    // Files can't be removed either.
    pub keeps: bool,
}

const DENIED: StoreFault = StoreFault::Failed(ErrorKind::PermissionDenied);

impl FailingStore {
    fn allows(&self, call: Call) -> Result<(), StoreFault> {
        if self.fails == call && self.opened == self.page.saturating_add(1) {
            return Err(DENIED);
        }
        Ok(())
    }
}

/// A file that is read, or fails to be.
#[derive(Drop)]
pub struct FailingReader {
    inner: Input<Cursor<Vec<u8>>>,
    fails: bool,
    has_failed: bool,
}

impl Source for FailingReader {
    ghost has_failed = { λ s. s.has_failed };

    fn read(&mut self, buffer: &mut [u8]) -> Result<usize, Failed> {
        if self.fails {
            self.has_failed = true;
            return Err(Failed);
        }
        let outcome = self.inner.read(buffer);
        if outcome.is_err() {
            self.has_failed = true;
        }
        outcome
    }

    fn failed(&self) -> bool {
        self.has_failed
    }
}

/// A file that is written, or takes a byte and then fails.
#[derive(Drop)]
pub struct FailingWriter {
    inner: MemoryWriter,
    fails_to_write: bool,
    fails_to_flush: bool,
    has_byte: bool,
    has_failed: bool,
}

impl Sink for FailingWriter {
    ghost has_failed = { λ s. s.has_failed };

    fn write(&mut self, bytes: &[u8]) -> Result<usize, Failed> {
        if self.fails_to_write && self.has_byte {
            self.has_failed = true;
            return Err(Failed);
        }
        let most = if self.fails_to_write && !bytes.is_empty() {
            1
        } else {
            bytes.len()
        };
        let outcome = self.inner.write(&bytes[..most]);
        self.has_byte = true;
        if outcome.is_err() {
            self.has_failed = true;
        }
        outcome
    }

    fn flush(&mut self) -> Result<(), Failed> {
        if self.fails_to_flush {
            self.has_failed = true;
            return Err(Failed);
        }
        let outcome = self.inner.flush();
        if outcome.is_err() {
            self.has_failed = true;
        }
        outcome
    }

    fn failed(&self) -> bool {
        self.has_failed
    }
}

impl Store for FailingStore {
    type Reader = FailingReader;

    type Writer = FailingWriter;

    fn open(&mut self, path: &str) -> Result<FailingReader, StoreFault> {
        self.opened = self.opened.saturating_add(1);
        self.allows(Call::Open)?;
        Ok(FailingReader {
            fails: self.allows(Call::Read).is_err(),
            inner: self.inner.open(path)?,
            has_failed: false,
        })
    }

    fn protect(&mut self, path: &str) {
        self.inner.protect(path);
    }

    fn create(&mut self, path: &str) -> Result<FailingWriter, StoreFault> {
        self.allows(Call::Create)?;
        Ok(FailingWriter {
            inner: self.inner.create(path)?,
            fails_to_write: self.allows(Call::Write).is_err(),
            fails_to_flush: self.allows(Call::Flush).is_err(),
            has_byte: false,
            has_failed: false,
        })
    }

    fn publish(&mut self, writer: FailingWriter, from: &str, to: &str) -> Result<(), StoreFault> {
        if let Err(fault) = self.allows(Call::Publish) {
            self.discard(writer, from);
            return Err(fault);
        }
        self.inner.publish(writer.inner, from, to)
    }

    fn discard(&mut self, writer: FailingWriter, path: &str) {
        if !self.keeps {
            self.inner.discard(writer.inner, path);
        }
    }

    fn make_folder(&mut self, path: &str) -> Result<(), StoreFault> {
        self.allows(Call::Folder)?;
        self.inner.make_folder(path)
    }

    fn is_folder(&mut self, path: &str) -> Result<bool, StoreFault> {
        self.inner.is_folder(path)
    }

    fn is_newer(&mut self, path: &str, other: &str) -> bool {
        self.inner.is_newer(path, other)
    }

    fn list(
        &mut self,
        alloc: Global,
        folder: &str,
        kind: PageKind,
        all: bool,
    ) -> Result<Listing, StoreFault> {
        self.inner.list(alloc, folder, kind, all)
    }
}

/// Writes a page twice. It refuses one that begins with `!`.
#[derive(Drop)]
pub struct Twice {
    pub alloc: Global,
}

impl Conversion for Twice {
    type Fault = &'static str;

    ghost becomes = { λ _ _ _ _. ⊤ };

    fn convert<R: Source, W: Sink, E: Sink>(
        &self,
        _page: &Page,
        source: &mut R,
        sink: &mut W,
        _errors: &mut E,
    ) -> Result<(), &'static str> {
        let Ok(bytes) = read_all(self.alloc, source) else {
            return Err("read failed");
        };
        if bytes.first() == Some(&b'!') {
            return Err("refused");
        }
        match write_twice(sink, &bytes) {
            Ok(()) => Ok(()),
            Err(Failed) => Err("write failed"),
        }
    }

    fn report<E: Sink>(&self, page: &str, fault: &&'static str, errors: &mut E) {
        let page = ShownName(page);
        let _ = writeln!(Lines { sink: errors }, "htmd: {page}: {fault}");
    }
}

/// How a run goes that keeps no newer outputs.
pub fn options(progress: Progress) -> RunOptions {
    RunOptions {
        keeps_newer: false,
        progress,
    }
}

fn read_all<R: Source>(alloc: Global, source: &mut R) -> Result<Vec<u8>, Failed> {
    let mut bytes = Vec::new(alloc);
    let mut buffer = [0u8; 64];
    for _ in 0..u64::MAX {
        let count = source.read(&mut buffer)?;
        if count == 0 {
            break;
        }
        if bytes.extend_from_slice(&buffer[..count]).is_err() {
            return Err(Failed);
        }
    }
    Ok(bytes)
}

fn write_twice<W: Sink>(sink: &mut W, bytes: &[u8]) -> Result<(), Failed>
    ensures { OnOk result (Appends (W.contents sink.old) (W.contents sink.new) (bytes.now ++ bytes.now)) }
{
    write_all(sink, bytes)?;
    write_all(sink, bytes)?;
    sink.flush()
}

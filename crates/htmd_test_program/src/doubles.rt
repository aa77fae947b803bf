//! Sources, sinks, readers and writers that fail where they are told to.
ghost use Rattle.std.specs.Prelude.{◌≡◌, Some, true, false, if◌then◌else◌};

use htmd_cli::{Failed, Sink, Source};
use std::alloc::Global;
use std::io;
use std::io::{ErrorKind, Read, Write};

// A source that gives one byte for each read, and fails once its reads are used up.
#[derive(Drop)]
pub struct Dripping<'a> {
    rest: &'a [u8],
    reads_left: usize,
    has_failed: bool,
}

impl<'a> Dripping<'a> {
    pub fn new(rest: &'a [u8], reads_left: usize) -> Dripping<'a>
        ensures { result.has_failed ≡ false }
    {
        Dripping {
            rest,
            reads_left,
            has_failed: false,
        }
    }

    pub fn rest(&self) -> &'a [u8] {
        self.rest
    }

    pub fn reads_left(&self) -> usize {
        self.reads_left
    }
}

impl Source for Dripping<'_> {
    ghost remaining = { λ s. Some s.rest.now };

    ghost has_failed = { λ s. s.has_failed };

    fn read(&mut self, buffer: &mut [u8]) -> Result<usize, Failed> {
        if self.reads_left == 0 {
            self.has_failed = true;
            return Err(Failed);
        }
        self.reads_left -= 1;
        if buffer.is_empty() {
            return Ok(0);
        }
        let Some((first, rest)) = self.rest.split_first() else {
            return Ok(0);
        };
        buffer[0] = *first;
        self.rest = rest;
        Ok(1)
    }

    fn failed(&self) -> bool {
        self.has_failed
    }
}

// A sink that takes one byte for each write, and fails once its calls are used up.
#[derive(Drop)]
pub struct Narrow {
    bytes: Vec<u8>,
    calls_left: usize,
    has_failed: bool,
}

impl Narrow {
    pub fn new(alloc: Global, calls_left: usize) -> Narrow
        ensures { result.has_failed ≡ false }
    {
        Narrow {
            bytes: Vec::new(alloc),
            calls_left,
            has_failed: false,
        }
    }

    pub fn bytes(&self) -> &[u8] {
        self.bytes.as_slice()
    }

    // Whether a call is left, which is then used up.
    fn takes_call(&mut self) -> bool
        ensures bytes { self.new.bytes ≡ self.old.bytes }
        ensures failure { self.new.has_failed ≡ (if result then self.old.has_failed else true) }
    {
        if self.calls_left == 0 {
            self.has_failed = true;
            return false;
        }
        self.calls_left -= 1;
        true
    }
}

impl Sink for Narrow {
    ghost contents = { λ s. Some s.bytes.items };

    ghost has_failed = { λ s. s.has_failed };

    fn write(&mut self, bytes: &[u8]) -> Result<usize, Failed> {
        let Some(first) = bytes.first() else {
            return Ok(0);
        };
        if !self.takes_call() {
            return Err(Failed);
        }
        if self.bytes.push(*first).is_err() {
            self.has_failed = true;
            return Err(Failed);
        }
        Ok(1)
    }

    fn flush(&mut self) -> Result<(), Failed> {
        if !self.takes_call() {
            return Err(Failed);
        }
        Ok(())
    }

    fn failed(&self) -> bool {
        self.has_failed
    }
}

// A reader that is interrupted this many times, and then gives its bytes or the given error.
#[derive(Drop)]
pub struct Interrupted<'a> {
    pub times: usize,
    pub rest: &'a [u8],
    pub error: Option<ErrorKind>,
}

impl Read for Interrupted<'_> {
    fn read(&mut self, buffer: &mut [u8]) -> io::Result<usize> {
        if self.times > 0 {
            self.times -= 1;
            return Err(io::Error::from(ErrorKind::Interrupted));
        }
        if let Some(kind) = self.error {
            return Err(io::Error::from(kind));
        }
        self.rest.read(buffer)
    }
}

// A writer that takes no byte.
#[derive(Drop)]
pub struct Full;

impl Write for Full {
    fn write(&mut self, _bytes: &[u8]) -> io::Result<usize> {
        Ok(0)
    }

    fn flush(&mut self) -> io::Result<()> {
        Ok(())
    }
}

// A writer that is interrupted once, takes all, and fails when it is flushed.
#[derive(Drop)]
pub struct Unflushed {
    pub is_interrupted: bool,
}

impl Write for Unflushed {
    fn write(&mut self, bytes: &[u8]) -> io::Result<usize> {
        if self.is_interrupted {
            self.is_interrupted = false;
            return Err(io::Error::from(ErrorKind::Interrupted));
        }
        Ok(bytes.len())
    }

    fn flush(&mut self) -> io::Result<()> {
        Err(io::Error::from(ErrorKind::Other))
    }
}

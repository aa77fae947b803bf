//! Runs over readers and writers that give and take one byte for each call, and fail at a call or are interrupted.
use htmd_cli::{Input, Mode, Output, RunError, Sink, Source, run};
use htmd_test_expected::expect_that;
use std::alloc::Global;
use std::io;
use std::io::{ErrorKind, Read, Write};
use std::test::Fail;

const PAGE: &[u8] = b"<p>a_b</p>";

const MARKDOWN: &[u8] = b"a\\_b\n";

// Gives one byte for each call, and fails once its calls are used up; if it is interrupted, each call is made twice.
#[derive(Drop)]
struct Reader {
    rest: &'static [u8],
    calls_left: usize,
    interrupts: bool,
    was_interrupted: bool,
}

impl Reader {
    fn new(rest: &'static [u8], calls_left: usize, interrupts: bool) -> Reader {
        Reader {
            rest,
            calls_left,
            interrupts,
            was_interrupted: false,
        }
    }
}

impl Read for Reader {
    fn read(&mut self, buffer: &mut [u8]) -> io::Result<usize> {
        if self.interrupts && !self.was_interrupted {
            self.was_interrupted = true;
            return Err(io::Error::from(ErrorKind::Interrupted));
        }
        self.was_interrupted = false;
        if self.calls_left == 0 {
            return Err(io::Error::from(ErrorKind::Other));
        }
        self.calls_left -= 1;
        if buffer.is_empty() {
            return Ok(0);
        }
        let Some((first, rest)) = self.rest.split_first() else {
            return Ok(0);
        };
        buffer[0] = *first;
        self.rest = rest;
        Ok(1)
    }
}

// What a writer returns once its calls are used up.
#[derive(Clone, Copy)]
enum Fault {
    Fails,
    TakesNothing,
}

// Takes one byte for each call, and then has its fault at each write and fails at each flush; if it is interrupted,
// each write is made twice.
#[derive(Drop)]
struct Writer<'a> {
    taken: &'a mut Vec<u8>,
    calls_left: usize,
    fault: Fault,
    interrupts: bool,
    was_interrupted: bool,
}

impl<'a> Writer<'a> {
    fn new(
        taken: &'a mut Vec<u8>,
        calls_left: usize,
        fault: Fault,
        interrupts: bool,
    ) -> Writer<'a> {
        Writer {
            taken,
            calls_left,
            fault,
            interrupts,
            was_interrupted: false,
        }
    }
}

impl Write for Writer<'_> {
    fn write(&mut self, bytes: &[u8]) -> io::Result<usize> {
        if self.interrupts && !self.was_interrupted {
            self.was_interrupted = true;
            return Err(io::Error::from(ErrorKind::Interrupted));
        }
        self.was_interrupted = false;
        let Some(first) = bytes.first() else {
            return Ok(0);
        };
        if self.calls_left == 0 {
            return match self.fault {
                Fault::Fails => Err(io::Error::from(ErrorKind::Other)),
                Fault::TakesNothing => Ok(0),
            };
        }
        self.calls_left -= 1;
        if self.taken.push(*first).is_err() {
            return Err(io::Error::from(ErrorKind::OutOfMemory));
        }
        Ok(1)
    }

    fn flush(&mut self) -> io::Result<()> {
        if self.calls_left == 0 {
            return Err(io::Error::from(ErrorKind::Other));
        }
        self.calls_left -= 1;
        Ok(())
    }
}

const HTML: Mode = Mode {
    text: false,
    faithful: false,
};

// Fails unless a run over a reader with so many calls ends so, and writes this.
fn expect_read(
    alloc: Global,
    calls: usize,
    answer: Result<(), RunError>,
    written: &[u8],
) -> Result<(), Fail> {
    let mut taken = Vec::new(alloc);
    let mut source = Input::new(Reader::new(PAGE, calls, false));
    let mut sink = Output::new(&mut taken);
    let result = run(alloc, &mut source, &mut sink, HTML);
    expect_that("source", source.failed() == result.is_err())?;
    expect_that("sink", !sink.failed())?;
    expect_that("result", result == answer)?;
    expect_that("written", taken.as_slice() == written)
}

// Each call reads one byte, and one call finds the end.
#[test]
fn fails_at_each_read(rt: HostRuntime) -> Result<(), Fail> {
    for calls in 0..11 {
        expect_read(rt.alloc(), calls, Err(RunError::Read), b"")?;
    }
    expect_read(rt.alloc(), 11, Ok(()), MARKDOWN)
}

// Fails unless a run over a writer with so many calls ends so, and writes this.
fn expect_write(
    alloc: Global,
    calls: usize,
    fault: Fault,
    answer: Result<(), RunError>,
    written: &[u8],
) -> Result<(), Fail> {
    let mut taken = Vec::new(alloc);
    let mut source = Input::new(Reader::new(PAGE, 100, false));
    let mut sink = Output::new(Writer::new(&mut taken, calls, fault, false));
    let result = run(alloc, &mut source, &mut sink, HTML);
    expect_that("sink", sink.failed() == result.is_err())?;
    expect_that("source", !source.failed())?;
    expect_that("result", result == answer)?;
    expect_that("written", taken.as_slice() == written)
}

// Each call writes one byte, and the last call is the flush.
#[test]
fn fails_at_each_write(rt: HostRuntime) -> Result<(), Fail> {
    for fault in [Fault::Fails, Fault::TakesNothing] {
        for calls in 0..6 {
            let written = MARKDOWN.get(..calls).unwrap_or(MARKDOWN);
            expect_write(rt.alloc(), calls, fault, Err(RunError::Write), written)?;
        }
        expect_write(rt.alloc(), 6, fault, Ok(()), MARKDOWN)?;
    }
    Ok(())
}

// Fails unless a run over a reader and a writer that are interrupted writes this.
fn expect_whole(alloc: Global, mode: Mode, written: &[u8]) -> Result<(), Fail> {
    let mut taken = Vec::new(alloc);
    let mut source = Input::new(Reader::new(PAGE, 100, true));
    let mut sink = Output::new(Writer::new(&mut taken, 100, Fault::Fails, true));
    let result = run(alloc, &mut source, &mut sink, mode);
    expect_that("source", !source.failed())?;
    expect_that("sink", !sink.failed())?;
    expect_that("result", result == Ok(()))?;
    expect_that("written", taken.as_slice() == written)
}

// A read or a write that is interrupted is made again.
#[test]
fn goes_on_after_interruptions(rt: HostRuntime) -> Result<(), Fail> {
    let table: [(bool, bool, &[u8]); 3] = [
        (false, false, MARKDOWN),
        (false, true, MARKDOWN),
        (true, false, b"\\<p>a\\_b\\</p>\n"),
    ];
    for (text, faithful, written) in table {
        expect_whole(rt.alloc(), Mode { text, faithful }, written)?;
    }
    Ok(())
}

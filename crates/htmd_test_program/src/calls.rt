//! Calls of the program on options and bytes, and what they leave.
use crate::doubles::{Dripping, Narrow};
use htmd_cli::{Sink, Source, command};
use htmd_test_expected::{expect_number, expect_text, expect_that};
use std::alloc::{AllocError, Global};
use std::test::Fail;

pub fn strings(alloc: Global, options: &[&str]) -> Result<Vec<String>, AllocError> {
    let mut all = Vec::new(alloc);
    for option in options {
        all.push(String::from_str(alloc, option)?)?;
    }
    Ok(all)
}

/// What a call of `command` leaves.
#[derive(Drop)]
pub struct Outcome {
    pub status: u8,
    pub stdout: String,
    pub stderr: String,
    pub unread: usize,
    pub has_failed: bool,
}

/// A call whose source and sink fail after so many reads, and so many writes and flushes.
pub fn called_within(
    alloc: Global,
    options: &[&str],
    stdin: &[u8],
    reads: usize,
    writes: usize,
) -> Result<Outcome, Fail> {
    let options = strings(alloc, options)?;
    let mut source = Dripping::new(stdin, reads);
    let mut sink = Narrow::new(alloc, writes);
    let mut errors = Narrow::new(alloc, 100_000);
    let status = command(
        alloc,
        options.as_slice(),
        &mut source,
        &mut sink,
        &mut errors,
    );
    Ok(Outcome {
        status,
        stdout: text_of(alloc, sink.bytes())?,
        stderr: text_of(alloc, errors.bytes())?,
        unread: source.rest().len(),
        has_failed: source.failed() || sink.failed(),
    })
}

fn text_of(alloc: Global, bytes: &[u8]) -> Result<String, Fail> {
    Ok(String::from_str(alloc, str::from_utf8(bytes)?)?)
}

pub fn called(alloc: Global, options: &[&str], stdin: &[u8]) -> Result<Outcome, Fail> {
    called_within(alloc, options, stdin, 100_000, 100_000)
}

/// Fails unless a call leaves this.
fn expect_outcome(outcome: &Outcome, wants: (u8, &str, &str)) -> Result<(), Fail> {
    expect_text("stdout", outcome.stdout.as_str(), wants.1)?;
    expect_text("stderr", outcome.stderr.as_str(), wants.2)?;
    expect_that(wants.2, outcome.status == wants.0)
}

/// Fails unless a call has this status, and writes this on its two sinks.
pub fn expect_called(
    alloc: Global,
    options: &[&str],
    stdin: &[u8],
    wants: (u8, &str, &str),
) -> Result<(), Fail> {
    let outcome = called(alloc, options, stdin)?;
    expect_outcome(&outcome, wants)
}

/// Fails unless a call leaves this, and so many bytes unread.
pub fn expect_answer(
    alloc: Global,
    options: &[&str],
    stdin: &[u8],
    wants: (u8, &str, &str),
    unread: usize,
) -> Result<(), Fail> {
    let outcome = called(alloc, options, stdin)?;
    expect_number(wants.1, outcome.unread, unread)?;
    expect_outcome(&outcome, wants)
}

/// Fails unless a call that may read and write so often leaves this: status 1 if its source or sink failed.
pub fn expect_within(
    alloc: Global,
    options: &[&str],
    stdin: &[u8],
    reads: usize,
    writes: usize,
    wants: (u8, &str, &str),
) -> Result<(), Fail> {
    let outcome = called_within(alloc, options, stdin, reads, writes)?;
    expect_that(wants.2, outcome.has_failed == (wants.0 == 1))?;
    expect_outcome(&outcome, wants)
}

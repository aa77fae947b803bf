//! The program's lines, and that runs succeed and fail as they should.
use crate::calls::{expect_answer, expect_within, strings};
use crate::doubles::{Dripping, Full, Interrupted, Narrow, Unflushed};
use htmd_cli::{Failed, Input, Mode, Output, RunError, Sink, Source, command, run};
use htmd_test_expected::expect_that;
use std::io::ErrorKind;
use std::test::Fail;

const PARAGRAPH: Mode = Mode {
    text: true,
    faithful: false,
};

#[test]
fn answers_options(rt: HostRuntime) -> Result<(), Fail> {
    const UNKNOWN: &str = "htmd: unknown word\n'--bogus' is not an option: see --help\n";
    const EMPTY: &str = "htmd: unknown word\n'' is not an option: see --help\n";
    const ROWS: &[(&[&str], &[u8], &str, &str, u8)] = &[
        (&["--text"], b"a b", "a b\n", "", 0),
        (
            &["--text", "--faithful"],
            b"<b>*a*",
            "\\<b>\\*a\\*\n",
            "",
            0,
        ),
        (
            &["--faithful", "--text", "--faithful"],
            b"a\r\nb",
            "a b\n",
            "",
            0,
        ),
        (
            &["--faithful", "--text"],
            b"\xff",
            "",
            "htmd: not UTF-8\n",
            1,
        ),
        (&["--text", "--bogus", "--wrong"], b"x", "", UNKNOWN, 2),
        (&["--faithful", "--bogus", "--text"], b"x", "", UNKNOWN, 2),
        (&["--text"], b"", "\n", "", 0),
        (&["--text", "--text"], b"a", "a\n", "", 0),
        (&["--text"], b"\xff", "", "htmd: not UTF-8\n", 1),
        (&["--bogus"], b"x", "", UNKNOWN, 2),
        (&["--text", ""], b"x", "", EMPTY, 2),
        (&["--text"], b"1. a\n", "1\\. a\n", "", 0),
        (&["--text"], b"a\n\n  b *c*\n", "a b \\*c\\*\n", "", 0),
        (&["--text"], b"1.. x", "1.\\. x\n", "", 0),
        (&["--text"], b"\xc2\xbd. x", "\u{bd}. x\n", "", 0),
        (&["--text"], b"--- a", "--- a\n", "", 0),
        (
            &["--text"],
            b"<![CDATA[x]]>",
            "<!\\[CDATA\\[x\\]\\]>\n",
            "",
            0,
        ),
        (
            &["--text", "--text", "--faithful"],
            b"a<b",
            "a\\<b\n",
            "",
            0,
        ),
    ];
    for &(options, stdin, stdout, stderr, status) in ROWS {
        let unread = if status == 2 { stdin.len() } else { 0 };
        let wants = (status, stdout, stderr);
        expect_answer(rt.alloc(), options, stdin, wants, unread)?;
    }
    Ok(())
}

// Each read and each write fails in turn, in a run of three reads, three writes and a flush.
#[test]
fn answers_failures(rt: HostRuntime) -> Result<(), Fail> {
    const ROWS: &[(usize, usize, &str, &str, u8)] = &[
        (0, 9, "", "htmd: read failed\n", 1),
        (1, 9, "", "htmd: read failed\n", 1),
        (2, 9, "", "htmd: read failed\n", 1),
        (3, 0, "", "htmd: write failed\n", 1),
        (3, 1, "a", "htmd: write failed\n", 1),
        (3, 2, "ab", "htmd: write failed\n", 1),
        (3, 3, "ab\n", "htmd: write failed\n", 1),
        (3, 4, "ab\n", "", 0),
    ];
    for &(reads, writes, stdout, stderr, status) in ROWS {
        let wants = (status, stdout, stderr);
        expect_within(rt.alloc(), &["--text"], b"ab", reads, writes, wants)?;
    }
    Ok(())
}

// A sink for errors that fails changes no status.
#[test]
fn passes_over_faults_of_the_errors(rt: HostRuntime) -> Result<(), Fail> {
    for (option, status) in [("--text", 1), ("--bogus", 2)] {
        let options = strings(rt.alloc(), &[option])?;
        let mut source = Dripping::new(b"a", 0);
        let mut sink = Narrow::new(rt.alloc(), 9);
        let mut errors = Output::new(Full);
        let answer = command(
            rt.alloc(),
            options.as_slice(),
            &mut source,
            &mut sink,
            &mut errors,
        );
        expect_that(option, answer == status)?;
        expect_that(option, errors.failed())?;
    }
    Ok(())
}

// A reader of three bytes that is interrupted twice, and then gives them or this error.
fn interrupted(error: Option<ErrorKind>) -> Interrupted<'static> {
    Interrupted {
        times: 2,
        rest: b"abc",
        error,
    }
}

#[test]
fn takes_std_readers() -> Result<(), Fail> {
    let mut buffer = [0u8; 4];
    let mut source = Input::new(interrupted(None));
    expect_that("first", source.read(&mut buffer) == Ok(3))?;
    expect_that("end", source.read(&mut buffer) == Ok(0))?;
    expect_that("well", !source.failed())
}

#[test]
fn takes_std_readers_that_fail() -> Result<(), Fail> {
    let mut buffer = [0u8; 4];
    let mut source = Input::new(interrupted(Some(ErrorKind::UnexpectedEof)));
    expect_that("error", source.read(&mut buffer) == Err(Failed))?;
    expect_that("failed", source.failed())
}

#[test]
fn takes_std_writers() -> Result<(), Fail> {
    let mut sink = Output::new(Full);
    expect_that("nothing", sink.write(b"") == Ok(0))?;
    expect_that("well", !sink.failed())?;
    expect_that("full", sink.write(b"a") == Err(Failed))?;
    expect_that("failed", sink.failed())
}

#[test]
fn takes_std_writers_that_fail(rt: HostRuntime) -> Result<(), Fail> {
    let mut source = Input::new(b"a".as_slice());
    let mut sink = Output::new(Unflushed {
        is_interrupted: true,
    });
    let result = run(rt.alloc(), &mut source, &mut sink, PARAGRAPH);
    expect_that("result", result == Err(RunError::Write))?;
    expect_that("failed", sink.failed())
}

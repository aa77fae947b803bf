//! Unknown options, and what the program says about itself. What each option sets is a family of `htmd_test_cases`.
use crate::calls::{called, called_within};
use htmd_test_expected::{expect_number, expect_text, expect_that};
use std::alloc::Global;
use std::test::Fail;

// Fails unless this is the option that the second of two lines reports, and nothing is read.
fn expect_unknown(alloc: Global, option: &str, options: &[&str]) -> Result<(), Fail> {
    let answer = called(alloc, options, b"<p>")?;
    let said = format!(in alloc; "'{option}'")?;
    expect_that(option, answer.status == 2)?;
    expect_that(option, answer.stderr.starts_with("htmd: unknown "))?;
    let (_, second) = answer.stderr.split_once('\n').unwrap_or(("", ""));
    expect_that(option, second.starts_with(said.as_str()))?;
    expect_number(option, answer.stderr.lines().count(), 2)?;
    expect_text(option, answer.stdout.as_str(), "")?;
    expect_number(option, answer.unread, 3)
}

// Nothing is read, and the options come first: an unknown one is reported before anything else.
#[test]
fn refuses_options(rt: HostRuntime) -> Result<(), Fail> {
    const ROWS: &[&str] = &[
        "",
        "-",
        "--",
        "text",
        "--TEXT",
        "--text=",
        "--body=1",
        "--html5=1",
        "--html=1",
        "--from-markdown=1",
        "--encoding",
        "--encoding=",
        "--encoding=utf-7",
        "page.html",
        "-H",
        "--skip",
        "--skip=",
        "--skip=,",
        "--skip=a,",
        "--skip=,a",
        "--skip=a,,b",
        "--heading-style",
        "--heading-style=",
        "--heading-style=ATX",
        "--heading-style=atx ",
        "--hr-style=dots",
        "--br-style=none",
        "--link-style=referenced2",
        "--link-reference-style=short",
        "--code-block-style=tabs",
        "--code-block-fence=quotes",
        "--bullet-list-marker=plus",
        "--ul-bullet-spacing=",
        "--ul-bullet-spacing=256",
        "--ul-bullet-spacing=-1",
        "--ul-bullet-spacing=+1",
        "--ul-bullet-spacing=1.0",
        "--ul-bullet-spacing=\u{661}",
        "--ul-bullet-spacing= 1",
        "--ol-number-spacing=1000000000000000000000000",
        "--ol-number-spacing=x",
        "--chunks=",
        "--chunks=0",
        "--chunks=+1",
        "--chunks=2,000",
        "--chunks=18446744073709551616",
        "--preformatted-code=yes",
        "--explained",
        "--help=all",
        "--Version",
        "--select",
        "--base",
        "--base=",
        "--base=page.html",
        "--base=https://[",
        "--front-matter=yes",
        "--completions",
        "--completions=tcsh",
        "--output=out",
        "-o",
        "--links=md",
        "--copy",
        "--newer",
        "--progress",
        "--quiet",
    ];
    for &option in ROWS {
        expect_unknown(rt.alloc(), option, &[option, "--text"])?;
        expect_unknown(rt.alloc(), option, &["--help", option])?;
    }
    Ok(())
}

// A text that is no selector is shown with a mark under the place, and nothing is read.
#[test]
fn refuses_selectors(rt: HostRuntime) -> Result<(), Fail> {
    const ROWS: &[(&str, &str)] = &[
        (
            "--select=a > > b",
            "htmd: --select: a selector is missing at byte 4\na > > b\n    ^\n",
        ),
        (
            "--drop=\u{e9}\n.a,[b",
            "htmd: --drop: `]`, `)` or a quotation mark is missing at byte 8\n.a,[b\n     ^\n",
        ),
    ];
    for (option, said) in ROWS {
        let answer = called(rt.alloc(), &[option, "--text"], b"<p>")?;
        expect_that(option, answer.status == 2)?;
        expect_text(option, answer.stderr.as_str(), said)?;
        expect_number(option, answer.unread, 3)?;
    }
    Ok(())
}

// An option that has no effect with the others, or none without another, is named, and the page is converted.
#[test]
fn tells_of_options_without_effect(rt: HostRuntime) -> Result<(), Fail> {
    const ROWS: &[(&[&str], &str)] = &[
        (
            &["--html"],
            "htmd: --html has no effect without --from-markdown\n",
        ),
        (
            &["--text", "--from-markdown"],
            "htmd: --from-markdown has no effect with --text\n",
        ),
        (
            &["--web", "--text", "--encoding=utf-8"],
            "htmd: --encoding has no effect with --text, which reads UTF-8\n",
        ),
        (
            &["--encoding=utf-8", "--body", "--from-markdown"],
            "htmd: --body has no effect with --from-markdown\n\
            htmd: --encoding has no effect with --from-markdown, which reads UTF-8\n",
        ),
    ];
    for (options, said) in ROWS {
        let answer = called(rt.alloc(), options, b"a")?;
        expect_that(said, answer.status == 0)?;
        expect_text("stderr", answer.stderr.as_str(), said)?;
        expect_text("stdout", answer.stdout.as_str(), "a\n")?;
    }
    Ok(())
}

// How many lines describe an option, each with what it is for. No line is longer than a terminal is wide.
fn options_in(help: &str) -> Result<usize, Fail> {
    let mut count: usize = 0;
    for line in help.lines() {
        expect_that(line, line.len() <= 80)?;
        if line.starts_with("-") {
            count = count.saturating_add(1);
            expect_that(line, line.contains(" "))?;
        }
    }
    Ok(count)
}

// Fails unless the help has a line for each option.
fn expect_help(help: &str) -> Result<(), Fail> {
    expect_number("options", options_in(help)?, 48)?;
    let usage = "Usage: htmd [OPTION..] [FILE..]\n";
    expect_that(usage, help.starts_with(usage))?;
    for line in [
        "--chunks[=BYTES]         writes pieces as lines of JSON (default 2000 bytes)\n",
        "--skip=TAG[,TAG..]       leaves out elements by name, in lower case\n",
        "--link-style=            inlined (default), inlined-prefer-autolinks, referenced\n",
        "\nInput:\n--web",
        "\nWhat is written:\n--guarded",
        "\nStyle:\n--heading-style=         atx (default), setext\n",
        "\nFiles:\n-o, --output=OUT         writes to this file",
        "\nHelp:\n--help",
    ] {
        expect_that(line, help.contains(line))?;
    }
    Ok(())
}

// Fails unless an option shows the help, and nothing is read.
fn expect_shown(alloc: Global, option: &str) -> Result<(), Fail> {
    let answer = called(alloc, &[option], b"a")?;
    expect_that("status", answer.status == 0)?;
    expect_text("stderr", answer.stderr.as_str(), "")?;
    expect_number("unread", answer.unread, 1)?;
    expect_help(answer.stdout.as_str())
}

// The help has a line for each option, and each option that it names is known.
#[test]
fn shows_the_help(rt: HostRuntime) -> Result<(), Fail> {
    expect_shown(rt.alloc(), "--help")?;
    expect_shown(rt.alloc(), "-h")
}

// Fails unless a sink that fails after so many writes is reported.
fn expect_failed(alloc: Global, option: &str, writes: usize) -> Result<(), Fail> {
    let answer = called_within(alloc, &[option], b"a", 0, writes)?;
    expect_text(option, answer.stderr.as_str(), "htmd: write failed\n")?;
    expect_that(option, answer.status == 1)?;
    expect_that(option, answer.has_failed)
}

// The sink fails while the help is written.
#[test]
fn tells_of_a_failed_help(rt: HostRuntime) -> Result<(), Fail> {
    const ROWS: &[(&str, usize)] = &[
        ("--help", 0),
        ("--help", 500),
        ("--version", 0),
        ("--version", 10),
        ("--version", 11),
    ];
    for &(option, writes) in ROWS {
        expect_failed(rt.alloc(), option, writes)?;
    }
    Ok(())
}

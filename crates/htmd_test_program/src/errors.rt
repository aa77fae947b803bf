//! The texts of errors of runs and pages, as they are displayed and for debugging.
use htmd::{ConvertError, FaultKind};
use htmd_cli::{Failed, Mode, PageError, RunError, StreamError};
use htmd_test_expected::expect_text;
use std::test::Fail;

#[test]
fn tells_errors_of_runs(rt: HostRuntime) -> Result<(), Fail> {
    let place = 5;
    let kind = FaultKind::StrayText;
    for (error, shown) in [
        (
            RunError::from(ConvertError::Refused { place, kind }),
            "refused at byte 5: StrayText Refused { place: 5, kind: StrayText }",
        ),
        (RunError::from(ConvertError::Memory), "out of memory Memory"),
        (RunError::NotUtf8, "not UTF-8 NotUtf8"),
        (RunError::Memory, "out of memory Memory"),
        (RunError::Read, "read failed Read"),
        (RunError::Write, "write failed Write"),
    ] {
        let text = format!(in rt.alloc(); "{error} {error:?}")?;
        expect_text(shown, text.as_str(), shown)?;
    }
    Ok(())
}

#[test]
fn tells_errors_of_pages(rt: HostRuntime) -> Result<(), Fail> {
    let place = 5;
    let kind = FaultKind::StrayText;
    for (error, shown) in [
        (PageError::NotUtf8, "not UTF-8 NotUtf8"),
        (
            PageError::from(ConvertError::Refused { place, kind }),
            "refused at byte 5: StrayText Refused { place: 5, kind: StrayText }",
        ),
        (
            PageError::from(ConvertError::Memory),
            "out of memory Memory",
        ),
        (
            PageError::NothingSelected,
            "no element of the page is selected by --select NothingSelected",
        ),
    ] {
        let text = format!(in rt.alloc(); "{error} {error:?}")?;
        expect_text(shown, text.as_str(), shown)?;
    }
    Ok(())
}

// A stream is said to fail as its page is, or as a run is.
#[test]
fn tells_errors_of_streams(rt: HostRuntime) -> Result<(), Fail> {
    for (error, shown) in [
        (
            StreamError::from(PageError::NotUtf8),
            "not UTF-8 Page(NotUtf8)",
        ),
        (
            StreamError::from(RunError::Memory),
            "out of memory Page(Memory)",
        ),
        (StreamError::from(RunError::Read), "read failed Read"),
        (StreamError::from(RunError::Write), "write failed Write"),
    ] {
        let text = format!(in rt.alloc(); "{error} {error:?}")?;
        expect_text(shown, text.as_str(), shown)?;
    }
    Ok(())
}

#[test]
fn tells_values(rt: HostRuntime) -> Result<(), Fail> {
    let mode = Mode {
        text: true,
        faithful: false,
    };
    let text = format!(in rt.alloc(); "{Failed:?} {mode:?}")?;
    let debug = "Failed Mode { text: true, faithful: false }";
    expect_text("values", text.as_str(), debug)
}

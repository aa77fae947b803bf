//! What a test expects of a row: each of these fails if it isn't so, and names the row.
#![tactic(auto)]

ghost use Rattle.std.specs.Prelude.{◌≡◌, ◌==◌};
ghost use Rattle.std.specs.Result.{is_ok};
ghost use Rattle.std.specs.Str.{bytes_eq};

use std::test::Fail;

/// Passes if the text is the one that is wanted.
pub fn expect_text(row: &str, text: &str, want: &str) -> Result<(), Fail>
    ensures { is_ok result ≡ bytes_eq text.now want.now }
{
    if text == want {
        return Ok(());
    }
    Err(Fail::new(format_args!("at {row:?}: {text:?}, not {want:?}")))
}

/// Passes if the number is the one that is wanted.
pub fn expect_number(row: &str, number: usize, want: usize) -> Result<(), Fail>
    ensures { is_ok result ≡ (number == want) }
{
    if number == want {
        return Ok(());
    }
    Err(Fail::new(format_args!("at {row:?}: {number}, not {want}")))
}

/// Passes if it is so.
pub fn expect_that(row: &str, is_so: bool) -> Result<(), Fail>
    ensures { is_ok result ≡ is_so }
{
    if is_so {
        return Ok(());
    }
    Err(Fail::new(format_args!("at {row:?}")))
}

//! The messages about options that aren't known, and about values that have no effect.
use crate::explanations::write_mark;
use crate::options::{OPTIONS, OptionRow, Setting, Valued};
use crate::reports::Lines;
use crate::requests::{OptionFault, Request};
use htmd::PageSettings;
use htmd_selectors::SelectorError;
use htmd_streams::Sink;
use std::fmt;
use std::fmt::Write;

/// The part of an option before its value.
fn name_part(option: &str) -> &str {
    match option.split_once('=') {
        Some((name, _)) => name,
        None => option,
    }
}

/// What a value has to be.
fn wanted(valued: Valued) -> &'static str {
    match valued {
        Valued::Encoding => "the label of an encoding, as utf-8 or windows-1252",
        Valued::Select | Valued::Drop => "selectors with commas between them, as main,.note",
        Valued::Skip => "names with commas between them, as nav,footer",
        Valued::Base => "an absolute URL, as https://example.org/docs/",
        Valued::Chunks => "a number of bytes, at least 1",
        Valued::BulletSpacing | Valued::NumberSpacing => "a number from 0 to 255",
    }
}

/// The value in a row of the table, if its option has fixed ones.
fn fixed_value(row: &OptionRow) -> Option<&'static str> {
    match row.name.split_once('=') {
        Some(("", _)) => None,
        Some((_, value)) => Some(value),
        None => None,
    }
}

/// Whether a row of the table is of the option with this name.
fn is_named(row: &OptionRow, name: &str) -> bool {
    name_part(row.name) == name
}

/// The row of an option with this name, if there is one.
fn row_named(name: &str) -> Option<&'static OptionRow> {
    OPTIONS.iter().find(|row| is_named(row, name))
}

/// How many rows the option with this name has: as many as fixed values, if there are any.
pub(crate) fn rows_named(name: &str) -> usize {
    OPTIONS.iter().filter(|row| is_named(row, name)).count()
}

/// Writes the fixed values of an option: `a, b and c`.
fn write_values<W: Write>(out: &mut W, name: &str) -> fmt::Result {
    let mut left = rows_named(name);
    for row in &OPTIONS {
        if is_named(row, name) {
            left = left.saturating_sub(1);
            out.write_str(fixed_value(row).unwrap_or(""))?;
            out.write_str(match left {
                0 => "\n",
                1 => " and ",
                _ => ", ",
            })?;
        }
    }
    Ok(())
}

/// Writes that an option isn't known, or not with its value, and in a second line what is wrong with it.
fn write_unknown<W: Write>(out: &mut W, given: &str) -> fmt::Result {
    let name = name_part(given);
    let Some(row) = row_named(name) else {
        out.write_str("htmd: unknown word\n")?;
        return writeln!(out, "'{given}' is not an option: see --help");
    };
    out.write_str("htmd: unknown word\n")?;
    match row.setting {
        Setting::Valued(_) if given == name => {
            writeln!(out, "'{given}': write {}{}", row.name, row.value)
        }
        Setting::Valued(valued) => {
            let wanted = wanted(valued);
            writeln!(out, "'{given}': the value of {name} is {wanted}")
        }
        _ if row.name == name => writeln!(out, "'{given}': {name} takes no value"),
        _ => {
            write!(out, "'{given}': the values of {name} are ")?;
            write_values(out, name)
        }
    }
}

fn is_in_name(byte: u8) -> bool {
    byte.is_ascii_alphanumeric() || byte == b'-' || byte == b':'
}

/// The pseudo-class at a place of a selector, with its colon, if there is one.
fn pseudo_class(selector: &str, place: usize) -> Option<&str> {
    let rest = selector.get(place..)?;
    if !rest.starts_with(":") {
        return None;
    }
    let mut len = 0usize;
    for byte in rest.as_bytes() {
        if !is_in_name(*byte) {
            break;
        }
        len = len.saturating_add(1);
    }
    rest.get(..len)
}

/// Writes what of a selector isn't taken: a pseudo-class by its name.
fn write_reason<W: Write>(out: &mut W, value: &str, error: &SelectorError) -> fmt::Result {
    if let SelectorError::Unsupported { place } = error {
        if let Some(name) = pseudo_class(value, *place) {
            return writeln!(out, "`{name}` isn't supported at byte {place}");
        }
    }
    writeln!(out, "{error}")
}

/// Writes why a value isn't a selector, and a mark under the place.
fn write_selector<W: Write>(out: &mut W, given: &str, error: &SelectorError) -> fmt::Result {
    let (name, value) = given.split_once('=').unwrap_or((given, ""));
    write!(out, "htmd: {name}: ")?;
    write_reason(out, value, error)?;
    match error.place() {
        Some(place) => write_mark(out, value, place),
        None => Ok(()),
    }
}

/// Says why options aren't taken: of one that isn't known in two lines, of a selector with a mark under the place.
pub fn say_fault<E: Sink>(errors: &mut E, fault: &OptionFault<'_>) {
    let mut lines = Lines { sink: errors };
    let _ = match fault {
        OptionFault::Unknown(given) => write_unknown(&mut lines, given),
        OptionFault::Selector { option, error } => write_selector(&mut lines, option, error),
        OptionFault::Memory => writeln!(lines, "htmd: out of memory"),
    };
}

/// With or without which other option a given encoding has no effect, since the input is read as UTF-8 all the same.
fn useless_encoding(settings: &PageSettings<'_>) -> Option<&'static str> {
    if settings.encoding.is_none() {
        None
    } else if settings.text {
        Some("with --text, which reads UTF-8")
    } else if settings.from_markdown {
        Some("with --from-markdown, which reads UTF-8")
    } else if settings.html5 {
        None
    } else {
        Some("without --html5 or --web")
    }
}

fn has_upper_case(name: &str) -> bool {
    name.as_bytes().iter().any(|byte| byte.is_ascii_uppercase())
}

/// Says which options have no effect beside the others, or none without another, a line for each.
fn warn_of_options<W: Write>(out: &mut W, settings: &PageSettings<'_>) -> fmt::Result {
    if settings.as_html && !settings.from_markdown {
        out.write_str("htmd: --html has no effect without --from-markdown\n")?;
    }
    if !settings.from_markdown {
        return Ok(());
    }
    if settings.text {
        return out.write_str("htmd: --from-markdown has no effect with --text\n");
    }
    if settings.body {
        out.write_str("htmd: --body has no effect with --from-markdown\n")?;
    }
    Ok(())
}

/// Says, a line for each, which names of `--skip` have an upper-case letter, and which options count for nothing.
pub fn say_warnings<E: Sink>(errors: &mut E, request: &Request<'_>) {
    let mut lines = Lines { sink: errors };
    let _ = warn_of_options(&mut lines, &request.settings);
    for name in &request.settings.skipped {
        if has_upper_case(name) {
            let _ = writeln!(
                lines,
                "htmd: --skip: '{name}' has an upper-case letter, and elements of HTML are named in lower case"
            );
        }
    }
    if let Some(why) = useless_encoding(&request.settings) {
        let _ = writeln!(lines, "htmd: --encoding has no effect {why}");
    }
}

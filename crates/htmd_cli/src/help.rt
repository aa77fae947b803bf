//! What is written in place of a conversion: the help and the version.
ghost use Rattle.htmd_streams.specs.Ends.{FailsAtErr};

use crate::completions::write_completions;
use crate::manual::write_manual;
use crate::option_faults::rows_named;
use crate::options::{FILE_OPTIONS, FileOption, Group, Notice, OPTIONS, OptionRow};
use htmd_streams::{Failed, Sink, write_all};

const USAGE: &str = "\
Usage: htmd [OPTION..] [FILE..]

Converts HTML to Markdown: each FILE, the pages below a FILE that is a folder,
or without FILE standard input. For most pages use --web. If two options set the
same thing, the last one wins; but --skip, --select and --drop add up.
";

/// The program and its version, which is that of the file VERSION.
const VERSION: &str = "htmd 0.6.0\n";

/// Each line of the help begins with an option, in a column of this many characters.
const COLUMN: &str = "                         ";

pub(crate) const GROUPS: [Group; 5] = [
    Group::Input,
    Group::Written,
    Group::Style,
    Group::Files,
    Group::Help,
];

// Writes what is wanted in place of a conversion.
pub(crate) fn show<W: Sink>(sink: &mut W, notice: Notice) -> Result<(), Failed>
    ensures { FailsAtErr result (W.has_failed sink.old) (W.has_failed sink.new) }
{
    match notice {
        Notice::Help => write_help(sink),
        Notice::Version => write_version(sink),
        Notice::Manual => write_manual(sink),
        Notice::Completions(shell) => write_completions(sink, shell),
    }
}

/// What the options of a group are about.
pub(crate) fn title(group: Group) -> &'static str {
    match group {
        Group::Input => "Input",
        Group::Written => "What is written",
        Group::Style => "Style",
        Group::Files => "Files",
        Group::Help => "Help",
    }
}

// Writes the usage, and each option with its line, by groups.
fn write_help<W: Sink>(sink: &mut W) -> Result<(), Failed>
    ensures { FailsAtErr result (W.has_failed sink.old) (W.has_failed sink.new) }
{
    write_all(sink, USAGE.as_bytes())?;
    for group in &GROUPS {
        write_group(sink, *group)?;
    }
    sink.flush()
}

// Writes what the options of a group are about, and the options.
fn write_group<W: Sink>(sink: &mut W, group: Group) -> Result<(), Failed>
    ensures { FailsAtErr result (W.has_failed sink.old) (W.has_failed sink.new) }
{
    write_all(sink, b"\n")?;
    write_all(sink, title(group).as_bytes())?;
    write_all(sink, b":\n")?;
    if group == Group::Files {
        return write_file_options(sink);
    }
    for row in &OPTIONS {
        if row.group == group && !row.line.is_empty() {
            write_row(sink, row)?;
        }
    }
    Ok(())
}

// Writes an option with its line, which has the fixed values, if there are several. A value may be left out if the
// option also has a row without any.
fn write_row<W: Sink>(sink: &mut W, row: &OptionRow) -> Result<(), Failed>
    ensures { FailsAtErr result (W.has_failed sink.old) (W.has_failed sink.new) }
{
    match row.name.split_once('=') {
        Some((name, "")) if rows_named(name) > 1 => {
            write_option(sink, &[name, "[=", row.value, "]"], row.line)
        }
        Some((name, _)) if rows_named(name) > 1 => write_option(sink, &[name, "="], row.line),
        _ => write_option(sink, &[row.name, row.value], row.line),
    }
}

fn write_file_options<W: Sink>(sink: &mut W) -> Result<(), Failed>
    ensures { FailsAtErr result (W.has_failed sink.old) (W.has_failed sink.new) }
{
    for row in &FILE_OPTIONS {
        let between = if row.short.is_empty() { "" } else { ", " };
        write_option(sink, &[row.short, between, row.name, row.value], row.line)?;
    }
    Ok(())
}

// Writes the parts of an option, with its line.
fn write_option<W: Sink>(sink: &mut W, parts: &[&str], line: &str) -> Result<(), Failed>
    ensures { FailsAtErr result (W.has_failed sink.old) (W.has_failed sink.new) }
{
    let mut width = 0usize;
    for part in parts {
        width = width.saturating_add(part.len());
        write_all(sink, part.as_bytes())?;
    }
    let space = COLUMN.get(width..).unwrap_or(" ");
    write_all(sink, space.as_bytes())?;
    write_all(sink, line.as_bytes())?;
    write_all(sink, b"\n")
}

fn write_version<W: Sink>(sink: &mut W) -> Result<(), Failed>
    ensures { FailsAtErr result (W.has_failed sink.old) (W.has_failed sink.new) }
{
    write_all(sink, VERSION.as_bytes())?;
    sink.flush()
}

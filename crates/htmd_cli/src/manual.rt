//! The manual page, in the macros of man(7), with the options of the tables.
ghost use Rattle.htmd_streams.specs.Ends.{FailsAtErr};

use crate::help::{GROUPS, title};
use crate::options::{FILE_OPTIONS, FileOption, Group, OPTIONS, OptionRow};
use htmd_streams::{Failed, Sink, write_all};

/// What comes before the options.
const HEAD: &str = r#".TH HTMD 1 2026-11-28 "htmd 0.6.0" "User Commands"
.SH NAME
htmd \- convert HTML to Markdown
.SH SYNOPSIS
.B htmd
.RI [ OPTION ]...\&
.RI [ FILE ]...\&
.SH DESCRIPTION
.B htmd
reads HTML and writes Markdown.
Without
.I FILE
it reads standard input and writes to standard output;
.B \-
as a
.I FILE
is standard input too.
.PP
For most pages use
.BR \-\-web .
It reads any page as browsers do, and writes what people see of it, so that a reader of the Markdown sees the same.
Without it, and without
.BR \-\-html5 ,
htmd rejects pages in which an end tag is missing or an element isn't allowed where it is.
.PP
A
.I FILE
may be a folder.
It stands for all files below it whose names end in .html, .htm or .xhtml, or with
.B \-\-from\-markdown
in .md or .markdown, in either case.
What they become gets the same paths below the folder that
.B \-o
names, with the ending .md (.json with
.BR \-\-mdast ,
\&.jsonl with
.B \-\-chunks
and .html with
.BR \-\-html ):
.PP
.RS 4
.EX
htmd \-\-web \-o out site/
.EE
.RE
.PP
An output gets its name only once it is complete.
Until then it is a new file beside it, with the ending .htmd\-partial, which stays behind only if the run is killed
or can't remove it.
If there is a link, a folder or an input where an output should go, that stays as it is, and the page fails.
If a page fails, an earlier output of it stays as it was, and the other pages are converted.
.PP
If two options set the same thing, the last one wins.
Each
.BR \-\-skip ,
.B \-\-select
and
.B \-\-drop
adds to those before it.
.SH OPTIONS
"#;

/// What comes after the options.
const TAIL: &str = r#".SH EXIT STATUS
.TP
.B 0
All pages were converted.
.TP
.B 1
A page was rejected, or couldn't be read, converted or written.
A line on standard error says which one, and why.
With
.B \-\-rows
a page that is rejected becomes null, and the status is 0.
.TP
.B 2
An option isn't known or has a wrong value, or the files can't be converted together,
for instance because two have one output.
Nothing was read.
.SH EXAMPLES
A page of the Web:
.PP
.RS 4
.EX
curl \-s https://example.com | htmd \-\-web
.EE
.RE
.PP
A site, without its navigation, in a folder of Markdown with front matter:
.PP
.RS 4
.EX
htmd \-\-web \-\-front\-matter \-\-select=main,article \-o out site/
.EE
.RE
.PP
Completions for bash, for this session:
.PP
.RS 4
.EX
source <(htmd \-\-completions=bash)
.EE
.RE
.SH SEE ALSO
.BR curl (1),
.BR pandoc (1),
.BR xargs (1)
"#;

// Writes the manual page.
pub(crate) fn write_manual<W: Sink>(sink: &mut W) -> Result<(), Failed>
    ensures { FailsAtErr result (W.has_failed sink.old) (W.has_failed sink.new) }
{
    write_all(sink, HEAD.as_bytes())?;
    for group in &GROUPS {
        write_group(sink, *group)?;
    }
    write_all(sink, TAIL.as_bytes())?;
    sink.flush()
}

// Writes the options of a group.
fn write_group<W: Sink>(sink: &mut W, group: Group) -> Result<(), Failed>
    ensures { FailsAtErr result (W.has_failed sink.old) (W.has_failed sink.new) }
{
    write_all(sink, b".SS ")?;
    write_all(sink, title(group).as_bytes())?;
    write_all(sink, b"\n")?;
    if group == Group::Files {
        return write_file_options(sink);
    }
    for row in &OPTIONS {
        if row.group == group {
            write_option(sink, row)?;
        }
    }
    Ok(())
}

fn write_file_options<W: Sink>(sink: &mut W) -> Result<(), Failed>
    ensures { FailsAtErr result (W.has_failed sink.old) (W.has_failed sink.new) }
{
    for row in &FILE_OPTIONS {
        write_file_option(sink, row)?;
    }
    Ok(())
}

// Writes an option with its sentence.
fn write_option<W: Sink>(sink: &mut W, row: &OptionRow) -> Result<(), Failed>
    ensures { FailsAtErr result (W.has_failed sink.old) (W.has_failed sink.new) }
{
    write_all(sink, b".TP\n")?;
    write_name(sink, row.name, row.value)?;
    write_all(sink, b"\n")?;
    write_sentence(sink, row.help)
}

fn write_file_option<W: Sink>(sink: &mut W, row: &FileOption) -> Result<(), Failed>
    ensures { FailsAtErr result (W.has_failed sink.old) (W.has_failed sink.new) }
{
    write_all(sink, b".TP\n")?;
    if !row.short.is_empty() {
        write_name(sink, row.short, " ")?;
        write_name(sink, "", row.value)?;
        write_all(sink, b", ")?;
    }
    write_name(sink, row.name, row.value)?;
    write_all(sink, b"\n")?;
    write_sentence(sink, row.help)
}

// Writes an option in bold and its value in italics.
fn write_name<W: Sink>(sink: &mut W, name: &str, value: &str) -> Result<(), Failed>
    ensures { FailsAtErr result (W.has_failed sink.old) (W.has_failed sink.new) }
{
    write_all(sink, b"\\fB")?;
    write_typed(sink, name)?;
    if !value.is_empty() {
        write_all(sink, b"\\fI")?;
        write_typed(sink, value)?;
    }
    write_all(sink, b"\\fR")
}

// Writes what is typed as it stands.
fn write_typed<W: Sink>(sink: &mut W, text: &str) -> Result<(), Failed>
    ensures { FailsAtErr result (W.has_failed sink.old) (W.has_failed sink.new) }
{
    for b in text.as_bytes() {
        write_sign(sink, *b, true)?;
    }
    Ok(())
}

// Writes a line of the help as a sentence, in which options are as they are typed.
fn write_sentence<W: Sink>(sink: &mut W, text: &str) -> Result<(), Failed>
    ensures { FailsAtErr result (W.has_failed sink.old) (W.has_failed sink.new) }
{
    let mut is_typed = false;
    let mut before = b'\n';
    for b in text.as_bytes() {
        let shown = if before == b'\n' {
            b.to_ascii_uppercase()
        } else {
            *b
        };
        if before == b' ' || before == b'\n' {
            is_typed = *b == b'-';
        }
        write_sign(sink, shown, is_typed)?;
        before = *b;
    }
    write_all(sink, b".\n")
}

// Writes a byte of a text. A hyphen that is typed is a minus sign to man.
fn write_sign<W: Sink>(sink: &mut W, b: u8, is_typed: bool) -> Result<(), Failed>
    ensures { FailsAtErr result (W.has_failed sink.old) (W.has_failed sink.new) }
{
    match b {
        b'\\' => write_all(sink, b"\\e"),
        b'-' if is_typed => write_all(sink, b"\\-"),
        _ => write_all(sink, &[b]),
    }
}

//! The completions of options and operands in shells, with the options of the tables.
ghost use Rattle.htmd_streams.specs.Ends.{FailsAtErr};

use crate::options::{FILE_OPTIONS, FileOption, OPTIONS, OptionRow, Setting, Shell, Valued};
use htmd_streams::{Failed, Sink, write_all};

/// The names of the encodings, in lower case.
pub(crate) const ENCODINGS: [&str; 40] = [
    "utf-8",
    "utf-16be",
    "utf-16le",
    "ibm866",
    "iso-8859-2",
    "iso-8859-3",
    "iso-8859-4",
    "iso-8859-5",
    "iso-8859-6",
    "iso-8859-7",
    "iso-8859-8",
    "iso-8859-8-i",
    "iso-8859-10",
    "iso-8859-13",
    "iso-8859-14",
    "iso-8859-15",
    "iso-8859-16",
    "koi8-r",
    "koi8-u",
    "macintosh",
    "windows-874",
    "windows-1250",
    "windows-1251",
    "windows-1252",
    "windows-1253",
    "windows-1254",
    "windows-1255",
    "windows-1256",
    "windows-1257",
    "windows-1258",
    "x-mac-cyrillic",
    "gbk",
    "gb18030",
    "big5",
    "euc-jp",
    "iso-2022-jp",
    "shift_jis",
    "euc-kr",
    "replacement",
    "x-user-defined",
];

/// What comes before the words of options, one a line.
const BASH_HEAD: &str = r#"# Completions of htmd for bash.
_htmd_options='
"#;

/// What follows them. To bash the part of a word before `=` is a word of its own, so a reply goes without it.
const BASH_TAIL: &str = r#"'

_htmd() {
    local IFS=$'\n' line=${COMP_LINE:0:COMP_POINT} ending
    local option=${line##*[[:space:]]} word=${COMP_WORDS[COMP_CWORD]}
    if [[ ${COMP_WORDS[COMP_CWORD - 1]} == -o ]]; then
        mapfile -t COMPREPLY < <(compgen -d -- "$word")
        compopt -o filenames
    elif [[ $option == --output=* ]]; then
        mapfile -t COMPREPLY < <(compgen -d -- "${option#*=}")
        compopt -o filenames
    elif [[ $option == -* ]]; then
        mapfile -t COMPREPLY < <(compgen -W "$_htmd_options" -- "$option")
        [[ ${COMPREPLY[0]} != *= ]] || compopt -o nospace
        [[ $option != *=* || $COMP_WORDBREAKS != *=* ]] || COMPREPLY=("${COMPREPLY[@]#*=}")
    else
        local endings=('[Hh][Tt][Mm][Ll]' '[Hh][Tt][Mm]' '[Xx][Hh][Tt][Mm][Ll]')
        if [[ $line == *' --from-markdown '* ]]; then
            endings=('[Mm][Dd]' '[Mm][Aa][Rr][Kk][Dd][Oo][Ww][Nn]')
        fi
        mapfile -t COMPREPLY < <(
            compgen -d -- "$word"
            for ending in "${endings[@]}"; do
                compgen -f -X "!*.$ending" -- "$word"
            done
        )
        compopt -o filenames
    fi
}

complete -F _htmd htmd
"#;

/// What comes before the options that are complete.
const ZSH_HEAD: &str = r#"#compdef htmd
# Completions of htmd for zsh.

_htmd() {
    local -a complete open
    complete=(
"#;

/// What comes before the options that a value follows.
const ZSH_MIDDLE: &str = r#"    )
    open=(
"#;

/// What comes after them.
const ZSH_TAIL: &str = r#"    )
    if [[ ${words[CURRENT-1]} == -o ]]; then
        _files -/
    elif [[ $PREFIX == --output=* ]]; then
        compset -P '*='
        _files -/
    elif [[ $PREFIX == -* ]]; then
        _describe -o option complete -- open -S ''
    elif (( ${words[(I)--from-markdown]} )); then
        _files -g '*.(#i)(md|markdown)'
    else
        _files -g '*.(#i)(html|htm|xhtml)'
    fi
}

if [[ ${funcstack[1]} == _htmd ]]; then
    _htmd "$@"
else
    compdef _htmd htmd
fi
"#;

/// What comes before the options.
const FISH_HEAD: &str = r#"# Completions of htmd for fish.
complete -c htmd -n 'not __fish_contains_opt from-markdown' -k -a '(__fish_complete_suffix .html .htm .xhtml)'
complete -c htmd -n '__fish_contains_opt from-markdown' -k -a '(__fish_complete_suffix .md .markdown)'
"#;

/// What offers folders as the value of an option.
const FISH_FOLDERS: &str =
    r#" -a '(__fish_complete_directories (string replace -r "^--[^=]*=" "" -- (commandline -ct)))'"#;

// Writes the completions for a shell.
pub(crate) fn write_completions<W: Sink>(sink: &mut W, shell: Shell) -> Result<(), Failed>
    ensures { FailsAtErr result (W.has_failed sink.old) (W.has_failed sink.new) }
{
    match shell {
        Shell::Bash => write_bash(sink)?,
        Shell::Zsh => write_zsh(sink)?,
        Shell::Fish => write_fish(sink)?,
    }
    sink.flush()
}

/// The values that are offered for an option, if it takes any one.
fn values_of(row: &OptionRow) -> &'static [&'static str] {
    match row.setting {
        Setting::Valued(Valued::Encoding) => &ENCODINGS,
        _ => &[],
    }
}

// ---- bash

fn write_bash<W: Sink>(sink: &mut W) -> Result<(), Failed>
    ensures { FailsAtErr result (W.has_failed sink.old) (W.has_failed sink.new) }
{
    write_all(sink, BASH_HEAD.as_bytes())?;
    for row in &OPTIONS {
        write_words(sink, row.name, values_of(row))?;
    }
    write_all_file_words(sink)?;
    write_all(sink, BASH_TAIL.as_bytes())
}

// Writes an option, or it with each of its values.
fn write_words<W: Sink>(sink: &mut W, name: &str, values: &[&str]) -> Result<(), Failed>
    ensures { FailsAtErr result (W.has_failed sink.old) (W.has_failed sink.new) }
{
    if values.is_empty() {
        return write_word(sink, name, "");
    }
    for value in values {
        write_word(sink, name, value)?;
    }
    Ok(())
}

fn write_all_file_words<W: Sink>(sink: &mut W) -> Result<(), Failed>
    ensures { FailsAtErr result (W.has_failed sink.old) (W.has_failed sink.new) }
{
    for row in &FILE_OPTIONS {
        write_file_words(sink, row)?;
    }
    Ok(())
}

fn write_file_words<W: Sink>(sink: &mut W, row: &FileOption) -> Result<(), Failed>
    ensures { FailsAtErr result (W.has_failed sink.old) (W.has_failed sink.new) }
{
    if !row.short.is_empty() {
        write_word(sink, row.short, "")?;
    }
    write_word(sink, row.name, "")
}

fn write_word<W: Sink>(sink: &mut W, name: &str, value: &str) -> Result<(), Failed>
    ensures { FailsAtErr result (W.has_failed sink.old) (W.has_failed sink.new) }
{
    write_all(sink, name.as_bytes())?;
    write_all(sink, value.as_bytes())?;
    write_all(sink, b"\n")
}

// ---- zsh

fn write_zsh<W: Sink>(sink: &mut W) -> Result<(), Failed>
    ensures { FailsAtErr result (W.has_failed sink.old) (W.has_failed sink.new) }
{
    write_all(sink, ZSH_HEAD.as_bytes())?;
    write_descriptions(sink, false)?;
    write_shorts(sink)?;
    write_encodings(sink)?;
    write_all(sink, ZSH_MIDDLE.as_bytes())?;
    write_descriptions(sink, true)?;
    write_all(sink, ZSH_TAIL.as_bytes())
}

// Writes the options that a value follows, or the others.
fn write_descriptions<W: Sink>(sink: &mut W, is_open: bool) -> Result<(), Failed>
    ensures { FailsAtErr result (W.has_failed sink.old) (W.has_failed sink.new) }
{
    for row in &OPTIONS {
        if row.value.is_empty() != is_open {
            write_description(sink, row.name, "", row.help)?;
        }
    }
    write_file_descriptions(sink, is_open)
}

fn write_file_descriptions<W: Sink>(sink: &mut W, is_open: bool) -> Result<(), Failed>
    ensures { FailsAtErr result (W.has_failed sink.old) (W.has_failed sink.new) }
{
    for row in &FILE_OPTIONS {
        if row.value.is_empty() != is_open {
            write_description(sink, row.name, "", row.help)?;
        }
    }
    Ok(())
}

// Writes the short forms of options.
fn write_shorts<W: Sink>(sink: &mut W) -> Result<(), Failed>
    ensures { FailsAtErr result (W.has_failed sink.old) (W.has_failed sink.new) }
{
    for row in &FILE_OPTIONS {
        if !row.short.is_empty() {
            write_description(sink, row.short, "", row.help)?;
        }
    }
    Ok(())
}

// Writes the options with the values that are offered.
fn write_encodings<W: Sink>(sink: &mut W) -> Result<(), Failed>
    ensures { FailsAtErr result (W.has_failed sink.old) (W.has_failed sink.new) }
{
    for row in &OPTIONS {
        write_values(sink, row)?;
    }
    Ok(())
}

fn write_values<W: Sink>(sink: &mut W, row: &OptionRow) -> Result<(), Failed>
    ensures { FailsAtErr result (W.has_failed sink.old) (W.has_failed sink.new) }
{
    for value in values_of(row) {
        write_description(sink, row.name, value, row.help)?;
    }
    Ok(())
}

// Writes an option with its line.
fn write_description<W: Sink>(
    sink: &mut W,
    name: &str,
    value: &str,
    line: &str,
) -> Result<(), Failed>
    ensures { FailsAtErr result (W.has_failed sink.old) (W.has_failed sink.new) }
{
    write_all(sink, b"        '")?;
    write_all(sink, name.as_bytes())?;
    write_all(sink, value.as_bytes())?;
    write_all(sink, b":")?;
    write_quoted(sink, line, "'\\''")?;
    write_all(sink, b"'\n")
}

// Writes a text between apostrophes, with this in the place of each that is in it.
fn write_quoted<W: Sink>(sink: &mut W, text: &str, apostrophe: &str) -> Result<(), Failed>
    ensures { FailsAtErr result (W.has_failed sink.old) (W.has_failed sink.new) }
{
    for b in text.as_bytes() {
        if *b == b'\'' {
            write_all(sink, apostrophe.as_bytes())?;
        } else {
            write_all(sink, &[*b])?;
        }
    }
    Ok(())
}

// ---- fish

fn write_fish<W: Sink>(sink: &mut W) -> Result<(), Failed>
    ensures { FailsAtErr result (W.has_failed sink.old) (W.has_failed sink.new) }
{
    write_all(sink, FISH_HEAD.as_bytes())?;
    for row in &OPTIONS {
        write_command(sink, row)?;
    }
    write_file_commands(sink)
}

fn write_file_commands<W: Sink>(sink: &mut W) -> Result<(), Failed>
    ensures { FailsAtErr result (W.has_failed sink.old) (W.has_failed sink.new) }
{
    for row in &FILE_OPTIONS {
        write_file_command(sink, row)?;
    }
    Ok(())
}

// Writes the command for an option.
fn write_command<W: Sink>(sink: &mut W, row: &OptionRow) -> Result<(), Failed>
    ensures { FailsAtErr result (W.has_failed sink.old) (W.has_failed sink.new) }
{
    write_all(sink, b"complete -c htmd")?;
    write_name(sink, row.name)?;
    write_offered(sink, values_of(row))?;
    write_line(sink, row.help)
}

// Writes the command for an option whose value, if it takes one, is a folder.
fn write_file_command<W: Sink>(sink: &mut W, row: &FileOption) -> Result<(), Failed>
    ensures { FailsAtErr result (W.has_failed sink.old) (W.has_failed sink.new) }
{
    write_all(sink, b"complete -c htmd")?;
    if let Some(letter) = row.short.strip_prefix("-") {
        write_all(sink, b" -s ")?;
        write_all(sink, letter.as_bytes())?;
    }
    write_name(sink, row.name)?;
    if !row.value.is_empty() {
        write_all(sink, FISH_FOLDERS.as_bytes())?;
    }
    write_line(sink, row.help)
}

// Writes the name of an option, and its fixed value.
fn write_name<W: Sink>(sink: &mut W, name: &str) -> Result<(), Failed>
    ensures { FailsAtErr result (W.has_failed sink.old) (W.has_failed sink.new) }
{
    let Some(name) = name.strip_prefix("--") else {
        write_all(sink, b" -s ")?;
        return write_all(sink, name.strip_prefix("-").unwrap_or(name).as_bytes());
    };
    write_all(sink, b" -l ")?;
    let Some((word, value)) = name.split_once('=') else {
        return write_all(sink, name.as_bytes());
    };
    write_all(sink, word.as_bytes())?;
    write_all(sink, b" -x")?;
    if !value.is_empty() {
        write_all(sink, b" -a ")?;
        write_all(sink, value.as_bytes())?;
    }
    Ok(())
}

// Writes the values that are offered, if there are any.
fn write_offered<W: Sink>(sink: &mut W, values: &[&str]) -> Result<(), Failed>
    ensures { FailsAtErr result (W.has_failed sink.old) (W.has_failed sink.new) }
{
    if values.is_empty() {
        return Ok(());
    }
    write_all(sink, b" -a '")?;
    for value in values {
        write_all(sink, value.as_bytes())?;
        write_all(sink, b" ")?;
    }
    write_all(sink, b"'")
}

fn write_line<W: Sink>(sink: &mut W, line: &str) -> Result<(), Failed>
    ensures { FailsAtErr result (W.has_failed sink.old) (W.has_failed sink.new) }
{
    write_all(sink, b" -d '")?;
    write_quoted(sink, line, "\\'")?;
    write_all(sink, b"'\n")
}

//! The words of the command line: what concerns files, and the other options.
ghost use Rattle.std.specs.Prelude.{◌≡◌, IfOk, IfErr, OnOk, Some, Ok, string_bytes};
ghost use Rattle.std.specs.List.{list_any};
ghost use Rattle.std.specs.Option.{option_copied};
ghost use Rattle.std.specs.Str.{bytes_eq};
ghost use Rattle.htmd_files.specs.Words as spec;
ghost use Rattle.htmd_files.specs.WordViews.{job_in, expected_in, texts_of, IsWordFault};

use crate::faults::WordFault;
use std::alloc::Global;

/// What the words of the command line ask for.
#[derive(Drop)]
pub struct Job<'a> {
    /// The files and folders to read, in order. `-` is standard input.
    pub operands: Vec<&'a str>,
    /// What `-o` names. Without it the Markdown goes to standard output.
    pub output: Option<&'a str>,
    /// `--progress`.
    pub shows_progress: bool,
    /// `--quiet`.
    pub is_quiet: bool,
    /// `--links=md`.
    pub links_to_markdown: bool,
    /// `--newer`.
    pub keeps_newer: bool,
    /// `--copy`.
    pub copies: bool,
    /// The other options, in order.
    pub options: Vec<String>,
}

/// What the next word is.
#[derive(Clone, Copy, Drop)]
pub(crate) enum Expected<'a> {
    /// An option or a file.
    Any,
    /// The value of this option.
    Value(&'a str),
    /// A file.
    Operand,
}

impl<'a> Job<'a> {
    fn new(alloc: Global) -> Job<'a>
        ensures { job_in result ≡ spec.no_job }
    {
        Job {
            operands: Vec::new(alloc),
            output: None,
            shows_progress: false,
            is_quiet: false,
            links_to_markdown: false,
            keeps_newer: false,
            copies: false,
            options: Vec::new(alloc),
        }
    }

    /// One file more.
    fn push_operand(&mut self, word: &'a str) -> Result<(), WordFault<'a>>
        ensures ok { OnOk result (job_in self.new ≡ spec.with_operand word.now (job_in self.old)) }
        ensures err { IfErr result (λ fault. fault ≡ WordFault.Memory) }
    {
        match self.operands.push(word) {
            Ok(()) => Ok(()),
            Err(_) => Err(WordFault::Memory),
        }
    }

    /// One option more that isn't of files.
    fn push_option(&mut self, alloc: Global, word: &str) -> Result<(), WordFault<'a>>
        ensures ok { OnOk result (job_in self.new ≡ spec.with_option word.now (job_in self.old)) }
        ensures err { IfErr result (λ fault. fault ≡ WordFault.Memory) }
    {
        let Ok(option) = String::from_str(alloc, word) else {
            return Err(WordFault::Memory);
        };
        match self.options.push(option) {
            Ok(()) => Ok(()),
            Err(_) => Err(WordFault::Memory),
        }
    }

    /// The output, which an option names: once, and not by the empty text.
    fn set_output(&mut self, option: &'a str, name: &'a str) -> Result<(), WordFault<'a>>
        ensures ok { OnOk result (spec.with_output option.now name.now (job_in self.old) ≡ Ok (job_in self.new)) }
        ensures err { IfErr result (IsWordFault (spec.with_output option.now name.now (job_in self.old))) }
    {
        if name.is_empty() {
            return Err(WordFault::NoValue { word: option });
        }
        if let Some(first) = self.output {
            return Err(WordFault::Twice {
                first,
                second: name,
            });
        }
        self.output = Some(name);
        Ok(())
    }

    /// Where addresses of pages lead: to their Markdown. That links are text is an option of pages.
    fn set_links(&mut self, alloc: Global, word: &'a str, format: &str) -> Result<(), WordFault<'a>>
        ensures ok { OnOk result (spec.with_links word.now format.now (job_in self.old) ≡ Ok (job_in self.new)) }
        ensures err { IfErr result (IsWordFault (spec.with_links word.now format.now (job_in self.old))) }
    {
        if format == "md" {
            self.links_to_markdown = true;
            return Ok(());
        }
        if format == "text" {
            return self.push_option(alloc, word);
        }
        Err(WordFault::Links { word })
    }

    /// A word that doesn't name the output: one that says where links lead, another option, or a file.
    fn take_links(&mut self, alloc: Global, word: &'a str) -> Result<(), WordFault<'a>>
        ensures ok { OnOk result (spec.take_links word.now (job_in self.old)
            ≡ Ok (spec.reading spec.any (job_in self.new))) }
        ensures err { IfErr result (IsWordFault (spec.take_links word.now (job_in self.old))) }
    {
        if let Some(format) = word.strip_prefix("--links=") {
            return self.set_links(alloc, word, format);
        }
        if word == "--links" {
            return Err(WordFault::Links { word });
        }
        if word.starts_with("-") {
            return self.push_option(alloc, word);
        }
        self.push_operand(word)
    }

    /// A word that isn't a file option as it stands: one with the output in it, or another one.
    fn take_long(&mut self, alloc: Global, word: &'a str) -> Result<(), WordFault<'a>>
        ensures ok { OnOk result (spec.take_long word.now (job_in self.old)
            ≡ Ok (spec.reading spec.any (job_in self.new))) }
        ensures err { IfErr result (IsWordFault (spec.take_long word.now (job_in self.old))) }
    {
        if let Some(name) = word.strip_prefix("--output=") {
            return self.set_output(word, name);
        }
        if let Some(name) = word.strip_prefix("-o") {
            return self.set_output(word, name);
        }
        self.take_links(alloc, word)
    }

    /// A word that isn't one of the file options without a value.
    fn take_short(&mut self, alloc: Global, word: &'a str) -> Result<(), WordFault<'a>>
        ensures ok { OnOk result (spec.take_short word.now (job_in self.old)
            ≡ Ok (spec.reading spec.any (job_in self.new))) }
        ensures err { IfErr result (IsWordFault (spec.take_short word.now (job_in self.old))) }
    {
        if word == "-" {
            return self.push_operand(word);
        }
        if word.is_empty() {
            return self.push_option(alloc, word);
        }
        self.take_long(alloc, word)
    }

    /// A word that may be an option, and what the next one is.
    fn take_any(&mut self, alloc: Global, word: &'a str) -> Result<Expected<'a>, WordFault<'a>>
        ensures ok { IfOk result (λ next. spec.take_any word.now (job_in self.old)
            ≡ Ok (spec.reading (expected_in next) (job_in self.new))) }
        ensures err { IfErr result (IsWordFault (spec.take_any word.now (job_in self.old))) }
    {
        if word == "--" {
            return Ok(Expected::Operand);
        }
        if word == "-o" || word == "--output" {
            return Ok(Expected::Value(word));
        }
        if word == "--progress" {
            self.shows_progress = true;
        } else if word == "--quiet" {
            self.is_quiet = true;
        } else if word == "--newer" {
            self.keeps_newer = true;
        } else if word == "--copy" {
            self.copies = true;
        } else {
            self.take_short(alloc, word)?;
        }
        Ok(Expected::Any)
    }

    /// A word, and what the next one is.
    fn take(
        &mut self,
        alloc: Global,
        expected: Expected<'a>,
        word: &'a str,
    ) -> Result<Expected<'a>, WordFault<'a>>
        ensures ok { IfOk result (λ next. spec.take_word (expected_in expected.entry) word.now (job_in self.old)
            ≡ Ok (spec.reading (expected_in next) (job_in self.new))) }
        ensures err { IfErr result (IsWordFault
            (spec.take_word (expected_in expected.entry) word.now (job_in self.old))) }
    {
        match expected {
            Expected::Any => self.take_any(alloc, word),
            Expected::Value(option) => {
                self.set_output(option, word)?;
                Ok(Expected::Any)
            }
            Expected::Operand => {
                self.push_operand(word)?;
                Ok(Expected::Operand)
            }
        }
    }

    /// An option of outputs, where none is named.
    fn useless_option(&self) -> Option<&'static str>
        ensures { option_copied result ≡ spec.useless_option (job_in self.now) }
    {
        if self.output.is_some() {
            None
        } else if self.links_to_markdown {
            Some("--links=md")
        } else if self.keeps_newer {
            Some("--newer")
        } else if self.copies {
            Some("--copy")
        } else {
            None
        }
    }

    /// Whether the HTML of Markdown is written, in which links stay as they are.
    fn keeps_links(&self) -> bool
        ensures { result ≡ spec.keeps_links (job_in self.now) }
    {
        is_given(&self.options, "--html") && is_given(&self.options, "--from-markdown")
    }

    /// An option that says where links lead.
    fn link_option(&self) -> Option<&'static str>
        ensures { option_copied result ≡ spec.link_option (job_in self.now) }
    {
        if self.links_to_markdown {
            Some("--links=md")
        } else if has_base(&self.options) {
            Some("--base")
        } else {
            None
        }
    }

    /// Such an option, where they stay.
    fn idle_option(&self) -> Option<&'static str>
        ensures { option_copied result ≡ spec.idle_option (job_in self.now) }
    {
        if self.keeps_links() {
            self.link_option()
        } else {
            None
        }
    }

    /// After the last word: `-` after `-o` is standard output, and if an output is named and nothing to read, standard
    /// input is read.
    fn complete(&mut self) -> Result<(), WordFault<'a>>
        ensures ok { OnOk result (job_in self.new ≡ spec.completed (job_in self.old)) }
        ensures err { IfErr result (λ fault. fault ≡ WordFault.Memory) }
    {
        let Some(name) = self.output else {
            return Ok(());
        };
        if name == "-" {
            self.output = None;
            return Ok(());
        }
        if self.operands.is_empty() {
            return self.push_operand("-");
        }
        Ok(())
    }
}

/// Whether this is one of the options.
fn is_given(options: &[String], word: &str) -> bool
    ensures { result ≡ list_any (λ option. bytes_eq option word.now) (texts_of options.now) }
{
    options.iter().any(|option| option.as_str() == word)
}

/// Whether the option says where addresses begin.
fn is_base(option: &str) -> bool
    ensures { result ≡ spec.is_base option.now }
{
    option.starts_with("--base=")
}

/// Whether one of the options does.
fn has_base(options: &[String]) -> bool
    ensures { result ≡ list_any spec.is_base (texts_of options.now) }
{
    options.iter().any(|option| is_base(option.as_str()))
}

/// What the words of the command line ask for: the files to read, where to write, and the other options. A word that
/// begins with `-` is an option, but `-` alone is standard input, and after `--` each word is a file. The empty word is
/// passed on with the options.
pub fn job_of<'a>(alloc: Global, words: &'a [String]) -> Result<Job<'a>, WordFault<'a>>
    ensures ok { IfOk result (λ job. spec.job (texts_of words.now) ≡ Ok (job_in job)) }
    ensures err { IfErr result (IsWordFault (spec.job (texts_of words.now))) }
{
    let mut job = Job::new(alloc);
    let mut expected = Expected::Any;
    for word in words {
        expected = job.take(alloc, expected, word.as_str())?;
    }
    if let Expected::Value(option) = expected {
        return Err(WordFault::NoValue { word: option });
    }
    job.complete()?;
    if let Some(option) = job.useless_option() {
        return Err(WordFault::NeedsOutput { option });
    }
    match job.idle_option() {
        Some(option) => Err(WordFault::LinksStay { option }),
        None => Ok(job),
    }
}

//! What the options ask for, as a conversion.
ghost use Rattle.std.specs.Prelude.{◌≡◌, ◌↔◌, true, false, option_copied, option_map, IfOk, IsErrOf, IsTrue, OnErr};
ghost use Rattle.std.specs.Prelude.{OnOk};
ghost use Rattle.htmd.specs.PageSettings.{page_in, settings_for, settings_in};
ghost use Rattle.htmd_addresses.specs.RunViews.{run_page_of};
ghost use Rattle.htmd_cli.specs.OptionRows.{request_in};
ghost use Rattle.htmd_cli.specs.Options.{request_by};
ghost use Rattle.htmd_cli.specs.Rows.{AnswersSome, Succeeds};
ghost use Rattle.htmd_cli.specs.StreamConversions.{Converts, Ends};
ghost use Rattle.htmd_command.specs.PageResults.{IsResultOf, given_name as named_input, in_run, name_of, own_url};
ghost use Rattle.htmd_command.specs.PageResults.{pages_led, request_for, request_for_file, run_page_in};

use htmd::{HtmlToMarkdown, PageConverter, PageError, PageInRun, PageSettings};
use htmd_addresses::{Pages, RunPage};
use htmd_cli::{
    Request, Sink, Source, StreamError, command, convert_stream, report_article, report_page,
};
use htmd_files::Page;
use htmd_folders::{Conversion, Lines, ShownName};
use std::alloc::{AllocError, Global};
use std::fmt::Write;
use url::Url;

/// The conversion of one page, or of rows with a page each, by what the options ask for.
#[derive(Drop)]
pub(crate) struct Requested<'a, 'b, 'c, 'd> {
    pub(crate) alloc: Global,
    pub(crate) options: &'a [String],
    pub(crate) request: &'b Request<'c>,
    /// The pages of the run, if addresses that lead to them lead to their outputs.
    pub(crate) pages: Option<&'d Pages>,
    ghost is_read: { request_in request.now ≡ request_by options.now },
    ghost converts: { (request_by options.now).shows ≡ false },
}

/// Why a conversion did not succeed.
#[derive(Drop)]
pub(crate) enum Refusal {
    /// The page's error, and what was read of it.
    Page { error: StreamError, input: Vec<u8> },
    /// Rows stopped; where and why was said.
    Rows,
}

/// Reads the whole source, and writes what it becomes by settings and by what a run adds, as `convert_stream` does it;
/// also returns what was read.
fn convert_in_run<R: Source, W: Sink>(
    alloc: Global,
    source: &mut R,
    sink: &mut W,
    settings: &PageSettings<'_>,
    page: &PageInRun<'_>,
) -> (Result<(), StreamError>, Vec<u8>)
    requires source { R.has_failed source.old ≡ false }
    requires sink { W.has_failed sink.old ≡ false }
    ensures ends { Ends (settings_for (page_in page.now) (settings_in settings.now))
        (R.remaining source.old) (R.remaining source.new) W.contents sink.old sink.new result.0 }
    ensures write_failed { IsErrOf result.0 StreamError.Write ↔ IsTrue (W.has_failed sink.new) }
{
    let Ok(builder) = HtmlToMarkdown::builder(alloc) else {
        return (Err(StreamError::from(AllocError)), Vec::new(alloc));
    };
    let Ok(converter) = PageConverter::new(builder, settings) else {
        return (Err(StreamError::from(AllocError)), Vec::new(alloc));
    };
    convert_stream(alloc, source, sink, &converter, page)
}

/// The path of an input, unless it is standard input.
fn given_name(input: &str) -> Option<&str>
    ensures { option_copied result ≡ named_input input.now }
{
    if input == "-" { None } else { Some(input) }
}

/// What a page is called: by its path in the folder that was named, or as it was named itself.
fn page_name(page: &Page) -> Option<&str>
    ensures { option_copied result ≡ name_of page.now }
{
    match &page.path_in_folder {
        Some(path) => Some(path.as_str()),
        None => given_name(&page.input),
    }
}

/// A page as one of a run, if addresses lead to its pages.
#[tactic(auto, using(crate::proofs::PageResultsLemmas::run_told, crate::proofs::PageResultsLemmas::run_untold))]
fn run_page<'a>(pages: Option<&'a Pages>, page: &'a Page) -> Option<RunPage<'a>>
    ensures { option_map run_page_of result ≡ run_page_in (pages_led pages.entry) page.now }
{
    match pages {
        Some(pages) => Some(RunPage {
            pages,
            input: &page.input,
            output: &page.output,
            path_in_folder: page.path_in_folder.as_deref(),
        }),
        None => None,
    }
}

impl Requested<'_, '_, '_, '_> {
    /// Converts rows with a page each.
    fn convert_rows<R: Source, W: Sink, E: Sink>(
        &self,
        source: &mut R,
        sink: &mut W,
        errors: &mut E,
    ) -> Result<(), Refusal>
        requires source { R.has_failed source.old ≡ false }
        requires sink { W.has_failed sink.old ≡ false }
        requires rows { (request_by self.now.options.now).rows ≡ true }
        ensures done { OnOk result (Succeeds (request_by self.now.options.now)
            (R.remaining source.old) (W.contents sink.old) (W.contents sink.new)) }
        ensures some { OnErr result (W.has_failed sink.new ≡ false
            → AnswersSome (request_by self.now.options.now)
            (R.remaining source.old) (W.contents sink.old) (W.contents sink.new)) }
    {
        match command(self.alloc, self.options, source, sink, errors) {
            0 => Ok(()),
            _ => Err(Refusal::Rows),
        }
    }

    /// Converts the page of a path, with what the run adds for it. What its main content is, is said if requested.
    fn convert_page<R: Source, W: Sink, E: Sink>(
        &self,
        path: &str,
        page: &PageInRun<'_>,
        source: &mut R,
        sink: &mut W,
        errors: &mut E,
    ) -> Result<(), Refusal>
        requires source { R.has_failed source.old ≡ false }
        requires sink { W.has_failed sink.old ≡ false }
        ensures done { OnOk result (Converts
            (settings_for (page_in page.now) (request_by self.now.options.now).settings)
            (R.remaining source.old) (W.contents sink.old) (W.contents sink.new)) }
        ensures nothing { OnErr result (W.has_failed sink.new ≡ false → sink.new ≡ sink.old) }
    {
        match convert_in_run(self.alloc, source, sink, self.request.settings(), page) {
            (Ok(()), input) => {
                let path = ShownName(path);
                report_article(self.alloc, errors, &path, self.request, input.as_slice());
                Ok(())
            }
            (Err(error), input) => Err(Refusal::Page { error, input }),
        }
    }

    /// Converts a page as if it was alone, but for its name, or rows with a page each.
    pub(crate) fn convert_alone<R: Source, W: Sink, E: Sink>(
        &self,
        name: &str,
        source: &mut R,
        sink: &mut W,
        errors: &mut E,
    ) -> Result<(), Refusal>
        requires source { R.has_failed source.old ≡ false }
        requires sink { W.has_failed sink.old ≡ false }
        ensures done { OnOk result (Succeeds (request_for_file name.now (request_by self.now.options.now))
            (R.remaining source.old) (W.contents sink.old) (W.contents sink.new)) }
        ensures nothing { OnErr result ((request_by self.now.options.now).rows ≡ false
            → W.has_failed sink.new ≡ false → sink.new ≡ sink.old) }
        ensures rows { OnErr result ((request_by self.now.options.now).rows ≡ true
            → W.has_failed sink.new ≡ false
            → AnswersSome (request_for_file name.now (request_by self.now.options.now))
            (R.remaining source.old) (W.contents sink.old) (W.contents sink.new)) }
    {
        if self.request.takes_rows() {
            return self.convert_rows(source, sink, errors);
        }
        let page = PageInRun {
            name: Some(name),
            ..PageInRun::alone()
        };
        self.convert_page(name, &page, source, sink, errors)
    }

    /// The URL of a page that was found below a folder, if the URL of that is known. `Err` means out of memory.
    #[tactic(auto, using(crate::proofs::PageResultsLemmas::url_at, crate::proofs::PageResultsLemmas::no_url))]
    fn own_url(&self, page: &Page) -> Result<Option<Url>, AllocError>
        ensures { IfOk result
            (λ url. url ≡ own_url (request_by self.now.options.now).settings.base page.now) }
    {
        match &page.path_in_folder {
            Some(path) => self.request.url_in_folder(self.alloc, path),
            None => Ok(None),
        }
    }

    /// What the run adds for a page. `Err` means out of memory.
    fn page_in_run<'x>(&'x self, page: &'x Page) -> Result<PageInRun<'x>, AllocError>
        ensures { IfOk result (λ added. page_in added
            ≡ in_run (pages_led self.now.pages) page.now (request_by self.now.options.now).settings) }
    {
        let url = self.own_url(page)?;
        Ok(PageInRun {
            url,
            name: page_name(page),
            run_page: run_page(self.pages, page),
        })
    }
}

impl Conversion for Requested<'_, '_, '_, '_> {
    ghost use Rattle.htmd_command.specs.PageResults.{IsResultOf, pages_led, request_for};

    type Fault = Refusal;

    ghost becomes = { λ s page. IsResultOf (request_for (pages_led s.pages) page (request_by s.options.now)) };

    fn convert<R: Source, W: Sink, E: Sink>(
        &self,
        page: &Page,
        source: &mut R,
        sink: &mut W,
        errors: &mut E,
    ) -> Result<(), Refusal> {
        if self.request.takes_rows() {
            return self.convert_rows(source, sink, errors);
        }
        match self.page_in_run(page) {
            Ok(added) => self.convert_page(&page.input, &added, source, sink, errors),
            Err(AllocError) => Err(Refusal::Page {
                error: StreamError::Page(PageError::Memory),
                input: Vec::new(self.alloc),
            }),
        }
    }

    fn report<E: Sink>(&self, page: &str, fault: &Refusal, errors: &mut E) {
        match fault {
            Refusal::Page { error, input } => {
                let page = ShownName(page);
                report_page(errors, &page, error, input, self.request.explains());
            }
            Refusal::Rows => {
                let page = ShownName(page);
                let _ = writeln!(
                    Lines { sink: errors },
                    "htmd: {page}: not all rows were answered"
                );
            }
        }
    }
}

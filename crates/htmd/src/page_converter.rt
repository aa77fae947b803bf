//! One call for a page: its encoding, how it is read, what of it is converted, and how that is written.

ghost use Rattle.std.specs.Prelude.{◌≡◌, [], IfErr, IfOk, is_some, string_bytes};
ghost use Rattle.htmd_walk.specs.BuiltIn.{built_in};
ghost use Rattle.htmd_walk.specs.Defaults.{default_options};
ghost use Rattle.htmd.specs.Converters.{handlers_built, skipped_built};
ghost use Rattle.htmd.specs.PageOutputs.{IsFaultOf, IsMainContent, IsOutputOf, text_in};
ghost use Rattle.htmd.specs.PageSettings.{page_in, settings_for, settings_in, writes_html};
ghost use Rattle.htmd.specs.PageSights.{IsSeen};

use crate::converter::{HtmlToMarkdown, HtmlToMarkdownBuilder};
use crate::page_error::PageError;
use crate::page_output::{converter_by, main_content_of, output_of};
use crate::page_settings::{PageInRun, PageSettings};
use htmd_article::Article;
use htmd_walk::element_handler::{ElementHandlers, Registrar, Registry};
use std::alloc::{AllocError, Global};

/// Converts pages by settings. It is made once for all pages of a run.
#[derive(Drop)]
pub struct PageConverter<'a, 'b, R = ElementHandlers> {
    converter: HtmlToMarkdown<R>,
    settings: &'a PageSettings<'b>,
}

/// What the bytes of a page become by settings: Markdown, JSON in the form of mdast, or pieces as lines of JSON. In
/// Markdown of what a person sees, a reader of CommonMark sees the same; pieces together are the same document. The
/// settings say how the bytes are decoded and read, what of the page is converted, and how that is written.
/// `NothingSelected` is a page of which no element is selected; `NotUtf8` and `Refused` come only where a text or
/// strict HTML is read; `Memory` means out of memory.
pub fn convert_page(
    alloc: Global,
    bytes: &[u8],
    settings: &PageSettings<'_>,
) -> Result<String, PageError>
    ensures ok { IfOk result (λ output. IsOutputOf (settings_in settings.now) bytes.now (string_bytes output)) }
    ensures seen { IfOk result (λ output. IsSeen (settings_in settings.now) bytes.now (string_bytes output)) }
    ensures fault { IfErr result (IsFaultOf (settings_in settings.now) bytes.now) }
{
    let converter = PageConverter::new(HtmlToMarkdown::builder(alloc)?, settings)?;
    converter.convert_alone(alloc, bytes)
}

/// The main content of a page, and the rule by which it was chosen, whether or not the settings say that only that is
/// converted. They say how the bytes are decoded and read. The errors are those of `convert_page`, but for
/// `NothingSelected`.
pub fn main_content(
    alloc: Global,
    bytes: &[u8],
    settings: &PageSettings<'_>,
) -> Result<Article, PageError>
    ensures { IfOk result (λ article. IsMainContent (settings_in settings.now)
        (text_in (settings_in settings.now) bytes.now) article.chosen article.tree) }
{
    let converter = converter_by(HtmlToMarkdown::builder(alloc)?, settings)?;
    main_content_of(alloc, &converter, settings, bytes)
}

impl<'a, 'b, R: Registrar + Drop> PageConverter<'a, 'b, R> {
    ghost use Rattle.htmd.specs.PageConverters.{IsReady, settings_of};

    /// A converter by these settings, of a new builder, as `HtmlToMarkdown::builder` gives it. `Err` means out of
    /// memory.
    pub fn new(
        builder: HtmlToMarkdownBuilder<R>,
        settings: &'a PageSettings<'b>,
    ) -> Result<PageConverter<'a, 'b, R>, AllocError>
        requires ready { R.ready (handlers_built builder) }
        requires default { R.config (handlers_built builder) ≡ built_in default_options }
        requires none_skipped { skipped_built builder ≡ [] }
        ensures ready { IfOk result (IsReady R.ready R.config) }
        ensures settings { IfOk result (λ converter. settings_of converter ≡ settings_in settings.now) }
    {
        let converter = converter_by(builder, settings)?;
        Ok(PageConverter {
            converter,
            settings,
        })
    }
}

impl<R: Registry> PageConverter<'_, '_, R> {
    ghost use Rattle.htmd.specs.PageConverters.{IsReady, settings_of};

    /// Whether pages become lines that each end with a line feed.
    pub fn writes_lines(&self) -> bool
        ensures { result ≡ is_some (settings_of self.now).chunks }
    {
        self.settings.chunks.is_some()
    }

    /// Whether pages of Markdown become their HTML.
    pub fn writes_html(&self) -> bool
        ensures { result ≡ writes_html (settings_of self.now) }
    {
        self.settings.writes_html()
    }

    /// What the bytes of a page become by itself, as `convert_page` gives it.
    pub fn convert_alone(&self, alloc: Global, bytes: &[u8]) -> Result<String, PageError>
        requires ready { IsReady R.ready R.config self.now }
        ensures ok { IfOk result (λ output. IsOutputOf (settings_of self.now) bytes.now (string_bytes output)) }
        ensures seen { IfOk result (λ output. IsSeen (settings_of self.now) bytes.now (string_bytes output)) }
        ensures fault { IfErr result (IsFaultOf (settings_of self.now) bytes.now) }
    {
        self.convert(alloc, bytes, &PageInRun::alone())
    }

    /// What the bytes of a page become, with what a run adds for this page.
    pub fn convert(
        &self,
        alloc: Global,
        bytes: &[u8],
        page: &PageInRun<'_>,
    ) -> Result<String, PageError>
        requires ready { IsReady R.ready R.config self.now }
        ensures ok { IfOk result (λ output. IsOutputOf
            (settings_for (page_in page.now) (settings_of self.now)) bytes.now (string_bytes output)) }
        ensures seen { IfOk result (λ output. IsSeen
            (settings_for (page_in page.now) (settings_of self.now)) bytes.now (string_bytes output)) }
        ensures fault { IfErr result (IsFaultOf
            (settings_for (page_in page.now) (settings_of self.now)) bytes.now) }
    {
        output_of(alloc, &self.converter, self.settings, page, bytes)
    }
}

//! How a page is read, and how it is converted.

ghost use Rattle.std.specs.Prelude.{◌≡◌};
ghost use Rattle.htmd.specs.PageSettings.{alone, default_settings, is_any_page, is_markdown, page_in, settings_in};
ghost use Rattle.htmd.specs.PageSettings.{writes_html};

use htmd_addresses::RunPage;
use htmd_document_of_tree::Anchors;
use htmd_encodings::Encoding;
use htmd_selectors::Selectors;
use htmd_trimming::Images;
use htmd_walk::options::Options;
use std::alloc::Global;
use url::Url;

/// How a page is read, and how it is converted.
#[derive(Drop)]
pub struct PageSettings<'a> {
    /// The input is the text of one paragraph, and not HTML. Then what says how a page is read, which parts of it count
    /// and what is written of its head has no effect.
    pub text: bool,
    /// The input is a whole page, and what is between the tags of its body is converted.
    pub body: bool,
    /// The input is any page, as browsers read it: bytes that aren't UTF-8 are decoded, and nothing is refused. Then
    /// `body` has no effect.
    pub html5: bool,
    /// The input is Markdown in UTF-8, and the page is its HTML, which is read as browsers read it. Then `body`,
    /// `html5` and `encoding` have no effect.
    pub from_markdown: bool,
    /// The encoding of any page whose bytes have no mark, if it is known. Otherwise the page's own declaration counts.
    pub encoding: Option<Encoding>,
    /// With `from_markdown`: the HTML of the Markdown is written as it is. Then all that says what is converted and how
    /// has no effect.
    pub as_html: bool,
    /// What a reader sees of the page is written, so that a reader of CommonMark reads it back.
    pub guarded: bool,
    /// What a reader sees of the page is written as JSON, in the form of mdast. Then `guarded` has no effect.
    pub mdast: bool,
    /// What a reader sees of the page is written in pieces of at most so many bytes of Markdown, where it can be cut,
    /// as lines of JSON. Then `guarded` and `mdast` have no effect.
    pub chunks: Option<usize>,
    /// Which places of links the document has that a reader sees.
    pub anchors: Anchors,
    /// That document keeps elements that Markdown has no form for, as HTML.
    pub rich: bool,
    /// The content of `noscript` is one text, else it is nodes.
    pub scripting: bool,
    pub options: Options,
    /// Elements with these names give nothing. The names of elements are in lower case.
    pub skipped: Vec<&'a str>,
    /// What the page hides by its attributes is left out, before anything else is.
    pub visible: bool,
    /// Only the main content of the page is converted.
    pub article: bool,
    /// If there are any, only the outermost elements that these name are converted.
    pub selected: Selectors,
    /// The elements that these name are left out, before others are selected.
    pub dropped: Selectors,
    /// How images are kept.
    pub images: Images,
    /// Links are written as their text, without their addresses.
    pub links_as_text: bool,
    /// The title of the page is written first, as a heading, if what is converted has no `h1`.
    pub title: bool,
    /// The URL of the page. Addresses are made absolute by it, or by the base that the page names against it.
    pub base: Option<Url>,
    /// What the head of the page says about it is written first; in pieces it is in each line.
    pub front_matter: bool,
}

/// What a run over several pages adds to the settings for one of them.
#[derive(Drop)]
pub struct PageInRun<'a> {
    /// The URL of this page, if it has one of its own. It counts in place of the settings' base.
    pub url: Option<Url>,
    /// What the page is called where it is written in pieces, which name it.
    pub name: Option<&'a str>,
    /// Addresses that lead to pages of the run lead to their outputs, and aren't made absolute.
    pub run_page: Option<RunPage<'a>>,
}

impl<'a> PageSettings<'a> {
    /// The settings that convert as `convert` does: the input is HTML of the strict grammar, its Markdown is that of
    /// the Rust crate by the default options, scripting is on, and no element is skipped.
    pub fn new(alloc: Global) -> PageSettings<'a>
        ensures { settings_in result ≡ default_settings }
    {
        PageSettings {
            text: false,
            body: false,
            html5: false,
            from_markdown: false,
            encoding: None,
            as_html: false,
            guarded: false,
            mdast: false,
            chunks: None,
            anchors: Anchors::Linked,
            rich: false,
            scripting: true,
            options: Options::default(),
            skipped: Vec::new(alloc),
            visible: false,
            article: false,
            selected: Selectors::new(alloc),
            dropped: Selectors::new(alloc),
            images: Images::Keep,
            links_as_text: false,
            title: false,
            base: None,
            front_matter: false,
        }
    }

    /// Whether a page is read as browsers read it.
    pub fn is_any_page(&self) -> bool
        ensures { result ≡ is_any_page (settings_in self.now) }
    {
        self.from_markdown || self.html5
    }

    /// Whether an input is Markdown: a text that is one paragraph isn't.
    pub fn is_markdown(&self) -> bool
        ensures { result ≡ is_markdown (settings_in self.now) }
    {
        self.from_markdown && !self.text
    }

    /// Whether the HTML of Markdown is written as it is.
    pub fn writes_html(&self) -> bool
        ensures { result ≡ writes_html (settings_in self.now) }
    {
        self.as_html && self.is_markdown()
    }
}

impl<'a> PageInRun<'a> {
    /// A page by itself: nothing is added.
    pub fn alone() -> PageInRun<'a>
        ensures { page_in result ≡ alone }
    {
        PageInRun {
            url: None,
            name: None,
            run_page: None,
        }
    }
}

//! What the program's options ask for.
ghost use Rattle.std.specs.Prelude.{◌≡◌, ◌⊎◌, true, false, None, is_some, map, length, drop, MatchOption, IfSome, OnOk};
ghost use Rattle.std.specs.Prelude.{IfOk, IfErr};
ghost use Rattle.htmd_cli.specs.Options as spec;
ghost use Rattle.std.specs.List.{list_any};
ghost use Rattle.htmd_selectors.specs.Views.{steps_in};
ghost use Rattle.htmd.specs.PageValues as values;
ghost use Rattle.htmd.specs.PageValues.{AddsSelectors};
ghost use Rattle.htmd_cli.specs.OptionRows.{IsOptionFault, takes_value, takes_memory, value_takes_memory, styled};
ghost use Rattle.htmd_cli.specs.OptionRows.{effect_of, value_effect, option_of, request_in};
ghost use Rattle.htmd.specs.PageSettings.{settings_in};
ghost use Rattle.htmd_cli.specs.declared.requests.OptionFault.TheVariants.{Memory};

use crate::options::{Notice, OPTIONS, OptionRow, Setting, Style, Valued};
use crate::values::{number, size};
use htmd::PageSettings;
use htmd::options::{Options, TranslationMode};
use htmd::page_values::{are_names, parse_url, push_names, push_selectors};
use htmd_addresses::page_url;
use htmd_encodings::encoding_named;
use htmd_selectors::{SelectorError, Selectors};
use std::alloc::{AllocError, Global};
use url::Url;

/// What the options ask for.
#[derive(Drop)]
pub struct Request<'a> {
    pub(crate) settings: PageSettings<'a>,
    /// The source is rows with a page each.
    pub(crate) rows: bool,
    pub(crate) shows: Option<Notice>,
    pub(crate) explains: bool,
}

/// Why there is no request.
#[derive(Drop)]
pub enum OptionFault<'a> {
    /// The first option that isn't known, or not with this value.
    Unknown(&'a str),
    /// The first option whose value isn't a selector.
    Selector {
        option: &'a str,
        error: SelectorError,
    },
    /// Out of memory.
    Memory,
}

impl From<AllocError> for OptionFault<'_> {
    ghost from_gives = { λ _ fault. fault ≡ Memory };

    fn from(_error: AllocError) -> Self {
        OptionFault::Memory
    }
}

fn takes_value(setting: Setting) -> bool
    ensures { result ≡ takes_value setting }
{
    matches!(setting, Setting::Valued(_))
}

/// The value that the option gives, if it is this row's: nothing, or what follows its name.
fn value_in<'a>(given: &'a str, name: &str, setting: Setting) -> Option<&'a str>
    ensures { MatchOption result
        (spec.is_given name.now (takes_value setting) given.now ≡ false)
        (λ value. (spec.is_given name.now (takes_value setting) given.now ≡ true)
        × (value.now ≡ drop (length name.now) given.now)) }
{
    if takes_value(setting) {
        return given.strip_prefix(name);
    }
    if given == name {
        return Some("");
    }
    None
}

/// What the option sets by one of these rows, and its value.
fn setting_in<'a>(given: &'a str, rows: &[OptionRow]) -> Option<(Setting, &'a str)>
    ensures meaning { MatchOption result (spec.meaning (map option_of rows.now) given.now ≡ None)
        (λ found. spec.meaning (map option_of rows.now) given.now ≡ effect_of found.0 found.1.now) }
    ensures memory { IfSome result
        (λ found. spec.takes_memory_in (map option_of rows.now) given.now ≡ takes_memory found.0) }
{
    for row in rows {
        if let Some(value) = value_in(given, row.name, row.setting) {
            return Some((row.setting, value));
        }
    }
    None
}

/// What the option sets, and its value.
fn setting_of(given: &str) -> Option<(Setting, &str)>
    ensures meaning { MatchOption result (spec.meaning spec.known_options given.now ≡ None)
        (λ found. spec.meaning spec.known_options given.now ≡ effect_of found.0 found.1.now) }
    ensures memory { IfSome result
        (λ found. spec.is_read_in_memory given.now ≡ takes_memory found.0) }
{
    setting_in(given, &OPTIONS)
}

fn set_style(options: &mut Options, style: Style)
    ensures { options.new ≡ styled style options.old }
{
    match style {
        Style::Heading(style) => options.heading_style = style,
        Style::Rule(style) => options.hr_style = style,
        Style::LineBreak(style) => options.br_style = style,
        Style::Link(style) => options.link_style = style,
        Style::Reference(style) => options.link_reference_style = style,
        Style::CodeBlock(style) => options.code_block_style = style,
        Style::Fence(symbol) => options.code_block_fence = symbol,
        Style::Bullet(marker) => options.bullet_list_marker = marker,
    }
}

/// Adds the selectors that an option gives.
fn add_selectors<'a>(
    alloc: Global,
    selectors: &mut Selectors,
    value: &str,
    option: &'a str,
) -> Result<(), OptionFault<'a>>
    ensures ok { OnOk result (AddsSelectors (steps_in selectors.old) (steps_in selectors.new) value.now) }
    ensures fault { IfErr result (λ fault. (values.selectors value.now ≡ None) ⊎ (fault ≡ Memory)) }
{
    match push_selectors(alloc, selectors, value) {
        Ok(()) => Ok(()),
        Err(SelectorError::Memory) => Err(OptionFault::Memory),
        Err(error) => Err(OptionFault::Selector { option, error }),
    }
}

impl<'a> Request<'a> {
    /// The request without any option.
    fn new(alloc: Global) -> Request<'a>
        ensures { request_in result ≡ spec.default_request }
    {
        Request {
            settings: PageSettings::new(alloc),
            rows: false,
            shows: None,
            explains: false,
        }
    }

    /// What a run is asked to do.
    pub fn settings(&self) -> &PageSettings<'a>
        ensures { settings_in result.now ≡ (request_in self.now).settings }
    {
        &self.settings
    }

    /// The URL of the page that has this path in the folder whose URL is the base; none if there is no base, or no such
    /// URL. `Err` means out of memory, or a URL of 4 GB.
    pub fn url_in_folder(&self, alloc: Global, path: &str) -> Result<Option<Url>, AllocError>
        ensures { IfOk result (λ url. url ≡ spec.url_in_folder (request_in self.now).settings.base path.now) }
    {
        match &self.settings.base {
            Some(url) => page_url(alloc, url, path),
            None => Ok(None),
        }
    }

    /// What the names of outputs end with.
    pub fn extension(&self) -> &'static str
        ensures { result.now ≡ spec.extension (request_in self.now).settings }
    {
        if self.settings.writes_html() {
            "html"
        } else if self.settings.chunks.is_some() {
            "jsonl"
        } else if self.settings.mdast {
            "json"
        } else {
            "md"
        }
    }

    /// Whether the source is rows with a page each.
    pub fn takes_rows(&self) -> bool
        ensures { result ≡ (request_in self.now).rows }
    {
        self.rows
    }

    /// Whether something is shown in place of a conversion, as the help.
    pub fn shows_notice(&self) -> bool
        ensures { result ≡ (request_in self.now).shows }
    {
        self.shows.is_some()
    }

    /// Whether what is said of a refused page is explained.
    pub fn explains(&self) -> bool {
        self.explains
    }

    /// Sets what an option sets by its value. After an `Err` nothing is set.
    #[tactic(auto, using(crate::proofs::OptionsLemmas::selector_fault))]
    fn set_value(
        &mut self,
        alloc: Global,
        valued: Valued,
        value: &'a str,
        given: &'a str,
    ) -> Result<(), OptionFault<'a>>
        ensures known { OnOk result (is_some (value_effect valued value.now) ≡ true) }
        ensures set { OnOk result (request_in self.new
            ≡ spec.after (value_effect valued value.now) (request_in self.old)) }
        ensures fault { IfErr result (λ fault. IsOptionFault fault
            (is_some (value_effect valued value.now)) (value_takes_memory valued)) }
    {
        let settings = &mut self.settings;
        let unknown = OptionFault::Unknown(given);
        match valued {
            Valued::Encoding => {
                settings.encoding = Some(encoding_named(value.as_bytes()).ok_or(unknown)?)
            }
            Valued::Select => add_selectors(alloc, &mut settings.selected, value, given)?,
            Valued::Drop => add_selectors(alloc, &mut settings.dropped, value, given)?,
            Valued::Skip if are_names(value) => push_names(&mut settings.skipped, value)?,
            Valued::Skip => return Err(unknown),
            Valued::Base => settings.base = Some(parse_url(alloc, value)?.ok_or(unknown)?),
            Valued::Chunks => settings.chunks = Some(size(value).ok_or(unknown)?),
            Valued::BulletSpacing => {
                settings.options.ul_bullet_spacing = number(value).ok_or(unknown)?
            }
            Valued::NumberSpacing => {
                settings.options.ol_number_spacing = number(value).ok_or(unknown)?
            }
        }
        Ok(())
    }

    /// Sets what an option sets. After an `Err` nothing is set.
    fn set(
        &mut self,
        alloc: Global,
        setting: Setting,
        value: &'a str,
        given: &'a str,
    ) -> Result<(), OptionFault<'a>>
        ensures known { OnOk result (is_some (effect_of setting value.now) ≡ true) }
        ensures set { OnOk result (request_in self.new
            ≡ spec.after (effect_of setting value.now) (request_in self.old)) }
        ensures fault { IfErr result (λ fault. IsOptionFault fault
            (is_some (effect_of setting value.now)) (takes_memory setting)) }
    {
        let settings = &mut self.settings;
        match setting {
            Setting::Text => settings.text = true,
            Setting::Body => settings.body = true,
            Setting::Html5 => settings.html5 = true,
            Setting::Web => {
                settings.html5 = true;
                settings.guarded = true;
            }
            Setting::FromMarkdown => {
                settings.from_markdown = true;
                settings.html5 = true;
                settings.guarded = true;
            }
            Setting::Rows => self.rows = true,
            Setting::Faithful => {
                settings.options.translation_mode = TranslationMode::Faithful;
                settings.guarded = false;
            }
            Setting::Html => settings.as_html = true,
            Setting::Guarded => settings.guarded = true,
            Setting::Mdast => settings.mdast = true,
            Setting::Chunks(most) => settings.chunks = Some(most),
            Setting::NoScripting => settings.scripting = false,
            Setting::Anchors(anchors) => settings.anchors = anchors,
            Setting::Rich => settings.rich = true,
            Setting::FrontMatter => settings.front_matter = true,
            Setting::Title => settings.title = true,
            Setting::Visible => settings.visible = true,
            Setting::Article => settings.article = true,
            Setting::Images(images) => settings.images = images,
            Setting::LinksAsText => settings.links_as_text = true,
            Setting::Style(style) => set_style(&mut settings.options, style),
            Setting::PreformattedCode => settings.options.preformatted_code = true,
            Setting::Explain => self.explains = true,
            Setting::Show(notice) => self.shows = Some(notice),
            Setting::Valued(valued) => return self.set_value(alloc, valued, value, given),
        }
        Ok(())
    }

    /// Takes an option. After an `Err` nothing is set.
    fn take(&mut self, alloc: Global, given: &'a str) -> Result<(), OptionFault<'a>>
        ensures known { OnOk result (is_some (spec.meaning spec.known_options given.now) ≡ true) }
        ensures set { OnOk result (request_in self.new
            ≡ spec.after (spec.meaning spec.known_options given.now) (request_in self.old)) }
        ensures fault { IfErr result (λ fault. IsOptionFault fault
            (is_some (spec.meaning spec.known_options given.now))
            (spec.is_read_in_memory given.now)) }
    {
        match setting_of(given) {
            Some((setting, value)) => self.set(alloc, setting, value, given),
            None => Err(OptionFault::Unknown(given)),
        }
    }
}

/// What the options ask for. Each is looked at even if memory ran out, so that is never taken for an unknown option.
pub fn read_options(alloc: Global, options: &[String]) -> Result<Request<'_>, OptionFault<'_>>
    ensures ok { IfOk result (λ request. request_in request ≡ spec.request_by options.now) }
    ensures known { IfOk result (λ _. spec.are_known options.now ≡ true) }
    ensures fault { IfErr result (λ fault. IsOptionFault fault
        (spec.are_known options.now) (list_any spec.takes_memory options.now)) }
{
    let mut request = Request::new(alloc);
    let mut has_memory = true;
    for option in options {
        match request.take(alloc, option.as_str()) {
            Ok(()) => {}
            Err(OptionFault::Memory) => has_memory = false,
            Err(fault) => return Err(fault),
        }
    }
    if has_memory {
        Ok(request)
    } else {
        Err(OptionFault::Memory)
    }
}

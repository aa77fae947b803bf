//! What is done to the tree of a page before it is converted.
ghost use Rattle.std.specs.Prelude.{◌≡◌, if◌then◌else◌, IfOk, None, is_some, option_copied, option_map};
ghost use Rattle.std.specs.Prelude.{string_bytes};
ghost use Rattle.htmd_addresses.specs.Bases.{base_address as named_address};
ghost use Rattle.htmd_addresses.specs.RunViews.{run_page_of};
ghost use Rattle.std.specs.Option.{option_or};
ghost use Rattle.htmd_selectors.specs.Views.{steps_in};
ghost use Rattle.htmd.specs.PageChanges as spec;
ghost use Rattle.htmd.specs.PageSettings.{page_in, settings_for, settings_in};

use crate::page_settings::{PageInRun, PageSettings};
use htmd_addresses::{RunPage, base_address, base_of, lead_to_pages, make_absolute};
use htmd_article::article_of;
use htmd_front_matter::{front_matter, front_object, title_of};
use htmd_nodes::Tree;
use htmd_selectors::{Selectors, drop_elements, select_elements};
use htmd_trimming::{Images, plainer_page, titled_page, visible_page};
use std::alloc::{AllocError, Global};
use url::Url;

/// Whether there are selectors.
fn are_given(selectors: &Selectors) -> bool
    ensures { result ≡ spec.are_given (steps_in selectors.now) }
{
    !selectors.is_empty()
}

/// What the head of a page says about it: as JSON if the page is written in pieces, else as lines of YAML.
#[tactic(auto, using(crate::proofs::PageChangesLemmas::are_lines))]
fn front_of(alloc: Global, settings: &PageSettings<'_>, page: &Tree) -> Result<String, AllocError>
    ensures value { IfOk result (λ front. string_bytes front ≡ spec.front_of settings.now.chunks page.now) }
    ensures lines { settings.now.chunks ≡ None → IfOk result (λ front. spec.AreLines (string_bytes front)) }
{
    match settings.chunks {
        Some(_) => front_object(alloc, page),
        None => front_matter(alloc, page),
    }
}

/// What the head of a page says about it, if that is written; a text has no head.
#[tactic(auto, using(crate::proofs::PageChangesLemmas::no_lines))]
pub(crate) fn head_of(
    alloc: Global,
    settings: &PageSettings<'_>,
    page: &Tree,
) -> Result<String, AllocError>
    ensures value { IfOk result (λ lines. string_bytes lines ≡ spec.head_of (settings_in settings.now) page.now) }
    ensures lines { settings.now.chunks ≡ None → IfOk result (λ lines. spec.AreLines (string_bytes lines)) }
{
    if settings.front_matter && !settings.text {
        front_of(alloc, settings, page)
    } else {
        Ok(String::new(alloc))
    }
}

/// The page without what it hides, if only the rest is converted.
pub(crate) fn visible_part(
    alloc: Global,
    settings: &PageSettings<'_>,
    page: Tree,
) -> Result<Tree, AllocError>
    ensures { IfOk result (λ tree. tree ≡ spec.visible_part (settings_in settings.now) page) }
{
    if settings.visible {
        visible_page(alloc, &page)
    } else {
        Ok(page)
    }
}

/// The main content of the page, if only that is converted.
fn main_content(alloc: Global, settings: &PageSettings<'_>, page: Tree) -> Result<Tree, AllocError>
    ensures { IfOk result (λ tree. tree ≡ spec.main_content (settings_in settings.now) page) }
{
    if settings.article {
        let article = article_of(alloc, &page)?;
        Ok(article.tree)
    } else {
        Ok(page)
    }
}

/// The page without what is dropped.
fn without_dropped(
    alloc: Global,
    settings: &PageSettings<'_>,
    page: Tree,
) -> Result<Tree, AllocError>
    ensures { IfOk result (λ tree. tree ≡ spec.without_dropped (settings_in settings.now) page) }
{
    if are_given(&settings.dropped) {
        drop_elements(alloc, &page, &settings.dropped)
    } else {
        Ok(page)
    }
}

/// What is selected of a page, or all of it where nothing is said of that.
fn selected(
    alloc: Global,
    settings: &PageSettings<'_>,
    page: Tree,
) -> Result<Option<Tree>, AllocError>
    ensures { IfOk result (λ tree. tree ≡ spec.selected_of (settings_in settings.now) page) }
{
    if are_given(&settings.selected) {
        select_elements(alloc, &page, &settings.selected)
    } else {
        Ok(Some(page))
    }
}

/// What is selected of a page, or of its main content, without what is dropped.
fn chosen(
    alloc: Global,
    settings: &PageSettings<'_>,
    page: Tree,
) -> Result<Option<Tree>, AllocError>
    ensures { IfOk result (λ part. part ≡ spec.selected_of (settings_in settings.now)
        (spec.without_dropped (settings_in settings.now)
        (spec.main_content (settings_in settings.now)
        (spec.visible_part (settings_in settings.now) page)))) }
{
    let visible = visible_part(alloc, settings, page)?;
    let content = main_content(alloc, settings, visible)?;
    let kept = without_dropped(alloc, settings, content)?;
    selected(alloc, settings, kept)
}

/// Whether images are kept as they are.
fn are_kept(images: Images) -> bool
    ensures { result ≡ spec.are_kept images }
{
    matches!(images, Images::Keep)
}

/// A part whose images and links are as they are to be written.
fn plainer(alloc: Global, settings: &PageSettings<'_>, part: Tree) -> Result<Tree, AllocError>
    ensures { IfOk result (λ tree. tree ≡ spec.plainer (settings_in settings.now) part) }
{
    if settings.links_as_text || !are_kept(settings.images) {
        plainer_page(alloc, &part, settings.images, settings.links_as_text)
    } else {
        Ok(part)
    }
}

/// The title of a page, if it is to be written.
fn heading_of(
    alloc: Global,
    settings: &PageSettings<'_>,
    page: &Tree,
) -> Result<Option<String>, AllocError>
    ensures { IfOk result (λ title. option_map string_bytes title
        ≡ spec.heading_of (settings_in settings.now) page.now) }
{
    if settings.title {
        title_of(alloc, page)
    } else {
        Ok(None)
    }
}

/// A part under a title.
fn under_title(alloc: Global, title: Option<String>, part: Tree) -> Result<Tree, AllocError>
    ensures { IfOk result (λ tree. tree ≡ spec.under_title (option_map string_bytes title) part) }
{
    match title {
        Some(title) => titled_page(alloc, part, title.as_str()),
        None => Ok(part),
    }
}

/// The base that a page names, against its URL; none if it names none, or if the URL isn't known.
#[tactic(auto, using(crate::proofs::PageChangesLemmas::own_or_url))]
fn own_base(url: Option<&Url>, page: &Tree) -> Result<Option<Url>, AllocError>
    ensures { IfOk result (λ own. option_or own (option_copied url.entry)
        ≡ spec.base_of (option_copied url.entry) page.now) }
{
    match url {
        Some(url) => base_of(page, url),
        None => Ok(None),
    }
}

/// The address of the base that a page names, if the page is one of a run, since nothing else depends on it.
fn named_base(
    alloc: Global,
    run_page: Option<RunPage<'_>>,
    page: &Tree,
) -> Result<Option<String>, AllocError>
    ensures { IfOk result (λ named. option_map string_bytes named
        ≡ (if is_some (option_map run_page_of run_page.entry) then named_address page.now else None)) }
{
    if run_page.is_none() {
        return Ok(None);
    }
    match base_address(page) {
        Some(address) => Ok(Some(String::from_str(alloc, address)?)),
        None => Ok(None),
    }
}

/// The same text, lent.
fn lent(text: &Option<String>) -> Option<&str>
    ensures { option_copied result ≡ option_map string_bytes text.now }
{
    match text {
        Some(text) => Some(text.as_str()),
        None => None,
    }
}

/// A part of a page, which names a base or none, with the addresses that it is to have.
fn with_addresses(
    alloc: Global,
    run_page: Option<RunPage<'_>>,
    base: Option<&Url>,
    named: &Option<String>,
    part: Tree,
) -> Result<Tree, AllocError>
    ensures { IfOk result (λ tree. tree
        ≡ spec.with_addresses (option_map run_page_of run_page.entry) (option_copied base.entry)
        (option_map string_bytes named.now) part) }
{
    match (run_page, base) {
        (Some(page), base) => lead_to_pages(alloc, &part, page, base, lent(named)),
        (None, Some(base)) => make_absolute(alloc, &part, base),
        (None, None) => Ok(part),
    }
}

/// The part of a page that is converted, with the addresses that it is to have; none if nothing is selected. Both
/// kinds of selectors and the base are those of the whole page. Of a text it is all.
#[tactic(auto, using(crate::proofs::PageChangesLemmas::first_copied, crate::proofs::PageChangesLemmas::named_in_run))]
pub(crate) fn part_of(
    alloc: Global,
    settings: &PageSettings<'_>,
    in_run: &PageInRun<'_>,
    page: Tree,
) -> Result<Option<Tree>, AllocError>
    ensures { IfOk result (λ part. part
        ≡ spec.part_of (settings_for (page_in in_run.now) (settings_in settings.now)) page) }
{
    if settings.text {
        return Ok(Some(page));
    }
    let url = in_run.url.as_ref().or(settings.base.as_ref());
    let own = own_base(url, &page)?;
    let base = own.as_ref().or(url);
    let named = named_base(alloc, in_run.run_page, &page)?;
    let title = heading_of(alloc, settings, &page)?;
    match chosen(alloc, settings, page)? {
        Some(part) => {
            let plain = plainer(alloc, settings, part)?;
            let addressed = with_addresses(alloc, in_run.run_page, base, &named, plain)?;
            Ok(Some(under_title(alloc, title, addressed)?))
        }
        None => Ok(None),
    }
}

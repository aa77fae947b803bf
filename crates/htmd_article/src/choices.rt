//! What a page says is its main content.
ghost use Rattle.std.specs.Prelude.{◌≡◌, IfOk};
ghost use Rattle.htmd_article.specs.Articles as articles;
ghost use Rattle.htmd_article.specs.Choices as spec;
ghost use Rattle.htmd_article.specs.PartViews.{part_of, part_found};

use crate::outermost::{Landmark, large_in, large_within, outermost_count, outermost_prose};
use crate::parts::Part;
use std::alloc::AllocError;

/// The rule by which the main content was chosen.
#[derive(Debug, Clone, Copy, PartialEq, Eq, Drop)]
pub enum Chosen {
    /// The elements that say that they are the main part.
    Main,
    /// The only element that says that it is the body of an article.
    ArticleBody,
    /// An article that holds more than half of the prose.
    Article,
    /// The element with the most prose and few links.
    Density,
    /// Nothing better than the whole page.
    Body,
}

/// What a page says is its main content: its main part, else the body of an article, if there is just one.
pub(crate) fn said_by(body: &Part) -> Result<Option<Landmark>, AllocError>
    ensures { IfOk result (λ said. said ≡ spec.said_by (part_of body.now)) }
{
    if outermost_count(Landmark::Main, body)? != 0 {
        return Ok(Some(Landmark::Main));
    }
    if outermost_count(Landmark::ArticleBody, body)? == 1 {
        return Ok(Some(Landmark::ArticleBody));
    }
    Ok(None)
}

/// How many letters of prose are in what the page says is its main content.
pub(crate) fn said_prose(said: Option<Landmark>, body: &Part) -> Result<usize, AllocError>
    ensures { IfOk result (λ prose. prose ≡ spec.prose_in (spec.said_parts said (part_of body.now))) }
{
    match said {
        Some(mark) => outermost_prose(mark, body),
        None => Ok(body.facts.prose),
    }
}

/// An article with more than half of so many letters of prose in what the page says is its main content.
pub(crate) fn large_article<'p, 't>(
    whole: usize,
    said: Option<Landmark>,
    body: &'p Part<'t>,
) -> Option<&'p Part<'t>>
    ensures { part_found result ≡ spec.large_article whole (spec.said_parts said (part_of body.now)) }
{
    match said {
        Some(mark) => large_within(whole, mark, body),
        None => large_in(whole, body),
    }
}

/// The rule that chooses such elements.
pub(crate) fn chosen_by(mark: Landmark) -> Chosen
    ensures { result ≡ articles.chosen_by mark }
{
    match mark {
        Landmark::Main => Chosen::Main,
        Landmark::ArticleBody => Chosen::ArticleBody,
        Landmark::Article => Chosen::Article,
    }
}

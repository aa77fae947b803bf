//! Where a page says something about itself.
ghost use Rattle.std.specs.Prelude.{◌≡◌, map};
ghost use Rattle.htmd_front_matter.specs.Sources as spec;
ghost use Rattle.htmd_front_matter.specs.Sources.{source_of};

use crate::values::Key;

/// Where something is said.
#[derive(Clone, Copy)]
pub(crate) enum Source {
    /// The text of `title`.
    Title,
    /// `lang` of `html`.
    Language,
    /// `href` of `link rel=canonical`.
    CanonicalLink,
    /// `content` of a `meta` whose attribute has this value.
    Meta(&'static str, &'static str),
}

static TITLE: [Source; 1] = [Source::Title];

static LANG: [Source; 1] = [Source::Language];

static DESCRIPTION: [Source; 1] = [Source::Meta("name", "description")];

static AUTHOR: [Source; 1] = [Source::Meta("name", "author")];

static DATE: [Source; 5] = [
    Source::Meta("name", "date"),
    Source::Meta("property", "article:published_time"),
    Source::Meta("itemprop", "datePublished"),
    Source::Meta("name", "dcterms.date"),
    Source::Meta("name", "dc.date"),
];

static CANONICAL: [Source; 1] = [Source::CanonicalLink];

static KEYWORDS: [Source; 1] = [Source::Meta("name", "keywords")];

/// The sources of a key, of which the first that says something counts.
pub(crate) fn sources(key: Key) -> &'static [Source]
    ensures { map source_of result.now ≡ spec.sources key }
{
    match key {
        Key::Title => &TITLE,
        Key::Lang => &LANG,
        Key::Description => &DESCRIPTION,
        Key::Author => &AUTHOR,
        Key::Date => &DATE,
        Key::Canonical => &CANONICAL,
        Key::Keywords => &KEYWORDS,
    }
}

//! Callers with clauses of their own: they rest on the clauses `ok` and `refused` of `convert`, and on a law.
ghost use Rattle.std.specs.Prelude.{◌≡◌, ◌++◌, ◌∷◌, [], ℕ, List, Ok, IfOk, true, false, string_bytes};
ghost use Rattle.htmd.specs.BuiltIn.{built_in};
ghost use Rattle.htmd.specs.Characters.{line_feed};
ghost use Rattle.htmd.specs.Conversions.{DenotesNothing, IsMarkdownOf, html5_markdown};
ghost use Rattle.htmd.specs.Defaults.{default_options};

use htmd::{ConvertError, HtmlToMarkdown, convert};
use htmd_law_trees::grammar::at_most_one_tree;
use std::alloc::{AllocError, Global};

/// The Markdown of a text, and a line feed after it.
pub(crate) fn as_file(alloc: Global, html: &str) -> Result<String, ConvertError>
    ensures { IfOk result (λ file. (markdown : List ℕ)
        × IsMarkdownOf (built_in default_options) true html.now markdown
        × (string_bytes file ≡ markdown ++ line_feed ∷ [])) }
{
    let mut file = convert(alloc, html)?;
    file.push('\n')?;
    Ok(file)
}

/// Whether the text is HTML of the grammar.
pub(crate) fn is_html(alloc: Global, html: &str) -> Result<bool, AllocError>
    ensures yes { result ≡ Ok true → (markdown : List ℕ)
        × IsMarkdownOf (built_in default_options) true html.now markdown }
    ensures no { result ≡ Ok false → DenotesNothing true html.now }
{
    match convert(alloc, html) {
        Ok(_) => Ok(true),
        Err(ConvertError::Refused { .. }) => Ok(false),
        Err(ConvertError::Memory) => Err(AllocError),
    }
}

/// The Markdown of a text: no other text is its Markdown.
pub(crate) fn the_markdown(alloc: Global, html: &str) -> Result<String, ConvertError>
    ensures { IfOk result (λ text. (other : List ℕ)
        → IsMarkdownOf (built_in default_options) true html.now other → other ≡ string_bytes text) }
{
    at_most_one_tree();
    convert(alloc, html)
}

/// The Markdown of any page, as browsers read it.
pub(crate) fn of_any_page(alloc: Global, html: &str) -> Result<String, AllocError>
    ensures { IfOk result (λ text. string_bytes text
        ≡ html5_markdown (built_in default_options) true html.now) }
{
    let converter = HtmlToMarkdown::new(alloc)?;
    converter.convert_html5(alloc, html)
}

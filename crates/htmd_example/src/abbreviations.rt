//! A handler of your own that reads an attribute: after what is in `abbr` comes its `title`, in parentheses.
ghost use Rattle.std.specs.Prelude.{Some, None, codes};
ghost use Rattle.htmd.specs.Handling.{content_of_children};
ghost use Rattle.htmd.specs.ElementPlans.{attributes_of, value_of};
ghost use Rattle.htmd_example.specs.Abbreviations.{spelled_out};

use htmd::element_handler::{ElementHandler, HandlerResult, Plan};
use htmd::{ConvertError, Element, HtmlToMarkdown};
use std::alloc::{AllocError, Global};

#[derive(Drop)]
struct Abbreviation;

impl ElementHandler for Abbreviation {
    ghost plan_of = { λ _ _. content_of_children };

    ghost finish_of = { λ _ view given. Some (record {
      content = spelled_out given.content (value_of (codes "title") (attributes_of view));
      markdown_translated = given.markdown_translated;
    }) };

    ghost append_of = { λ _. None };

    fn append(&self, _alloc: Global) -> Result<Option<String>, AllocError> {
        Ok(None)
    }

    fn plan(&self, _alloc: Global, _element: &Element) -> Result<Plan, AllocError> {
        Ok(Plan::Children)
    }

    fn finish(
        &self,
        _alloc: Global,
        element: &Element,
        content: HandlerResult,
    ) -> Result<Option<HandlerResult>, AllocError> {
        let mut result = content;
        if let Some(title) = element.attribute("title") {
            write!(result.content, " ({title})")?;
        }
        Ok(Some(result))
    }
}

/// The Markdown of `<p><abbr title="HyperText Markup Language">HTML</abbr></p>`.
pub(crate) fn spelled_out_page(alloc: Global) -> Result<String, ConvertError> {
    let handler: Box<dyn ElementHandler> = Box::new(alloc, Abbreviation)?;
    let Ok(builder) = HtmlToMarkdown::builder(alloc)?.add_handler(&["abbr"], handler) else {
        return Err(ConvertError::Memory);
    };
    builder.build().convert(
        alloc,
        "<p><abbr title=\"HyperText Markup Language\">HTML</abbr></p>",
    )
}

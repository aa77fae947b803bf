//! A handler of two closures, one of which keeps a text: it is put after what is in `b`.
ghost use Rattle.std.specs.Prelude.{◌≡◌, ◌++◌, Option, Some, IfOk, codes, string_bytes};
ghost use Rattle.htmd.specs.Handling.{content_of_children};
ghost use Rattle.htmd.specs.Views.{optional_result};

use htmd::element_handler::{Element, FnHandler, HandlerResult, HandlerRule, Plan};
use htmd::{ConvertError, HtmlToMarkdown};
use std::alloc::{AllocError, Global};

/// Names what the closures mean: the content, and after it an exclamation mark.
#[derive(Drop)]
struct Louder;

impl HandlerRule for Louder {
    ghost rule_plan = { λ _ _. content_of_children };

    ghost rule_finish = { λ _ _ given. Some (record {
      content = given.content ++ codes "!";
      markdown_translated = given.markdown_translated;
    }) };
}

/// The Markdown of `<b>Stop</b>`.
pub(crate) fn shouted(alloc: Global) -> Result<String, ConvertError> {
    let mark = String::from_str(alloc, "!")?;
    let handler = FnHandler::new(
        Louder,
        |_alloc: Global, _element: &Element| -> Result<Plan, AllocError> { Ok(Plan::Children) },
        move |_alloc: Global, _element: &Element, content: HandlerResult| -> Result<
            Option<HandlerResult>,
            AllocError,
        >
            ensures { IfOk result (λ r. optional_result r ≡ Some (record {
              content = string_bytes content.content ++ string_bytes mark;
              markdown_translated = content.markdown_translated;
            })) }
        {
            let mut louder = content;
            louder.content.push_str(mark.as_str())?;
            Ok(Some(louder))
        },
    );
    let Ok(builder) = HtmlToMarkdown::builder(alloc)?.add_fn_handler(&["b"], handler) else {
        return Err(ConvertError::Memory);
    };
    builder.build().convert(alloc, "<b>Stop</b>")
}

//! A handler of your own: what is in `mark` is put between two pairs of equal signs.
ghost use Rattle.std.specs.Prelude.{◌++◌, Some, None, true, codes};
ghost use Rattle.htmd.specs.Handling.{content_of_children};

use htmd::element_handler::{Element, ElementHandler, HandlerResult, Plan};
use std::alloc::{AllocError, Global};

#[derive(Drop)]
pub(crate) struct Highlight;

impl ElementHandler for Highlight {
    ghost plan_of = { λ _ _. content_of_children };

    ghost finish_of = { λ _ _ given. Some (record {
      content = codes "==" ++ given.content ++ codes "==";
      markdown_translated = true;
    }) };

    ghost append_of = { λ _. None };

    fn append(&self, _alloc: Global) -> Result<Option<String>, AllocError> {
        Ok(None)
    }

    fn plan(&self, _alloc: Global, _element: &Element) -> Result<Plan, AllocError> {
        Ok(Plan::Children)
    }

    fn finish(
        &self,
        alloc: Global,
        _element: &Element,
        content: HandlerResult,
    ) -> Result<Option<HandlerResult>, AllocError> {
        let text = format!(in alloc; "=={}==", content.content)?;
        Ok(Some(HandlerResult::from_string(text)))
    }
}

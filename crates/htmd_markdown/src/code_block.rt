//! What code blocks of both kinds hold.
ghost use Rattle.std.specs.Prelude.{◌≡◌};
ghost use Rattle.htmd_markdown.specs.CodeBlocks as spec;

/// The content of a code block without its one final line feed.
pub(crate) fn code_of(content: &str) -> &str
    ensures { result.now ≡ spec.code_of content.now }
{
    content.strip_suffix('\n').unwrap_or(content)
}

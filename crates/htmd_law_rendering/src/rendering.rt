//! The HTML of what is read, and its trees.
ghost use Rattle.htmd_law_rendering.specs.RenderingLaws.{RenderedIsSpelled, RenderedIsRead, RenderedIsParsed};
ghost use Rattle.htmd_law_rendering.specs.RenderingLaws.{SeenIsPaired, SeenIsStrict};

/// The HTML of what is read, if raw tags and lines of tags pair, is what its trees are spelled as.
pub fn rendered_is_spelled()
    ensures { RenderedIsSpelled }
{}

/// The HTML of what is read, if that is plain, is read by the strict grammar as its trees, and as nothing else.
pub fn rendered_is_read()
    ensures { RenderedIsRead }
{}

/// The HTML of what is read, if that is plain and has no U+0000, is read by the reader of any page as the document of
/// its trees.
pub fn rendered_is_parsed()
    ensures { RenderedIsParsed }
{}

/// Raw tags and lines of tags pair in each text in which one sees a document.
pub fn seen_is_paired()
    ensures { SeenIsPaired }
{}

/// No link or anchor stands in a link, headings have six levels, and elements stand where HTML allows them, in each
/// text in which one sees such a document in normal form.
pub fn seen_is_strict()
    ensures { SeenIsStrict }
{}

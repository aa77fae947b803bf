//! Pages of HTML: what a converter gives for them, or where and how they are refused.
use htmd::options::Options;
use htmd::{ConvertError, FaultKind, HtmlToMarkdown, convert};
use std::alloc::Global;
use std::test::Fail;

/// What a converter gives for a page. It gives the same for the page's tree.
pub(crate) fn page_by(
    alloc: Global,
    converter: &HtmlToMarkdown,
    html: &str,
) -> Result<String, Fail> {
    let markdown = match converter.convert(alloc, html) {
        Ok(markdown) => markdown,
        Err(error) => return Err(Fail::new(format_args!("{html:?}: {error}"))),
    };
    let tree = converter.html_to_tree(alloc, html)?;
    let again = converter.tree_to_markdown(alloc, &tree, tree.root())?;
    if markdown.as_str() != again.as_str() {
        return Err(Fail::new(format_args!("{html:?} gives {markdown:?}, and its tree {again:?}")));
    }
    Ok(again)
}

/// The Markdown of a page, with these options.
pub(crate) fn converted_page(alloc: Global, options: Options, html: &str) -> Result<String, Fail> {
    let converter = HtmlToMarkdown::builder(alloc)?.options(options).build();
    page_by(alloc, &converter, html)
}

/// Fails at the first of these pages whose Markdown by this converter isn't the text beside it, and says which.
pub(crate) fn expect_pages_by(
    alloc: Global,
    converter: &HtmlToMarkdown,
    table: &[(&str, &str)],
) -> Result<(), Fail> {
    for (html, markdown) in table {
        let answer = page_by(alloc, converter, html)?;
        if answer.as_str() != *markdown {
            return Err(Fail::new(format_args!("{html:?} gives {answer:?}, not {markdown:?}")));
        }
    }
    Ok(())
}

/// Fails at the first of these pages that isn't refused at the place and with the kind beside it, and says which.
pub(crate) fn expect_refusals(
    alloc: Global,
    table: &[(&str, usize, FaultKind)],
) -> Result<(), Fail> {
    for (html, place, kind) in table {
        let wanted = ConvertError::Refused {
            place: *place,
            kind: *kind,
        };
        match convert(alloc, html) {
            Ok(_) => return Err(Fail::new(format_args!("{html:?} is converted"))),
            Err(error) if error != wanted => {
                return Err(Fail::new(format_args!("{error}, not {wanted}: {html:?}")));
            }
            Err(_) => {}
        }
    }
    Ok(())
}

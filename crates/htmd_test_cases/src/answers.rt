//! The answer to a case: `=` and a text, or `!`, the byte place and the kind of a refusal.
use crate::encoding::push_encoded;
use crate::faults::LineFault;
use crate::nodes::rows_of;
use crate::program::push_run;
use crate::settings::{Question, Settings};
use crate::trees::tree_of;
use htmd::options::{Options, TranslationMode};
use htmd::{ConvertError, Document, FaultKind, HtmlToMarkdown, HtmlToMarkdownBuilder, to_markdown};
use htmd_cli::{Input, Mode, Output, RunError, run};
use htmd_html5::parse_html5;
use htmd_tree::{ReadError, read_html, serialize};
use std::alloc::{AllocError, Global};

/// Appends the answer to a text.
pub(crate) fn push_answer(
    alloc: Global,
    answers: &mut String,
    settings: Settings,
    text: &str,
) -> Result<(), LineFault> {
    match settings.question {
        Question::Text => {
            let markdown = paragraph_markdown(alloc, text, &settings.options)?;
            push_text(answers, &markdown)
        }
        Question::Read => push_page(alloc, answers, settings.scripting, text),
        Question::Program => push_run(alloc, answers, &settings.words, text),
        Question::Nodes => {
            let tree = parse_html5(alloc, text, settings.scripting)?;
            push_text(answers, &rows_of(alloc, &tree)?)
        }
        Question::Tree
        | Question::SeenTree
        | Question::Html5
        | Question::Document
        | Question::Convert => push_markdown(alloc, answers, settings, text),
    }
}

/// Appends a text.
fn push_text(answers: &mut String, text: &str) -> Result<(), LineFault> {
    answers.push('=')?;
    push_encoded(answers, text)?;
    Ok(())
}

/// Appends a refusal.
fn push_refusal(
    alloc: Global,
    answers: &mut String,
    place: usize,
    kind: FaultKind,
) -> Result<(), LineFault> {
    let refusal = format!(in alloc; "!{place} {kind}")?;
    answers.push_str(&refusal)?;
    Ok(())
}

/// Appends the HTML of the Document that a text denotes.
fn push_page(
    alloc: Global,
    answers: &mut String,
    scripting: bool,
    text: &str,
) -> Result<(), LineFault> {
    match read_html(alloc, text, scripting) {
        Ok(tree) => {
            let html = serialize(alloc, &tree, tree.root())?;
            push_text(answers, &html)
        }
        Err(ReadError::Refused { place, kind }) => push_refusal(alloc, answers, place, kind),
        Err(ReadError::Memory) => Err(LineFault::Memory),
    }
}

/// Appends the Markdown of a text by the converter that the settings ask for.
fn push_markdown(
    alloc: Global,
    answers: &mut String,
    settings: Settings,
    text: &str,
) -> Result<(), LineFault> {
    let question = settings.question;
    let tags = texts_of(alloc, &settings.skipped)?;
    let mut builder = HtmlToMarkdownBuilder::new(alloc)?
        .options(settings.options)
        .scripting_enabled(settings.scripting)
        .anchors(settings.anchors)
        .rich(settings.rich);
    if !tags.is_empty() {
        builder = match builder.skip_tags(tags.as_slice()) {
            Ok(builder) => builder,
            Err(_) => return Err(LineFault::Memory),
        };
    }
    let converter = builder.build();
    match question {
        Question::Tree => push_tree(alloc, answers, &converter, text),
        Question::Html5 => push_text(answers, &converter.convert_html5(alloc, text)?),
        Question::SeenTree => {
            let tree = tree_of(alloc, text)?;
            let document = converter.tree_to_document(alloc, &tree)?;
            push_document(alloc, answers, &converter, &document)
        }
        Question::Document => {
            let document = converter.document(alloc, text)?;
            push_document(alloc, answers, &converter, &document)
        }
        _ => push_conversion(alloc, answers, &converter, text),
    }
}

/// Appends the Markdown of the Document that a text denotes; its tree gives the same.
fn push_conversion(
    alloc: Global,
    answers: &mut String,
    converter: &HtmlToMarkdown,
    text: &str,
) -> Result<(), LineFault> {
    let markdown = match converter.convert(alloc, text) {
        Ok(markdown) => markdown,
        Err(ConvertError::Refused { place, kind }) => {
            return push_refusal(alloc, answers, place, kind);
        }
        Err(ConvertError::Memory) => return Err(LineFault::Memory),
    };
    let Ok(tree) = converter.html_to_tree(alloc, text) else {
        return Err(LineFault::TreeDiffers);
    };
    let again = converter.tree_to_markdown(alloc, &tree, tree.root())?;
    if again.as_str() != markdown.as_str() {
        return Err(LineFault::TreeDiffers);
    }
    push_text(answers, &markdown)
}

/// Appends the Markdown of what a reader sees.
fn push_document(
    alloc: Global,
    answers: &mut String,
    converter: &HtmlToMarkdown,
    document: &Document,
) -> Result<(), LineFault> {
    push_text(
        answers,
        &to_markdown(alloc, document, &converter.document_options())?,
    )
}

/// Appends the Markdown of the tree that an outline shows; a second conversion gives the same.
fn push_tree(
    alloc: Global,
    answers: &mut String,
    converter: &HtmlToMarkdown,
    outline: &str,
) -> Result<(), LineFault> {
    let tree = tree_of(alloc, outline)?;
    let markdown = converter.tree_to_markdown(alloc, &tree, tree.root())?;
    let again = converter.tree_to_markdown(alloc, &tree, tree.root())?;
    if again.as_str() != markdown.as_str() {
        return Err(LineFault::TreeDiffers);
    }
    push_text(answers, &markdown)
}

/// The same names, borrowed.
fn texts_of<'n>(alloc: Global, names: &'n [String]) -> Result<Vec<&'n str>, AllocError> {
    let mut texts = Vec::with_capacity(alloc, names.len())?;
    for name in names {
        texts.push(name.as_str())?;
    }
    Ok(texts)
}

/// The Markdown of one paragraph, as a run of the program writes it, without its line feed.
fn paragraph_markdown(alloc: Global, text: &str, options: &Options) -> Result<String, LineFault> {
    let mode = Mode {
        text: true,
        faithful: options.translation_mode == TranslationMode::Faithful,
    };
    let mut written = Vec::new(alloc);
    let mut source = Input::new(text.as_bytes());
    let mut sink = Output::new(&mut written);
    match run(alloc, &mut source, &mut sink, mode) {
        Ok(()) => {}
        Err(RunError::Memory) => return Err(LineFault::Memory),
        Err(_) => return Err(LineFault::Run),
    }
    let _ = written.pop();
    match String::from_utf8(written) {
        Ok(markdown) => Ok(markdown),
        Err(_) => Err(LineFault::Run),
    }
}

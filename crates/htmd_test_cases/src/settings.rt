//! The settings of a case: what is asked, and how it is converted.
use crate::faults::LineFault;
use crate::options::{anchors, set_field, truth};
use htmd::Anchors;
use htmd::options::Options;
use std::alloc::{AllocError, Global};

/// What is asked about the text.
#[derive(Clone, Copy)]
pub(crate) enum Question {
    /// the Markdown of the paragraph that has this text
    Text,
    /// the HTML of the Document that this text denotes
    Read,
    /// the Markdown of the tree that has this text as its outline
    Tree,
    /// the Markdown of what a reader sees of the tree that has this text as its outline
    SeenTree,
    /// the tree of this text, as browsers read it
    Nodes,
    /// the Markdown of this text, as browsers read it
    Html5,
    /// the Markdown of what a reader sees of this page
    Document,
    /// what the program makes of this text
    Program,
    /// the Markdown of the Document that this text denotes
    Convert,
}

/// The settings of a case.
#[derive(Drop)]
pub(crate) struct Settings {
    pub(crate) question: Question,
    pub(crate) options: Options,
    /// whether the content of `noscript` is read as one text
    pub(crate) scripting: bool,
    /// which places of links a document has
    pub(crate) anchors: Anchors,
    /// whether a document keeps elements that Markdown has no form for
    pub(crate) rich: bool,
    /// the tags that are skipped, named in one call
    pub(crate) skipped: Vec<String>,
    /// the options of the program
    pub(crate) words: Vec<String>,
}

impl Settings {
    /// The settings that the words name, in any order. A word that isn't a setting is the fault.
    pub(crate) fn of(alloc: Global, words: &str) -> Result<Settings, LineFault> {
        let mut settings = Settings {
            question: Question::Convert,
            options: Options::default(),
            scripting: true,
            anchors: Anchors::Linked,
            rich: false,
            skipped: Vec::new(alloc),
            words: Vec::new(alloc),
        };
        for word in words.split_whitespace() {
            match word {
                "text" => settings.question = Question::Text,
                "read" => settings.question = Question::Read,
                "tree" => settings.question = Question::Tree,
                "seen-tree" => settings.question = Question::SeenTree,
                "nodes" => settings.question = Question::Nodes,
                "html5" => settings.question = Question::Html5,
                "document" => settings.question = Question::Document,
                "program" => settings.question = Question::Program,
                _ if word.starts_with("--") => {
                    settings.words.push(String::from_str(alloc, word)?)?;
                }
                _ => settings.set(alloc, word)?,
            }
        }
        Ok(settings)
    }

    /// Sets what a word `FIELD=VALUE` names.
    fn set(&mut self, alloc: Global, word: &str) -> Result<(), LineFault> {
        let (field, value) = word.split_once('=').unwrap_or((word, ""));
        let is_known = match field {
            "scripting" => self.set_scripting(value),
            "anchors" => self.set_anchors(value),
            "rich" => self.set_rich(value),
            "skip_tags" => {
                self.skipped = names_of(alloc, value)?;
                !self.skipped.is_empty()
            }
            _ => set_field(&mut self.options, field, value),
        };
        if is_known {
            return Ok(());
        }
        Err(LineFault::UnknownSetting(String::from_str(alloc, word)?))
    }

    /// Sets the places of links, and answers whether the value is one.
    fn set_anchors(&mut self, value: &str) -> bool {
        let Some(anchors) = anchors(value) else {
            return false;
        };
        self.anchors = anchors;
        true
    }

    /// Sets whether documents are rich, and answers whether the value is one.
    fn set_rich(&mut self, value: &str) -> bool {
        let Some(rich) = truth(value) else {
            return false;
        };
        self.rich = rich;
        true
    }

    /// Sets the scripting, and answers whether the value is one.
    fn set_scripting(&mut self, value: &str) -> bool {
        let Some(scripting) = truth(value) else {
            return false;
        };
        self.scripting = scripting;
        true
    }
}

/// The names between the commas.
fn names_of(alloc: Global, value: &str) -> Result<Vec<String>, AllocError> {
    let mut names = Vec::new(alloc);
    for name in value.split(',') {
        names.push(String::from_str(alloc, name)?)?;
    }
    Ok(names)
}

//! The converter and its builder.

ghost use Rattle.std.specs.Prelude.{◌≡◌, ◌<◌, ◌++◌, [], ℕ, true, None, Err, IfOk, IfErr, MatchResult, map, length};
ghost use Rattle.std.specs.Prelude.{false, string_bytes};
ghost use Rattle.htmd_document.specs.DocumentViews.{document_of};
ghost use Rattle.htmd_document_of_tree.specs.declared.anchors.Anchors.TheVariants.{Linked};
ghost use Rattle.htmd_tree.specs.Bodies.{body_part};
ghost use Rattle.htmd_grammar.specs.declared.fault.FaultKind.{FaultKind};
ghost use Rattle.htmd_walk.specs.BuiltIn.{built_in};
ghost use Rattle.htmd_walk.specs.Handling.{of_functions};
ghost use Rattle.htmd_walk.specs.Choice.{no_handler, with_handler, with_options};
ghost use Rattle.htmd.specs.Conversions.{IsRefused, IsMarkdownOf, IsTreeOf, IsMarkdownOfPage};
ghost use Rattle.htmd.specs.Conversions.{IsPageRefused, IsHtml5Markdown};
ghost use Rattle.htmd.specs.PageDocuments as spec;
ghost use Rattle.htmd.specs.PageDocuments.{document_of_items, html5_page_document};
ghost use Rattle.htmd_walk.specs.Defaults.{default_options};
ghost use Rattle.htmd_walk.specs.Markdown.{markdown};
ghost use Rattle.htmd_walk.specs.ParagraphLaws.{ParagraphsReadBack};

use crate::convert_error::ConvertError;
use crate::documents::document_options;
use crate::skipped_tags::SkippedTags;
use htmd_commonmark::DocumentOptions;
use htmd_document::Document;
use htmd_document_of_tree::{Anchors, OfTree};
use htmd_html5::parse_html5;
use htmd_nodes::{NodeId, Tree};
use htmd_tree::{body_of, read_html};
use htmd_walk::element_handler::{
    Answering, ElementHandler, ElementHandlers, Layered, Registrar, Registry,
};
use htmd_walk::options::Options;
use std::alloc::{AllocError, Global};

/// Converts trees to Markdown with handlers that are registered for tags.
#[derive(Drop)]
pub struct HtmlToMarkdown<R = ElementHandlers> {
    handlers: R,
    scripting: bool,
    anchors: Anchors,
    rich: bool,
    skipped: SkippedTags,
}

/// Makes a converter.
#[derive(Drop)]
pub struct HtmlToMarkdownBuilder<R = ElementHandlers> {
    handlers: R,
    scripting: bool,
    anchors: Anchors,
    rich: bool,
    skipped: SkippedTags,
}

/// Out of memory, with the builder as it was.
#[derive(Drop)]
pub struct SkipRefused<R = ElementHandlers> {
    pub builder: HtmlToMarkdownBuilder<R>,
}

/// Out of memory, with the builder as it was, and the handler.
#[derive(Drop)]
pub struct AddRefused {
    pub builder: HtmlToMarkdownBuilder,
    pub handler: Box<dyn ElementHandler>,
}

/// Out of memory, with the builder as it was, and the handler.
#[derive(Drop)]
pub struct AddFnRefused<R, H> {
    pub builder: HtmlToMarkdownBuilder<R>,
    pub handler: H,
}

/// The Markdown of a text of HTML, by a new converter: the built-in handlers, the default options and
/// scripting on. From a table that is written as one it drops each `th` in a body row, each `td` in the row that gives
/// the headers if that row has a `th`, further rows of a `thead`, and each `thead` but the last. `Refused` for each
/// text outside the grammar, with the byte place and the kind of its first fault; `Memory` when out of memory.
pub fn convert(alloc: Global, html: &str) -> Result<String, ConvertError>
    ensures ok { IfOk result
        (λ text. IsMarkdownOf (built_in default_options) true html.now (string_bytes text)) }
    ensures refused { (place : ℕ) (kind : FaultKind) → result ≡ Err (ConvertError.Refused place kind)
        → IsRefused true html.now place kind }
{
    HtmlToMarkdown::new(alloc)?.convert(alloc, html)
}

impl HtmlToMarkdown {
    ghost use Rattle.htmd.specs.Converters.{handlers_of, handlers_built, scripting_of, scripting_built};
    ghost use Rattle.htmd.specs.Converters.{anchors_of, anchors_built, rich_of, rich_built, skipped_of, skipped_built};

    /// A converter with the built-in handlers, the default options and scripting on. `Err` means out of memory.
    pub fn new(alloc: Global) -> Result<HtmlToMarkdown, AllocError>
        ensures scripting { IfOk result (λ converter. scripting_of converter ≡ true) }
        ensures anchors { IfOk result (λ converter. anchors_of converter ≡ Linked) }
        ensures rich { IfOk result (λ converter. rich_of converter ≡ false) }
        ensures skipped { IfOk result (λ converter. skipped_of converter ≡ []) }
        ensures handlers { let config = ⟦<ElementHandlers as Registry>⟧.config in
            IfOk result (λ converter. config (handlers_of converter) ≡ built_in default_options) }
    {
        let handlers = ElementHandlers::beside(alloc, Options::default(), Vec::new(alloc))?;
        Ok(HtmlToMarkdown {
            handlers,
            scripting: true,
            anchors: Anchors::Linked,
            rich: false,
            skipped: SkippedTags::new(alloc),
        })
    }

    /// A builder with the built-in handlers, the default options and scripting on. `Err` means out of memory.
    pub fn builder(alloc: Global) -> Result<HtmlToMarkdownBuilder, AllocError>
        ensures scripting { IfOk result (λ builder. scripting_built builder ≡ true) }
        ensures anchors { IfOk result (λ builder. anchors_built builder ≡ Linked) }
        ensures rich { IfOk result (λ builder. rich_built builder ≡ false) }
        ensures skipped { IfOk result (λ builder. skipped_built builder ≡ []) }
        ensures handlers { let config = ⟦<ElementHandlers as Registry>⟧.config in
            IfOk result (λ builder. config (handlers_built builder) ≡ built_in default_options) }
    {
        HtmlToMarkdownBuilder::new(alloc)
    }
}

impl<R: Registry> HtmlToMarkdown<R> {
    ghost use Rattle.htmd.specs.Converters.{anchors_of, handlers_of, rich_of, scripting_of, skipped_of};

    /// The tree of a text of HTML, by the strict grammar. `Refused` for each text outside the grammar, with the byte
    /// place and the kind of its first fault; `Memory` when out of memory.
    pub fn html_to_tree(&self, alloc: Global, html: &str) -> Result<Tree, ConvertError>
        ensures ok { IfOk result (λ tree. IsTreeOf (scripting_of self.now) html.now tree) }
        ensures refused { (place : ℕ) (kind : FaultKind) → result ≡ Err (ConvertError.Refused place kind)
            → IsRefused (scripting_of self.now) html.now place kind }
    {
        Ok(read_html(alloc, html, self.scripting)?)
    }

    /// The Markdown of a text of HTML: of its tree, from the Document. `Refused` for each text outside the grammar,
    /// with the byte place and the kind of its first fault; `Memory` when out of memory.
    pub fn convert(&self, alloc: Global, html: &str) -> Result<String, ConvertError>
        requires ready { R.ready (handlers_of self.now) }
        ensures ok { IfOk result (λ text. IsMarkdownOf (R.config (handlers_of self.now))
            (scripting_of self.now) html.now (string_bytes text)) }
        ensures refused { (place : ℕ) (kind : FaultKind) → result ≡ Err (ConvertError.Refused place kind)
            → IsRefused (scripting_of self.now) html.now place kind }
    {
        let tree = self.html_to_tree(alloc, html)?;
        Ok(self.tree_to_markdown(alloc, &tree, tree.root())?)
    }

    /// The tree of a whole page: of what is between the tags of its body, as `body_of` gives it, or of the whole text
    /// if it has no start tag of a body. `Refused` if that part is outside the grammar, with the kind of its first
    /// fault and its byte place in the page; `Memory` when out of memory. If the body is cut at a wrong tag, such as
    /// one in a comment or a script of its head, the right start tag is refused at its place, if it stands in the part
    /// outside of comments and raw text (`body_of`).
    pub fn page_to_tree(&self, alloc: Global, page: &str) -> Result<Tree, ConvertError>
        ensures ok { IfOk result (λ tree. IsTreeOf (scripting_of self.now) (body_part page.now) tree) }
        ensures refused { (place : ℕ) (kind : FaultKind) → result ≡ Err (ConvertError.Refused place kind)
            → IsPageRefused (scripting_of self.now) page.now place kind }
    {
        let (body, start) = body_of(page);
        match self.html_to_tree(alloc, body) {
            Err(ConvertError::Refused { place, kind }) => Err(ConvertError::Refused {
                place: start + place,
                kind,
            }),
            other => other,
        }
    }

    /// The Markdown of a whole page: of the tree that `page_to_tree` gives, and refused as there.
    pub fn convert_page(&self, alloc: Global, page: &str) -> Result<String, ConvertError>
        requires ready { R.ready (handlers_of self.now) }
        ensures ok { IfOk result (λ text. IsMarkdownOfPage (R.config (handlers_of self.now))
            (scripting_of self.now) page.now (string_bytes text)) }
        ensures refused { (place : ℕ) (kind : FaultKind) → result ≡ Err (ConvertError.Refused place kind)
            → IsPageRefused (scripting_of self.now) page.now place kind }
    {
        let tree = self.page_to_tree(alloc, page)?;
        Ok(self.tree_to_markdown(alloc, &tree, tree.root())?)
    }

    /// The Markdown of any page, as browsers read it: of the whole Document by the HTML Standard. No page is refused;
    /// `Err` means out of memory.
    pub fn convert_html5(&self, alloc: Global, html: &str) -> Result<String, AllocError>
        requires ready { R.ready (handlers_of self.now) }
        ensures ok { IfOk result (λ text. IsHtml5Markdown (R.config (handlers_of self.now))
            (scripting_of self.now) html.now (string_bytes text)) }
    {
        let tree = parse_html5(alloc, html, self.scripting)?;
        self.tree_to_markdown(alloc, &tree, tree.root())
    }

    /// The Markdown of a node that is converted by itself. `Err` means out of memory. Neither the converter nor the
    /// tree is changed.
    pub fn tree_to_markdown(
        &self,
        alloc: Global,
        tree: &Tree,
        node: NodeId,
    ) -> Result<String, AllocError>
        requires ready { R.ready (handlers_of self.now) }
        requires within { node < length tree.now }
        ensures markdown { IfOk result
            (λ text. string_bytes text ≡ markdown (R.config (handlers_of self.now)) tree.now node) }
        ensures paragraphs { IfOk result
            (λ text. ParagraphsReadBack (R.config (handlers_of self.now)) tree.now node (string_bytes text)) }
    {
        htmd_walk::tree_to_markdown(&self.handlers, alloc, tree, node)
    }

    /// What a reader sees of any page, as browsers read it. Elements of skipped tags give nothing; handlers of your own
    /// aren't asked. No page is refused; `Err` means out of memory.
    pub fn document(&self, alloc: Global, html: &str) -> Result<Document, AllocError>
        ensures ok { IfOk result (λ document. document_of document
            ≡ html5_page_document (scripting_of self.now) (skipped_of self.now) (anchors_of self.now)
            (rich_of self.now) html.now) }
    {
        let page = parse_html5(alloc, html, self.scripting)?;
        self.tree_to_document(alloc, &page)
    }

    /// What a reader sees of a tree. Elements of skipped tags give nothing; handlers of your own aren't asked. `Err`
    /// means out of memory.
    pub fn tree_to_document(&self, alloc: Global, tree: &Tree) -> Result<Document, AllocError>
        ensures ok { IfOk result (λ document. document_of document
            ≡ document_of_items (scripting_of self.now) (skipped_of self.now) (anchors_of self.now) (rich_of self.now)
            tree.now) }
    {
        let skipped = self.skipped.names(alloc)?;
        Document::of_tree(
            alloc,
            tree,
            self.scripting,
            skipped.as_slice(),
            self.anchors,
            self.rich,
        )
    }

    /// The options that count for a document.
    pub fn document_options(&self) -> DocumentOptions
        ensures { result ≡ spec.document_options (R.config (handlers_of self.now)).options }
    {
        document_options(self.handlers.options())
    }
}

impl HtmlToMarkdownBuilder {
    ghost use Rattle.htmd.specs.Converters.{handlers_of, handlers_built, scripting_of, scripting_built};
    ghost use Rattle.htmd.specs.Converters.{anchors_of, anchors_built, rich_of, rich_built, skipped_of, skipped_built};

    /// A builder with the built-in handlers, the default options and scripting on. `Err` means out of memory.
    pub fn new(alloc: Global) -> Result<HtmlToMarkdownBuilder, AllocError>
        ensures scripting { IfOk result (λ builder. scripting_built builder ≡ true) }
        ensures anchors { IfOk result (λ builder. anchors_built builder ≡ Linked) }
        ensures rich { IfOk result (λ builder. rich_built builder ≡ false) }
        ensures skipped { IfOk result (λ builder. skipped_built builder ≡ []) }
        ensures handlers { let config = ⟦<ElementHandlers as Registry>⟧.config in
            IfOk result (λ builder. config (handlers_built builder) ≡ built_in default_options) }
    {
        let handlers = ElementHandlers::beside(alloc, Options::default(), Vec::new(alloc))?;
        Ok(HtmlToMarkdownBuilder {
            handlers,
            scripting: true,
            anchors: Anchors::Linked,
            rich: false,
            skipped: SkippedTags::new(alloc),
        })
    }

    /// The same builder, but this handler is asked first for these tags. `Err` means out of memory and hands back the
    /// builder as it was, and the handler.
    pub fn add_handler(
        mut self,
        tags: &[&str],
        handler: Box<dyn ElementHandler>,
    ) -> Result<Self, AddRefused>
        requires tags { 0 < length tags.now }
        ensures ok { let config = ⟦<ElementHandlers as Registry>⟧.config in
            IfOk result (λ builder. config (handlers_built builder)
            ≡ with_handler (config (handlers_built self)) (map (λ t. t.now) tags.now)
            (of_functions (plan_of handler) (finish_of handler) (append_of handler))) }
        ensures builder { let config = ⟦<ElementHandlers as Registry>⟧.config in
            IfErr result (λ refused. config (handlers_built refused.builder) ≡ config (handlers_built self)) }
        ensures scripting { MatchResult result (λ builder. scripting_built builder ≡ scripting_built self)
            (λ refused. scripting_built refused.builder ≡ scripting_built self) }
        ensures anchors { MatchResult result (λ builder. anchors_built builder ≡ anchors_built self)
            (λ refused. anchors_built refused.builder ≡ anchors_built self) }
        ensures rich { MatchResult result (λ builder. rich_built builder ≡ rich_built self)
            (λ refused. rich_built refused.builder ≡ rich_built self) }
        ensures skipped { MatchResult result (λ builder. skipped_built builder ≡ skipped_built self)
            (λ refused. skipped_built refused.builder ≡ skipped_built self) }
        ensures handler { IfErr result (λ refused. refused.handler ≡ handler) }
    {
        match self.handlers.add_handler(tags, handler) {
            Ok(()) => Ok(self),
            Err(refused) => Err(AddRefused {
                builder: self,
                handler: refused.handler,
            }),
        }
    }
}

impl<R: Registrar> HtmlToMarkdownBuilder<R> {
    ghost use Rattle.htmd.specs.Converters.{anchors_built, handlers_of, handlers_built, rich_built, scripting_built};
    ghost use Rattle.htmd.specs.Converters.{skipped_built};

    /// The same builder with these options.
    pub fn options(mut self, options: Options) -> Self
        requires ready { R.ready (handlers_built self) }
        ensures config { R.config (handlers_built result) ≡ with_options (R.config (handlers_built self)) options }
        ensures ready { R.ready (handlers_built result) }
        ensures scripting { scripting_built result ≡ scripting_built self }
        ensures anchors { anchors_built result ≡ anchors_built self }
        ensures rich { rich_built result ≡ rich_built self }
        ensures skipped { skipped_built result ≡ skipped_built self }
    {
        self.handlers.take_options(options);
        self
    }

    /// The same builder, but elements of these tags give nothing. `Err` means out of memory and hands back the builder
    /// as it was.
    pub fn skip_tags(mut self, tags: &[&str]) -> Result<Self, SkipRefused<R>>
        requires tags { 0 < length tags.now }
        requires ready { R.ready (handlers_built self) }
        ensures ok { IfOk result (λ builder. R.config (handlers_built builder)
            ≡ with_handler (R.config (handlers_built self)) (map (λ t. t.now) tags.now) no_handler) }
        ensures builder { IfErr result
            (λ refused. R.config (handlers_built refused.builder) ≡ R.config (handlers_built self)) }
        ensures ready { IfOk result (λ builder. R.ready (handlers_built builder)) }
        ensures builder_ready { IfErr result (λ refused. R.ready (handlers_built refused.builder)) }
        ensures scripting { MatchResult result (λ builder. scripting_built builder ≡ scripting_built self)
            (λ refused. scripting_built refused.builder ≡ scripting_built self) }
        ensures anchors { MatchResult result (λ builder. anchors_built builder ≡ anchors_built self)
            (λ refused. anchors_built refused.builder ≡ anchors_built self) }
        ensures rich { MatchResult result (λ builder. rich_built builder ≡ rich_built self)
            (λ refused. rich_built refused.builder ≡ rich_built self) }
        ensures skipped { MatchResult result
            (λ builder. skipped_built builder ≡ skipped_built self ++ map (λ t. t.now) tags.now)
            (λ refused. skipped_built refused.builder ≡ skipped_built self) }
    {
        let count = self.skipped.len();
        if self.skipped.add(tags).is_err() {
            return Err(SkipRefused { builder: self });
        }
        match self.handlers.take_skipping(tags) {
            Ok(_) => Ok(self),
            Err(_) => {
                self.skipped.truncate(count);
                Err(SkipRefused { builder: self })
            }
        }
    }

    /// The same builder, but this handler of closures is asked first for these tags. The closures answer what its rule
    /// names. `Err` means out of memory and hands back the builder as it was, and the handler.
    pub fn add_fn_handler<H: Answering + Drop>(
        mut self,
        tags: &[&str],
        handler: H,
    ) -> Result<HtmlToMarkdownBuilder<Layered<R, H>>, AddFnRefused<R, H>>
        requires tags { 0 < length tags.now }
        requires keeps { H.keeps handler }
        requires ready { R.ready (handlers_built self) }
        ensures ok { let config = ⟦<Layered<R, H> as Registry>⟧.config in
            IfOk result (λ builder. config (handlers_built builder)
            ≡ with_handler (R.config (handlers_built self)) (map (λ t. t.now) tags.now)
            (of_functions (H.plan_named handler) (H.finish_named handler) None)) }
        ensures builder { IfErr result
            (λ refused. R.config (handlers_built refused.builder) ≡ R.config (handlers_built self)) }
        ensures handler { IfErr result (λ refused. refused.handler ≡ handler) }
        ensures ready { let ready = ⟦<Layered<R, H> as Registry>⟧.ready in
            IfOk result (λ builder. ready (handlers_built builder)) }
        ensures builder_ready { IfErr result (λ refused. R.ready (handlers_built refused.builder)) }
        ensures scripting { MatchResult result (λ builder. scripting_built builder ≡ scripting_built self)
            (λ refused. scripting_built refused.builder ≡ scripting_built self) }
        ensures anchors { MatchResult result (λ builder. anchors_built builder ≡ anchors_built self)
            (λ refused. anchors_built refused.builder ≡ anchors_built self) }
        ensures rich { MatchResult result (λ builder. rich_built builder ≡ rich_built self)
            (λ refused. rich_built refused.builder ≡ rich_built self) }
        ensures skipped { MatchResult result (λ builder. skipped_built builder ≡ skipped_built self)
            (λ refused. skipped_built refused.builder ≡ skipped_built self) }
    {
        match self.handlers.take_skipping(tags) {
            Ok(index) => Ok(HtmlToMarkdownBuilder {
                handlers: Layered::new(self.handlers, index, handler),
                scripting: self.scripting,
                anchors: self.anchors,
                rich: self.rich,
                skipped: self.skipped,
            }),
            Err(_) => Err(AddFnRefused {
                builder: self,
                handler,
            }),
        }
    }
}

impl<R: Registry> HtmlToMarkdownBuilder<R> {
    ghost use Rattle.htmd.specs.Converters.{handlers_of, handlers_built, scripting_of, scripting_built};
    ghost use Rattle.htmd.specs.Converters.{anchors_of, anchors_built, rich_of, rich_built, skipped_of, skipped_built};

    /// The same builder with scripting on or off: if it is on, the content of `noscript` is one text, else it is nodes.
    pub fn scripting_enabled(mut self, scripting: bool) -> Self
        requires ready { R.ready (handlers_built self) }
        ensures config { R.config (handlers_built result) ≡ R.config (handlers_built self) }
        ensures ready { R.ready (handlers_built result) }
        ensures scripting { scripting_built result ≡ scripting }
        ensures anchors { anchors_built result ≡ anchors_built self }
        ensures rich { rich_built result ≡ rich_built self }
        ensures skipped { skipped_built result ≡ skipped_built self }
    {
        self.scripting = scripting;
        self
    }

    /// The same builder, but documents have these places of links.
    pub fn anchors(mut self, anchors: Anchors) -> Self
        requires ready { R.ready (handlers_built self) }
        ensures config { R.config (handlers_built result) ≡ R.config (handlers_built self) }
        ensures ready { R.ready (handlers_built result) }
        ensures scripting { scripting_built result ≡ scripting_built self }
        ensures skipped { skipped_built result ≡ skipped_built self }
        ensures anchors { anchors_built result ≡ anchors }
        ensures rich { rich_built result ≡ rich_built self }
    {
        self.anchors = anchors;
        self
    }

    /// The same builder, but documents are rich or not: rich ones keep elements that Markdown has no form for.
    pub fn rich(mut self, rich: bool) -> Self
        requires ready { R.ready (handlers_built self) }
        ensures config { R.config (handlers_built result) ≡ R.config (handlers_built self) }
        ensures ready { R.ready (handlers_built result) }
        ensures scripting { scripting_built result ≡ scripting_built self }
        ensures anchors { anchors_built result ≡ anchors_built self }
        ensures skipped { skipped_built result ≡ skipped_built self }
        ensures rich { rich_built result ≡ rich }
    {
        self.rich = rich;
        self
    }

    /// The converter.
    pub fn build(self) -> HtmlToMarkdown<R>
        requires ready { R.ready (handlers_built self) }
        ensures config { R.config (handlers_of result) ≡ R.config (handlers_built self) }
        ensures ready { R.ready (handlers_of result) }
        ensures scripting { scripting_of result ≡ scripting_built self }
        ensures skipped { skipped_of result ≡ skipped_built self }
        ensures anchors { anchors_of result ≡ anchors_built self }
        ensures rich { rich_of result ≡ rich_built self }
    {
        HtmlToMarkdown {
            handlers: self.handlers,
            scripting: self.scripting,
            anchors: self.anchors,
            rich: self.rich,
            skipped: self.skipped,
        }
    }
}

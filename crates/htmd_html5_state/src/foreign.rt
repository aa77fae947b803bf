//! Elements of foreign content: their names, and what the current node is.
ghost use Rattle.std.specs.Prelude.{◌≡◌, ◌≤◌, ◌-◌, ℕ, List, map, length, drop, IfOk};
ghost use Rattle.htmd_html5_state.specs.Nodes.{attributes_of};
ghost use Rattle.htmd_html5_state.specs.Foreign as spec;
ghost use Rattle.htmd_html5_state.specs.ForeignPlaces.{is_spelled};
ghost use Rattle.htmd_html5_state.specs.Insertion.{current};
ghost use Rattle.htmd_html5_state.specs.Names.{element_name_of};
ghost use Rattle.htmd_html5_state.specs.OpenElements.{OpenValue};
ghost use Rattle.htmd_html5_state.specs.OpenViews.{open_of, stack_of};
ghost use Rattle.htmd_html5_state.specs.Places.{innermost};
ghost use Rattle.htmd_html5_state.specs.State.{on_stack};
ghost use Rattle.htmd_html5_state.specs.Views.{kind_seen};
ghost use Rattle.htmd_lexical.specs.Attributes.{pairs_of};
ghost use Rattle.htmd_html5_state.specs.ForeignViews.{end_of};

use crate::attributes::value;
use crate::document::{Document, NodeKind};
use crate::names::{ElementName, Namespace};
use crate::open_elements::{OpenElement, OpenElements, split_innermost};
use crate::sets::{is_math_text, is_svg_point};
use crate::state::HtmlState;
use htmd_lexical::Attribute;
use std::alloc::{AllocError, Global};

static SVG_NAMES: [&str; 37] = [
    "altGlyph",
    "altGlyphDef",
    "altGlyphItem",
    "animateColor",
    "animateMotion",
    "animateTransform",
    "clipPath",
    "feBlend",
    "feColorMatrix",
    "feComponentTransfer",
    "feComposite",
    "feConvolveMatrix",
    "feDiffuseLighting",
    "feDisplacementMap",
    "feDistantLight",
    "feDropShadow",
    "feFlood",
    "feFuncA",
    "feFuncB",
    "feFuncG",
    "feFuncR",
    "feGaussianBlur",
    "feImage",
    "feMerge",
    "feMergeNode",
    "feMorphology",
    "feOffset",
    "fePointLight",
    "feSpecularLighting",
    "feSpotLight",
    "feTile",
    "feTurbulence",
    "foreignObject",
    "glyphRef",
    "linearGradient",
    "radialGradient",
    "textPath",
];

static SVG_ATTRIBUTES: [&str; 58] = [
    "attributeName",
    "attributeType",
    "baseFrequency",
    "baseProfile",
    "calcMode",
    "clipPathUnits",
    "diffuseConstant",
    "edgeMode",
    "filterUnits",
    "glyphRef",
    "gradientTransform",
    "gradientUnits",
    "kernelMatrix",
    "kernelUnitLength",
    "keyPoints",
    "keySplines",
    "keyTimes",
    "lengthAdjust",
    "limitingConeAngle",
    "markerHeight",
    "markerUnits",
    "markerWidth",
    "maskContentUnits",
    "maskUnits",
    "numOctaves",
    "pathLength",
    "patternContentUnits",
    "patternTransform",
    "patternUnits",
    "pointsAtX",
    "pointsAtY",
    "pointsAtZ",
    "preserveAlpha",
    "preserveAspectRatio",
    "primitiveUnits",
    "refX",
    "refY",
    "repeatCount",
    "repeatDur",
    "requiredExtensions",
    "requiredFeatures",
    "specularConstant",
    "specularExponent",
    "spreadMethod",
    "startOffset",
    "stdDeviation",
    "stitchTiles",
    "surfaceScale",
    "systemLanguage",
    "tableValues",
    "targetX",
    "targetY",
    "textLength",
    "viewBox",
    "viewTarget",
    "xChannelSelector",
    "yChannelSelector",
    "zoomAndPan",
];

static MATH_ATTRIBUTES: [&str; 1] = ["definitionURL"];

/// Whether they are the same in any ASCII case.
fn is_in_any_case(text: &str, other: &str) -> bool
    ensures { result ≡ spec.is_in_any_case text.now other.now }
{
    text.eq_ignore_ascii_case(other)
}

fn svg_names() -> &'static [&'static str]
    ensures { map (λ n. n.now) result.now ≡ spec.svg_names }
{
    &SVG_NAMES
}

/// The name as it is written in the list, if it is there.
fn capitalised<'a>(names: &'static [&'static str], name: &'a str) -> &'a str
    ensures { result.now ≡ spec.capitalised (map (λ n. n.now) names.now) name.now }
{
    for known in names {
        if is_in_any_case(known, name) {
            return *known;
        }
    }
    name
}

/// The name of an element of foreign content.
pub(crate) fn foreign_name(
    alloc: Global,
    namespace: Namespace,
    name: &str,
) -> Result<ElementName, AllocError>
    ensures { IfOk result (λ n. element_name_of n ≡ spec.foreign_name namespace name.now) }
{
    match namespace {
        Namespace::Svg => Ok(ElementName::Svg(String::from_str(
            alloc,
            capitalised(svg_names(), name),
        )?)),
        Namespace::MathMl => Ok(ElementName::Math(String::from_str(alloc, name)?)),
    }
}

fn attribute_names(namespace: Namespace) -> &'static [&'static str]
    ensures { map (λ n. n.now) result.now ≡ spec.attribute_names namespace }
{
    match namespace {
        Namespace::Svg => &SVG_ATTRIBUTES,
        Namespace::MathMl => &MATH_ATTRIBUTES,
    }
}

/// Its attributes.
pub(crate) fn foreign_attributes(
    alloc: Global,
    namespace: Namespace,
    attributes: Vec<Attribute>,
) -> Result<Vec<Attribute>, AllocError>
    ensures { IfOk result (λ v. pairs_of v.items
        ≡ spec.foreign_attributes namespace (pairs_of attributes.items)) }
{
    let names = attribute_names(namespace);
    let mut capitals = Vec::with_capacity(alloc, attributes.len())?;
    for Attribute { name, value } in attributes {
        let name = String::from_str(alloc, capitalised(names, name.as_str()))?;
        capitals.push(Attribute { name, value })?;
    }
    Ok(capitals)
}

/// Whether it is a name of HTML.
fn is_html(name: &ElementName) -> bool
    ensures { result ≡ spec.is_html_name (element_name_of name.now) }
{
    matches!(name, ElementName::Html(_))
}

fn is_math_text_name(name: &ElementName) -> bool
    ensures { result ≡ spec.is_math_text_name (element_name_of name.now) }
{
    match name {
        ElementName::Math(text) => is_math_text(text.as_str()),
        _ => false,
    }
}

fn is_annotation_name(name: &ElementName) -> bool
    ensures { result ≡ spec.is_annotation_name (element_name_of name.now) }
{
    match name {
        ElementName::Math(text) => text.as_str() == "annotation-xml",
        _ => false,
    }
}

/// Whether the text of an `annotation-xml` with this value of `encoding` is HTML.
fn is_html_encoding(value: &str) -> bool
    ensures { result ≡ spec.is_html_encoding value.now }
{
    is_in_any_case("text/html", value) || is_in_any_case("application/xhtml+xml", value)
}

fn has_html_encoding(kind: Option<&NodeKind>) -> bool
    ensures { result ≡ spec.has_html_encoding (attributes_of (kind_seen kind.entry)) }
{
    let Some(kind) = kind else {
        return false;
    };
    match value(kind.attributes(), "encoding") {
        Some(value) => is_html_encoding(value),
        None => false,
    }
}

fn is_html_point(document: &Document, element: &OpenElement) -> bool
    ensures { result ≡ spec.is_html_point document.now (open_of element.now) }
{
    match &element.name {
        ElementName::Html(_) => false,
        ElementName::Svg(text) => is_svg_point(text.as_str()),
        ElementName::Math(text) => {
            text.as_str() == "annotation-xml" && has_html_encoding(document.kind(element.node))
        }
    }
}

/// Whether foreign content is left there.
fn ends_foreign(document: &Document, element: &OpenElement) -> bool
    ensures { result ≡ spec.ends_foreign document.now (open_of element.now) }
{
    is_html(&element.name) || is_math_text_name(&element.name) || is_html_point(document, element)
}

/// How many elements are left where foreign content is left.
fn len_outside(document: &Document, elements: &[OpenElement]) -> usize
    ensures len { result ≤ length elements.now }
    ensures rest { drop (length elements.now - result) (stack_of elements.now)
        ≡ spec.leave_foreign document.now (stack_of elements.now) }
{
    let mut rest = elements;
    while let Some((outer, element)) = split_innermost(rest) {
        if ends_foreign(document, element) {
            return rest.len();
        }
        rest = outer;
    }
    0
}

/// Whether it is the name of a foreign element that an end tag with this name closes.
fn is_spelled_so(name: &ElementName, wanted: &str) -> bool
    ensures { result ≡ spec.is_spelled_so wanted.now (element_name_of name.now) }
{
    match name {
        ElementName::Html(_) => false,
        ElementName::Svg(text) => is_in_any_case(text.as_str(), wanted),
        ElementName::Math(text) => is_in_any_case(text.as_str(), wanted),
    }
}

/// What an end tag in foreign content does.
#[derive(Clone, Copy)]
enum ForeignEnd {
    /// What the insertion mode says.
    ByMode,
    /// It leaves this many elements open.
    Closes(usize),
    Nothing,
}

/// What an end tag does by the places of the innermost foreign element that is spelled so and of the innermost element
/// of HTML. The outermost element is never closed.
fn end_by_places(spelled: usize, html: usize) -> ForeignEnd
    ensures { (s : List ℕ) (stack : List OpenValue) → spelled ≡ innermost (is_spelled s) stack
        → html ≡ innermost spec.is_html stack → end_of stack result ≡ spec.foreign_end s stack }
{
    if spelled <= 1 && html <= 1 {
        ForeignEnd::Nothing
    } else if spelled > html {
        ForeignEnd::Closes(spelled - 1)
    } else {
        ForeignEnd::ByMode
    }
}

/// What an end tag does, found by a walk: for a name with capitals, as no tokenizer gives it.
fn end_by_walk(elements: &[OpenElement], name: &str) -> ForeignEnd
    ensures { end_of (stack_of elements.now) result ≡ spec.foreign_end name.now (stack_of elements.now) }
{
    let mut rest = elements;
    while let Some((outer, element)) = split_innermost(rest) {
        if outer.is_empty() {
            return ForeignEnd::Nothing;
        }
        if is_html(&element.name) {
            return ForeignEnd::ByMode;
        }
        if is_spelled_so(&element.name, name) {
            return ForeignEnd::Closes(outer.len());
        }
        rest = outer;
    }
    ForeignEnd::Nothing
}

fn foreign_end(stack: &OpenElements, name: &str) -> ForeignEnd
    ensures { end_of stack.now result ≡ spec.foreign_end name.now stack.now }
{
    match stack.find_foreign(name) {
        Some(spelled) => end_by_places(spelled, stack.html_place()),
        None => end_by_walk(stack.as_slice(), name),
    }
}

impl HtmlState {
    /// Whether the current node is an element of HTML.
    pub fn current_is_html(&self) -> bool
        ensures { result ≡ spec.current_is_html self.now.stack }
    {
        match self.stack.current_name() {
            Some(name) => is_html(name),
            None => true,
        }
    }

    /// Whether the current node is a MathML text integration point.
    pub fn current_is_math_text_point(&self) -> bool
        ensures { result ≡ spec.is_math_text_point (current self.now.stack) }
    {
        match self.stack.current_name() {
            Some(name) => is_math_text_name(name),
            None => false,
        }
    }

    /// Whether the current node is an `annotation-xml` of MathML.
    pub fn current_is_annotation(&self) -> bool
        ensures { result ≡ spec.is_annotation (current self.now.stack) }
    {
        match self.stack.current_name() {
            Some(name) => is_annotation_name(name),
            None => false,
        }
    }

    /// Whether the current node is an HTML integration point.
    pub fn current_is_html_point(&self) -> bool
        ensures { result ≡ spec.is_html_point self.now.nodes (current self.now.stack) }
    {
        match self.stack.as_slice() {
            [.., element] => is_html_point(&self.document, element),
            [] => false,
        }
    }

    /// The namespace of the current node; None for HTML.
    pub fn current_namespace(&self) -> Option<Namespace>
        ensures { result ≡ spec.namespace_of (current self.now.stack).name }
    {
        match self.stack.current_name() {
            Some(ElementName::Svg(_)) => Some(Namespace::Svg),
            Some(ElementName::Math(_)) => Some(Namespace::MathMl),
            _ => None,
        }
    }

    /// Pops until the current node is an element of HTML or an integration point.
    pub fn leave_foreign(&mut self)
        ensures { self.new ≡ on_stack (spec.leave_foreign self.old.nodes) self.old }
    {
        let len = len_outside(&self.document, self.stack.as_slice());
        self.stack.truncate(len);
    }

    /// What an end tag with this name closes in foreign content. Gives whether the insertion mode says what it does.
    pub fn close_foreign(&mut self, name: &str) -> bool
        ensures by_mode { result ≡ spec.goes_by_mode (spec.foreign_end name.now self.old.stack) }
        ensures closed { self.new ≡ spec.after_foreign_end (spec.foreign_end name.now self.old.stack) self.old }
    {
        match foreign_end(&self.stack, name) {
            ForeignEnd::ByMode => true,
            ForeignEnd::Closes(len) => {
                self.stack.truncate(len);
                false
            }
            ForeignEnd::Nothing => false,
        }
    }
}

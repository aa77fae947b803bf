//! The names of elements.
ghost use Rattle.std.specs.Prelude.{◌≡◌, ◌<◌, IfOk, IfSome, Some, find, map};
ghost use Rattle.std.specs.Cow.{cow_str_bytes};
ghost use Rattle.htmd_html5_state.specs.Names as spec;
ghost use Rattle.htmd_html5_state.specs.Names.{name_of, element_name_of};
ghost use Rattle.htmd_html5_state.specs.TagNumbers.{number, tags};

use std::alloc::{AllocError, Global};
use std::borrow::CowStr;

/// A name of HTML that a rule of parsing mentions.
#[derive(Clone, Copy)]
pub enum TagName {
    A,
    Address,
    Applet,
    Area,
    Article,
    Aside,
    B,
    Base,
    BaseFont,
    BgSound,
    Big,
    BlockQuote,
    Body,
    Br,
    Button,
    Caption,
    Center,
    Code,
    Col,
    ColGroup,
    Dd,
    Details,
    Dialog,
    Dir,
    Div,
    Dl,
    Dt,
    Em,
    Embed,
    FieldSet,
    FigCaption,
    Figure,
    Font,
    Footer,
    Form,
    Frame,
    FrameSet,
    H1,
    H2,
    H3,
    H4,
    H5,
    H6,
    Head,
    Header,
    HGroup,
    Hr,
    Html,
    I,
    Iframe,
    Image,
    Img,
    Input,
    KeyGen,
    Li,
    Link,
    Listing,
    Main,
    MalignMark,
    Marquee,
    Math,
    Menu,
    Meta,
    MGlyph,
    Nav,
    NoBr,
    NoEmbed,
    NoFrames,
    NoScript,
    Object,
    Ol,
    OptGroup,
    OptionTag,
    P,
    Param,
    PlainText,
    Pre,
    Rb,
    Rp,
    Rt,
    Rtc,
    Ruby,
    S,
    Script,
    Search,
    Section,
    Select,
    Small,
    Source,
    Span,
    Strike,
    Strong,
    Style,
    Sub,
    Summary,
    Sup,
    Svg,
    Table,
    TBody,
    Td,
    Template,
    TextArea,
    TFoot,
    Th,
    THead,
    Title,
    Tr,
    Track,
    Tt,
    U,
    Ul,
    Var,
    Wbr,
    Xmp,
}

/// How many names are known.
pub(crate) const TAGS: usize = 114;

/// How the known names are spelled.
static SPELLINGS: [&str; TAGS] = [
    "a",
    "address",
    "applet",
    "area",
    "article",
    "aside",
    "b",
    "base",
    "basefont",
    "bgsound",
    "big",
    "blockquote",
    "body",
    "br",
    "button",
    "caption",
    "center",
    "code",
    "col",
    "colgroup",
    "dd",
    "details",
    "dialog",
    "dir",
    "div",
    "dl",
    "dt",
    "em",
    "embed",
    "fieldset",
    "figcaption",
    "figure",
    "font",
    "footer",
    "form",
    "frame",
    "frameset",
    "h1",
    "h2",
    "h3",
    "h4",
    "h5",
    "h6",
    "head",
    "header",
    "hgroup",
    "hr",
    "html",
    "i",
    "iframe",
    "image",
    "img",
    "input",
    "keygen",
    "li",
    "link",
    "listing",
    "main",
    "malignmark",
    "marquee",
    "math",
    "menu",
    "meta",
    "mglyph",
    "nav",
    "nobr",
    "noembed",
    "noframes",
    "noscript",
    "object",
    "ol",
    "optgroup",
    "option",
    "p",
    "param",
    "plaintext",
    "pre",
    "rb",
    "rp",
    "rt",
    "rtc",
    "ruby",
    "s",
    "script",
    "search",
    "section",
    "select",
    "small",
    "source",
    "span",
    "strike",
    "strong",
    "style",
    "sub",
    "summary",
    "sup",
    "svg",
    "table",
    "tbody",
    "td",
    "template",
    "textarea",
    "tfoot",
    "th",
    "thead",
    "title",
    "tr",
    "track",
    "tt",
    "u",
    "ul",
    "var",
    "wbr",
    "xmp",
];

/// A name of HTML.
#[derive(Drop)]
pub enum HtmlName {
    Known(TagName),
    Other(String),
}

/// The name of an element, with its namespace.
#[derive(Drop)]
pub enum ElementName {
    Html(HtmlName),
    Svg(String),
    Math(String),
}

/// A namespace of foreign content.
#[derive(Clone, Copy)]
pub enum Namespace {
    Svg,
    MathMl,
}

/// How the known names are spelled, by their numbers.
#[inline(always)]
fn spellings() -> &'static [&'static str; TAGS]
    ensures { map (λ text. text.now) result.now ≡ map spec.spelling tags }
{
    &SPELLINGS
}

impl TagName {
    /// How it is spelled.
    #[inline(always)]
    pub fn text(self) -> &'static str
        ensures { result.now ≡ spec.spelling self }
    {
        spellings()[self.number()]
    }
}

static A_NAMES: [TagName; 6] = [
    TagName::A,
    TagName::Address,
    TagName::Applet,
    TagName::Area,
    TagName::Article,
    TagName::Aside,
];

static B_NAMES: [TagName; 9] = [
    TagName::B,
    TagName::Base,
    TagName::BaseFont,
    TagName::BgSound,
    TagName::Big,
    TagName::BlockQuote,
    TagName::Body,
    TagName::Br,
    TagName::Button,
];

static C_NAMES: [TagName; 5] = [
    TagName::Caption,
    TagName::Center,
    TagName::Code,
    TagName::Col,
    TagName::ColGroup,
];

static D_NAMES: [TagName; 7] = [
    TagName::Dd,
    TagName::Details,
    TagName::Dialog,
    TagName::Dir,
    TagName::Div,
    TagName::Dl,
    TagName::Dt,
];

static E_NAMES: [TagName; 2] = [TagName::Em, TagName::Embed];

static F_NAMES: [TagName; 8] = [
    TagName::FieldSet,
    TagName::FigCaption,
    TagName::Figure,
    TagName::Font,
    TagName::Footer,
    TagName::Form,
    TagName::Frame,
    TagName::FrameSet,
];

static H_NAMES: [TagName; 11] = [
    TagName::H1,
    TagName::H2,
    TagName::H3,
    TagName::H4,
    TagName::H5,
    TagName::H6,
    TagName::Head,
    TagName::Header,
    TagName::HGroup,
    TagName::Hr,
    TagName::Html,
];

static I_NAMES: [TagName; 5] = [
    TagName::I,
    TagName::Iframe,
    TagName::Image,
    TagName::Img,
    TagName::Input,
];

static K_NAMES: [TagName; 1] = [TagName::KeyGen];

static L_NAMES: [TagName; 3] = [TagName::Li, TagName::Link, TagName::Listing];

static M_NAMES: [TagName; 7] = [
    TagName::Main,
    TagName::MalignMark,
    TagName::Marquee,
    TagName::Math,
    TagName::Menu,
    TagName::Meta,
    TagName::MGlyph,
];

static N_NAMES: [TagName; 5] = [
    TagName::Nav,
    TagName::NoBr,
    TagName::NoEmbed,
    TagName::NoFrames,
    TagName::NoScript,
];

static O_NAMES: [TagName; 4] = [
    TagName::Object,
    TagName::Ol,
    TagName::OptGroup,
    TagName::OptionTag,
];

static P_NAMES: [TagName; 4] = [TagName::P, TagName::Param, TagName::PlainText, TagName::Pre];

static R_NAMES: [TagName; 5] = [
    TagName::Rb,
    TagName::Rp,
    TagName::Rt,
    TagName::Rtc,
    TagName::Ruby,
];

static S_NAMES: [TagName; 15] = [
    TagName::S,
    TagName::Script,
    TagName::Search,
    TagName::Section,
    TagName::Select,
    TagName::Small,
    TagName::Source,
    TagName::Span,
    TagName::Strike,
    TagName::Strong,
    TagName::Style,
    TagName::Sub,
    TagName::Summary,
    TagName::Sup,
    TagName::Svg,
];

static T_NAMES: [TagName; 12] = [
    TagName::Table,
    TagName::TBody,
    TagName::Td,
    TagName::Template,
    TagName::TextArea,
    TagName::TFoot,
    TagName::Th,
    TagName::THead,
    TagName::Title,
    TagName::Tr,
    TagName::Track,
    TagName::Tt,
];

static U_NAMES: [TagName; 2] = [TagName::U, TagName::Ul];

static V_NAMES: [TagName; 1] = [TagName::Var];

static W_NAMES: [TagName; 1] = [TagName::Wbr];

static X_NAMES: [TagName; 1] = [TagName::Xmp];

/// The known names that begin with this letter.
fn names_with(first: u8) -> &'static [TagName]
    ensures { result.now ≡ spec.names_with first }
{
    match first {
        b'a' => &A_NAMES,
        b'b' => &B_NAMES,
        b'c' => &C_NAMES,
        b'd' => &D_NAMES,
        b'e' => &E_NAMES,
        b'f' => &F_NAMES,
        b'h' => &H_NAMES,
        b'i' => &I_NAMES,
        b'k' => &K_NAMES,
        b'l' => &L_NAMES,
        b'm' => &M_NAMES,
        b'n' => &N_NAMES,
        b'o' => &O_NAMES,
        b'p' => &P_NAMES,
        b'r' => &R_NAMES,
        b's' => &S_NAMES,
        b't' => &T_NAMES,
        b'u' => &U_NAMES,
        b'v' => &V_NAMES,
        b'w' => &W_NAMES,
        b'x' => &X_NAMES,
        _ => &[],
    }
}

#[inline(always)]
fn known_in(names: &[TagName], text: &str) -> Option<TagName>
    ensures { result ≡ find (spec.is_spelled text.now) names.now }
{
    for name in names {
        if text == name.text() {
            return Some(*name);
        }
    }
    None
}

/// A name of one letter.
#[tactic(auto, using(crate::proofs::NamesLemmas::spelled_so))]
#[inline(always)]
fn name_of_one(bytes: &[u8]) -> Option<TagName>
    ensures { IfSome result (λ tag. spec.known_name bytes.now ≡ Some tag) }
{
    match bytes {
        b"a" => Some(TagName::A),
        b"b" => Some(TagName::B),
        b"i" => Some(TagName::I),
        b"p" => Some(TagName::P),
        b"s" => Some(TagName::S),
        b"u" => Some(TagName::U),
        _ => None,
    }
}

/// A frequent name of two letters.
#[tactic(auto, using(crate::proofs::NamesLemmas::spelled_so))]
#[inline(always)]
fn name_of_two(bytes: &[u8]) -> Option<TagName>
    ensures { IfSome result (λ tag. spec.known_name bytes.now ≡ Some tag) }
{
    match bytes {
        b"br" => Some(TagName::Br),
        b"dd" => Some(TagName::Dd),
        b"dl" => Some(TagName::Dl),
        b"dt" => Some(TagName::Dt),
        b"em" => Some(TagName::Em),
        b"h1" => Some(TagName::H1),
        b"h2" => Some(TagName::H2),
        b"h3" => Some(TagName::H3),
        b"h4" => Some(TagName::H4),
        b"hr" => Some(TagName::Hr),
        b"li" => Some(TagName::Li),
        b"ol" => Some(TagName::Ol),
        b"td" => Some(TagName::Td),
        b"th" => Some(TagName::Th),
        b"tr" => Some(TagName::Tr),
        b"ul" => Some(TagName::Ul),
        _ => None,
    }
}

/// A frequent name of three letters.
#[tactic(auto, using(crate::proofs::NamesLemmas::spelled_so))]
#[inline(always)]
fn name_of_three(bytes: &[u8]) -> Option<TagName>
    ensures { IfSome result (λ tag. spec.known_name bytes.now ≡ Some tag) }
{
    match bytes {
        b"div" => Some(TagName::Div),
        b"img" => Some(TagName::Img),
        b"nav" => Some(TagName::Nav),
        b"pre" => Some(TagName::Pre),
        b"sub" => Some(TagName::Sub),
        b"sup" => Some(TagName::Sup),
        _ => None,
    }
}

/// A frequent name of four letters.
#[tactic(auto, using(crate::proofs::NamesLemmas::spelled_so))]
#[inline(always)]
fn name_of_four(bytes: &[u8]) -> Option<TagName>
    ensures { IfSome result (λ tag. spec.known_name bytes.now ≡ Some tag) }
{
    match bytes {
        b"code" => Some(TagName::Code),
        b"form" => Some(TagName::Form),
        b"link" => Some(TagName::Link),
        b"meta" => Some(TagName::Meta),
        b"span" => Some(TagName::Span),
        _ => None,
    }
}

/// A frequent name of six letters.
#[tactic(auto, using(crate::proofs::NamesLemmas::spelled_so))]
#[inline(always)]
fn name_of_six(bytes: &[u8]) -> Option<TagName>
    ensures { IfSome result (λ tag. spec.known_name bytes.now ≡ Some tag) }
{
    match bytes {
        b"button" => Some(TagName::Button),
        b"script" => Some(TagName::Script),
        b"strong" => Some(TagName::Strong),
        _ => None,
    }
}

/// The names of most tags, by how long they are.
#[inline(always)]
fn frequent(bytes: &[u8]) -> Option<TagName>
    ensures { IfSome result (λ tag. spec.known_name bytes.now ≡ Some tag) }
{
    match bytes.len() {
        1 => name_of_one(bytes),
        2 => name_of_two(bytes),
        3 => name_of_three(bytes),
        4 => name_of_four(bytes),
        6 => name_of_six(bytes),
        _ => None,
    }
}

/// The name in a rule with this spelling, among those with its first letter.
fn known_by_letter(text: &str) -> Option<TagName>
    ensures { result ≡ spec.known_name text.now }
{
    match text.as_bytes() {
        [first, ..] => known_in(names_with(*first), text),
        [] => None,
    }
}

/// The name in a rule with this spelling.
#[inline(always)]
fn known(text: &str) -> Option<TagName>
    ensures { result ≡ spec.known_name text.now }
{
    match frequent(text.as_bytes()) {
        Some(name) => Some(name),
        None => known_by_letter(text),
    }
}

impl HtmlName {
    /// The name with this spelling, in lower case. `Err` means out of memory.
    #[inline(always)]
    pub fn from_text(alloc: Global, text: CowStr<'_>) -> Result<HtmlName, AllocError>
        ensures { IfOk result (λ name. name_of name ≡ spec.name_of_text (cow_str_bytes text.entry)) }
    {
        match known(text.as_str()) {
            Some(name) => Ok(HtmlName::Known(name)),
            None => Ok(HtmlName::Other(text.into_owned(alloc)?)),
        }
    }

    /// How it is spelled.
    pub fn text(&self) -> &str
        ensures { result.now ≡ spec.text_of_name (name_of self.now) }
    {
        match self {
            HtmlName::Known(name) => name.text(),
            HtmlName::Other(text) => text.as_str(),
        }
    }

    #[inline(always)]
    pub(crate) fn copy(&self) -> Result<HtmlName, AllocError>
        ensures { IfOk result (λ copy. name_of copy ≡ name_of self.now) }
    {
        match self {
            HtmlName::Known(name) => Ok(HtmlName::Known(*name)),
            HtmlName::Other(text) => Ok(HtmlName::Other(text.clone()?)),
        }
    }

    pub(crate) fn is(&self, other: &HtmlName) -> bool
        ensures { result ≡ spec.same_name (name_of self.now) (name_of other.now) }
    {
        match (self, other) {
            (HtmlName::Known(name), HtmlName::Known(wanted)) => name.is(*wanted),
            (HtmlName::Other(text), HtmlName::Other(wanted)) => text.as_str() == wanted.as_str(),
            _ => false,
        }
    }
}

impl TagName {
    pub(crate) fn is(self, other: TagName) -> bool
        ensures { result ≡ spec.same_tag self other }
    {
        self.number() == other.number()
    }

    /// Its number among the known names.
    #[inline(always)]
    pub(crate) fn number(self) -> usize
        ensures value { result ≡ number self }
        ensures within { result < 114 }
    {
        self as usize
    }
}

impl ElementName {
    /// How it is spelled, without its namespace.
    pub fn text(&self) -> &str
        ensures { result.now ≡ spec.text_of_element_name (element_name_of self.now) }
    {
        match self {
            ElementName::Html(name) => name.text(),
            ElementName::Svg(text) => text.as_str(),
            ElementName::Math(text) => text.as_str(),
        }
    }

    #[inline(always)]
    pub(crate) fn copy(&self) -> Result<ElementName, AllocError>
        ensures { IfOk result (λ copy. element_name_of copy ≡ element_name_of self.now) }
    {
        match self {
            ElementName::Html(name) => Ok(ElementName::Html(name.copy()?)),
            ElementName::Svg(text) => Ok(ElementName::Svg(text.clone()?)),
            ElementName::Math(text) => Ok(ElementName::Math(text.clone()?)),
        }
    }

    pub(crate) fn is(&self, other: &ElementName) -> bool
        ensures { result ≡ spec.same_element_name (element_name_of self.now) (element_name_of other.now) }
    {
        match (self, other) {
            (ElementName::Html(name), ElementName::Html(wanted)) => name.is(wanted),
            (ElementName::Svg(text), ElementName::Svg(wanted)) => text.as_str() == wanted.as_str(),
            (ElementName::Math(text), ElementName::Math(wanted)) => text.as_str()
                == wanted.as_str(),
            _ => false,
        }
    }

    /// Whether it is this name of HTML.
    pub(crate) fn is_html(&self, wanted: &HtmlName) -> bool
        ensures { result ≡ spec.same_element_name (element_name_of self.now) (spec.html (name_of wanted.now)) }
    {
        match self {
            ElementName::Html(name) => name.is(wanted),
            _ => false,
        }
    }

    /// Whether it is this name of HTML, which a rule mentions.
    pub(crate) fn is_tag(&self, tag: TagName) -> bool
        ensures { result ≡ spec.is_tag tag (element_name_of self.now) }
    {
        match self {
            ElementName::Html(HtmlName::Known(name)) => name.is(tag),
            _ => false,
        }
    }
}

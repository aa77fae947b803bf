//! HTML's frequent names of elements.
ghost use Rattle.std.specs.Prelude.{◌≡◌, IfNone, IfSome};
ghost use Rattle.htmd_nodes.specs.Tags.{tag_text, HasNoTag};
ghost use Rattle.htmd_nodes.specs.TagLookup.{tag_beginning, tag_of, one_of, a_tags, b_tags, c_tags, d_tags};
ghost use Rattle.htmd_nodes.specs.TagLookup.{e_tags, f_tags, h_tags, i_tags, k_tags, l_tags, m_tags, n_tags};
ghost use Rattle.htmd_nodes.specs.TagLookup.{o_tags, p_tags, q_tags, r_tags, s_tags, t_tags, u_tags, v_tags};
ghost use Rattle.htmd_nodes.specs.TagLookup.{w_tags, x_tags};

use crate::frequent_tags::frequent;

/// A frequent name of elements: each that a rule about trees, documents or Markdown tells from others, and more.
#[derive(Debug, Clone, Copy, PartialEq, Eq, Drop)]
pub enum Tag {
    A,
    Abbr,
    Address,
    Annotation,
    AnnotationXml,
    Area,
    Article,
    Aside,
    Audio,
    B,
    Base,
    Basefont,
    Bdi,
    Bdo,
    Bgsound,
    Blockquote,
    Body,
    Br,
    Button,
    Canvas,
    Caption,
    Center,
    Cite,
    Code,
    Col,
    Colgroup,
    Datalist,
    Dd,
    Del,
    Details,
    Dfn,
    Dialog,
    Dir,
    Div,
    Dl,
    Dt,
    Em,
    Embed,
    Fieldset,
    Figcaption,
    Figure,
    Font,
    Footer,
    Form,
    Frame,
    Frameset,
    H1,
    H2,
    H3,
    H4,
    H5,
    H6,
    Head,
    Header,
    Hgroup,
    Hr,
    Html,
    I,
    Iframe,
    Image,
    Img,
    Input,
    Ins,
    Kbd,
    Keygen,
    Label,
    Legend,
    Li,
    Link,
    Listing,
    Main,
    Map,
    Mark,
    Math,
    Menu,
    Menuitem,
    Meta,
    Meter,
    Mi,
    Mn,
    Mo,
    Mrow,
    Msub,
    Msubsup,
    Msup,
    Mtext,
    Nav,
    Nobr,
    Noembed,
    Noframes,
    Noscript,
    Object,
    Ol,
    Optgroup,
    Option,
    P,
    Param,
    Path,
    Picture,
    Plaintext,
    Pre,
    Q,
    Rp,
    Rt,
    Ruby,
    S,
    Samp,
    Script,
    Search,
    Section,
    Select,
    Semantics,
    Small,
    Source,
    Span,
    Strike,
    Strong,
    Style,
    Sub,
    Summary,
    Sup,
    Svg,
    Table,
    Tbody,
    Td,
    Template,
    Textarea,
    Tfoot,
    Th,
    Thead,
    Time,
    Title,
    Tr,
    Track,
    Tt,
    U,
    Ul,
    Var,
    Video,
    Wbr,
    Xmp,
}

impl Tag {
    /// The text of the name.
    pub fn text(self) -> &'static str
        ensures { result.now ≡ tag_text self }
    {
        match self {
            Tag::A => "a",
            Tag::Abbr => "abbr",
            Tag::Address => "address",
            Tag::Annotation => "annotation",
            Tag::AnnotationXml => "annotation-xml",
            Tag::Area => "area",
            Tag::Article => "article",
            Tag::Aside => "aside",
            Tag::Audio => "audio",
            Tag::B => "b",
            Tag::Base => "base",
            Tag::Basefont => "basefont",
            Tag::Bdi => "bdi",
            Tag::Bdo => "bdo",
            Tag::Bgsound => "bgsound",
            Tag::Blockquote => "blockquote",
            Tag::Body => "body",
            Tag::Br => "br",
            Tag::Button => "button",
            Tag::Canvas => "canvas",
            Tag::Caption => "caption",
            Tag::Center => "center",
            Tag::Cite => "cite",
            Tag::Code => "code",
            Tag::Col => "col",
            Tag::Colgroup => "colgroup",
            Tag::Datalist => "datalist",
            Tag::Dd => "dd",
            Tag::Del => "del",
            Tag::Details => "details",
            Tag::Dfn => "dfn",
            Tag::Dialog => "dialog",
            Tag::Dir => "dir",
            Tag::Div => "div",
            Tag::Dl => "dl",
            Tag::Dt => "dt",
            Tag::Em => "em",
            Tag::Embed => "embed",
            Tag::Fieldset => "fieldset",
            Tag::Figcaption => "figcaption",
            Tag::Figure => "figure",
            Tag::Font => "font",
            Tag::Footer => "footer",
            Tag::Form => "form",
            Tag::Frame => "frame",
            Tag::Frameset => "frameset",
            Tag::H1 => "h1",
            Tag::H2 => "h2",
            Tag::H3 => "h3",
            Tag::H4 => "h4",
            Tag::H5 => "h5",
            Tag::H6 => "h6",
            Tag::Head => "head",
            Tag::Header => "header",
            Tag::Hgroup => "hgroup",
            Tag::Hr => "hr",
            Tag::Html => "html",
            Tag::I => "i",
            Tag::Iframe => "iframe",
            Tag::Image => "image",
            Tag::Img => "img",
            Tag::Input => "input",
            Tag::Ins => "ins",
            Tag::Kbd => "kbd",
            Tag::Keygen => "keygen",
            Tag::Label => "label",
            Tag::Legend => "legend",
            Tag::Li => "li",
            Tag::Link => "link",
            Tag::Listing => "listing",
            Tag::Main => "main",
            Tag::Map => "map",
            Tag::Mark => "mark",
            Tag::Math => "math",
            Tag::Menu => "menu",
            Tag::Menuitem => "menuitem",
            Tag::Meta => "meta",
            Tag::Meter => "meter",
            Tag::Mi => "mi",
            Tag::Mn => "mn",
            Tag::Mo => "mo",
            Tag::Mrow => "mrow",
            Tag::Msub => "msub",
            Tag::Msubsup => "msubsup",
            Tag::Msup => "msup",
            Tag::Mtext => "mtext",
            Tag::Nav => "nav",
            Tag::Nobr => "nobr",
            Tag::Noembed => "noembed",
            Tag::Noframes => "noframes",
            Tag::Noscript => "noscript",
            Tag::Object => "object",
            Tag::Ol => "ol",
            Tag::Optgroup => "optgroup",
            Tag::Option => "option",
            Tag::P => "p",
            Tag::Param => "param",
            Tag::Path => "path",
            Tag::Picture => "picture",
            Tag::Plaintext => "plaintext",
            Tag::Pre => "pre",
            Tag::Q => "q",
            Tag::Rp => "rp",
            Tag::Rt => "rt",
            Tag::Ruby => "ruby",
            Tag::S => "s",
            Tag::Samp => "samp",
            Tag::Script => "script",
            Tag::Search => "search",
            Tag::Section => "section",
            Tag::Select => "select",
            Tag::Semantics => "semantics",
            Tag::Small => "small",
            Tag::Source => "source",
            Tag::Span => "span",
            Tag::Strike => "strike",
            Tag::Strong => "strong",
            Tag::Style => "style",
            Tag::Sub => "sub",
            Tag::Summary => "summary",
            Tag::Sup => "sup",
            Tag::Svg => "svg",
            Tag::Table => "table",
            Tag::Tbody => "tbody",
            Tag::Td => "td",
            Tag::Template => "template",
            Tag::Textarea => "textarea",
            Tag::Tfoot => "tfoot",
            Tag::Th => "th",
            Tag::Thead => "thead",
            Tag::Time => "time",
            Tag::Title => "title",
            Tag::Tr => "tr",
            Tag::Track => "track",
            Tag::Tt => "tt",
            Tag::U => "u",
            Tag::Ul => "ul",
            Tag::Var => "var",
            Tag::Video => "video",
            Tag::Wbr => "wbr",
            Tag::Xmp => "xmp",
        }
    }

    /// The tag with this text, if there is one. The text is only compared with names that begin like it, and first with
    /// those that are most frequent.
    #[tactic(auto, unfolding(crate::specs::TagLookup::tag_of))]
    pub fn with_text(text: &str) -> Option<Tag>
        ensures some { IfSome result (λ tag. text.now ≡ tag_text tag) }
        ensures none { IfNone result (HasNoTag text.now) }
    {
        if let Some(tag) = frequent(text.as_bytes()) {
            return Some(tag);
        }
        match text.as_bytes() {
            [first, ..] => beginning(*first, text),
            [] => None,
        }
    }
}

/// The tag with this text, which begins with this byte.
#[tactic(auto, unfolding(crate::specs::TagLookup::tag_beginning))]
fn beginning(first: u8, text: &str) -> Option<Tag>
    ensures value { result ≡ tag_beginning first text.now }
    ensures some { IfSome result (λ tag. text.now ≡ tag_text tag) }
{
    match first {
        b'a' => of_a(text),
        b'b' => of_b(text),
        b'c' => of_c(text),
        b'd' => of_d(text),
        b'e' => of_e(text),
        b'f' => of_f(text),
        b'h' => of_h(text),
        b'i' => of_i(text),
        b'k' => of_k(text),
        b'l' => of_l(text),
        b'm' => of_m(text),
        b'n' => of_n(text),
        b'o' => of_o(text),
        b'p' => of_p(text),
        b'q' => of_q(text),
        b'r' => of_r(text),
        b's' => of_s(text),
        b't' => of_t(text),
        b'u' => of_u(text),
        b'v' => of_v(text),
        b'w' => of_w(text),
        b'x' => of_x(text),
        _ => None,
    }
}

/// The tag with this text that begins with `a`.
#[tactic(auto, unfolding(crate::specs::TagLookup::a_tags))]
fn of_a(text: &str) -> Option<Tag>
    ensures value { result ≡ one_of a_tags text.now }
    ensures some { IfSome result (λ tag. text.now ≡ tag_text tag) }
{
    let tag = match text {
        "a" => Tag::A,
        "abbr" => Tag::Abbr,
        "address" => Tag::Address,
        "annotation" => Tag::Annotation,
        "annotation-xml" => Tag::AnnotationXml,
        "area" => Tag::Area,
        "article" => Tag::Article,
        "aside" => Tag::Aside,
        "audio" => Tag::Audio,
        _ => return None,
    };
    Some(tag)
}

/// The tag with this text that begins with `b`.
#[tactic(auto, unfolding(crate::specs::TagLookup::b_tags))]
fn of_b(text: &str) -> Option<Tag>
    ensures value { result ≡ one_of b_tags text.now }
    ensures some { IfSome result (λ tag. text.now ≡ tag_text tag) }
{
    let tag = match text {
        "b" => Tag::B,
        "br" => Tag::Br,
        "base" => Tag::Base,
        "basefont" => Tag::Basefont,
        "bdi" => Tag::Bdi,
        "bdo" => Tag::Bdo,
        "bgsound" => Tag::Bgsound,
        "blockquote" => Tag::Blockquote,
        "body" => Tag::Body,
        "button" => Tag::Button,
        _ => return None,
    };
    Some(tag)
}

/// The tag with this text that begins with `c`.
#[tactic(auto, unfolding(crate::specs::TagLookup::c_tags))]
fn of_c(text: &str) -> Option<Tag>
    ensures value { result ≡ one_of c_tags text.now }
    ensures some { IfSome result (λ tag. text.now ≡ tag_text tag) }
{
    let tag = match text {
        "code" => Tag::Code,
        "canvas" => Tag::Canvas,
        "caption" => Tag::Caption,
        "center" => Tag::Center,
        "cite" => Tag::Cite,
        "col" => Tag::Col,
        "colgroup" => Tag::Colgroup,
        _ => return None,
    };
    Some(tag)
}

/// The tag with this text that begins with `d`.
#[tactic(auto, unfolding(crate::specs::TagLookup::d_tags))]
fn of_d(text: &str) -> Option<Tag>
    ensures value { result ≡ one_of d_tags text.now }
    ensures some { IfSome result (λ tag. text.now ≡ tag_text tag) }
{
    let tag = match text {
        "div" => Tag::Div,
        "datalist" => Tag::Datalist,
        "dd" => Tag::Dd,
        "del" => Tag::Del,
        "details" => Tag::Details,
        "dfn" => Tag::Dfn,
        "dialog" => Tag::Dialog,
        "dir" => Tag::Dir,
        "dl" => Tag::Dl,
        "dt" => Tag::Dt,
        _ => return None,
    };
    Some(tag)
}

/// The tag with this text that begins with `e`.
#[tactic(auto, unfolding(crate::specs::TagLookup::e_tags))]
fn of_e(text: &str) -> Option<Tag>
    ensures value { result ≡ one_of e_tags text.now }
    ensures some { IfSome result (λ tag. text.now ≡ tag_text tag) }
{
    let tag = match text {
        "em" => Tag::Em,
        "embed" => Tag::Embed,
        _ => return None,
    };
    Some(tag)
}

/// The tag with this text that begins with `f`.
#[tactic(auto, unfolding(crate::specs::TagLookup::f_tags))]
fn of_f(text: &str) -> Option<Tag>
    ensures value { result ≡ one_of f_tags text.now }
    ensures some { IfSome result (λ tag. text.now ≡ tag_text tag) }
{
    let tag = match text {
        "fieldset" => Tag::Fieldset,
        "figcaption" => Tag::Figcaption,
        "figure" => Tag::Figure,
        "font" => Tag::Font,
        "footer" => Tag::Footer,
        "form" => Tag::Form,
        "frame" => Tag::Frame,
        "frameset" => Tag::Frameset,
        _ => return None,
    };
    Some(tag)
}

/// The tag with this text that begins with `h`.
#[tactic(auto, unfolding(crate::specs::TagLookup::h_tags))]
fn of_h(text: &str) -> Option<Tag>
    ensures value { result ≡ one_of h_tags text.now }
    ensures some { IfSome result (λ tag. text.now ≡ tag_text tag) }
{
    let tag = match text {
        "h1" => Tag::H1,
        "h2" => Tag::H2,
        "h3" => Tag::H3,
        "h4" => Tag::H4,
        "h5" => Tag::H5,
        "h6" => Tag::H6,
        "head" => Tag::Head,
        "header" => Tag::Header,
        "hgroup" => Tag::Hgroup,
        "hr" => Tag::Hr,
        "html" => Tag::Html,
        _ => return None,
    };
    Some(tag)
}

/// The tag with this text that begins with `i`.
#[tactic(auto, unfolding(crate::specs::TagLookup::i_tags))]
fn of_i(text: &str) -> Option<Tag>
    ensures value { result ≡ one_of i_tags text.now }
    ensures some { IfSome result (λ tag. text.now ≡ tag_text tag) }
{
    let tag = match text {
        "i" => Tag::I,
        "img" => Tag::Img,
        "iframe" => Tag::Iframe,
        "image" => Tag::Image,
        "input" => Tag::Input,
        "ins" => Tag::Ins,
        _ => return None,
    };
    Some(tag)
}

/// The tag with this text that begins with `k`.
#[tactic(auto, unfolding(crate::specs::TagLookup::k_tags))]
fn of_k(text: &str) -> Option<Tag>
    ensures value { result ≡ one_of k_tags text.now }
    ensures some { IfSome result (λ tag. text.now ≡ tag_text tag) }
{
    let tag = match text {
        "kbd" => Tag::Kbd,
        "keygen" => Tag::Keygen,
        _ => return None,
    };
    Some(tag)
}

/// The tag with this text that begins with `l`.
#[tactic(auto, unfolding(crate::specs::TagLookup::l_tags))]
fn of_l(text: &str) -> Option<Tag>
    ensures value { result ≡ one_of l_tags text.now }
    ensures some { IfSome result (λ tag. text.now ≡ tag_text tag) }
{
    let tag = match text {
        "li" => Tag::Li,
        "label" => Tag::Label,
        "legend" => Tag::Legend,
        "link" => Tag::Link,
        "listing" => Tag::Listing,
        _ => return None,
    };
    Some(tag)
}

/// The tag with this text that begins with `m`.
#[tactic(auto, unfolding(crate::specs::TagLookup::m_tags))]
fn of_m(text: &str) -> Option<Tag>
    ensures value { result ≡ one_of m_tags text.now }
    ensures some { IfSome result (λ tag. text.now ≡ tag_text tag) }
{
    let tag = match text {
        "main" => Tag::Main,
        "map" => Tag::Map,
        "mark" => Tag::Mark,
        "math" => Tag::Math,
        "menu" => Tag::Menu,
        "menuitem" => Tag::Menuitem,
        "meta" => Tag::Meta,
        "meter" => Tag::Meter,
        "mi" => Tag::Mi,
        "mn" => Tag::Mn,
        "mo" => Tag::Mo,
        "mrow" => Tag::Mrow,
        "msub" => Tag::Msub,
        "msubsup" => Tag::Msubsup,
        "msup" => Tag::Msup,
        "mtext" => Tag::Mtext,
        _ => return None,
    };
    Some(tag)
}

/// The tag with this text that begins with `n`.
#[tactic(auto, unfolding(crate::specs::TagLookup::n_tags))]
fn of_n(text: &str) -> Option<Tag>
    ensures value { result ≡ one_of n_tags text.now }
    ensures some { IfSome result (λ tag. text.now ≡ tag_text tag) }
{
    let tag = match text {
        "nav" => Tag::Nav,
        "nobr" => Tag::Nobr,
        "noembed" => Tag::Noembed,
        "noframes" => Tag::Noframes,
        "noscript" => Tag::Noscript,
        _ => return None,
    };
    Some(tag)
}

/// The tag with this text that begins with `o`.
#[tactic(auto, unfolding(crate::specs::TagLookup::o_tags))]
fn of_o(text: &str) -> Option<Tag>
    ensures value { result ≡ one_of o_tags text.now }
    ensures some { IfSome result (λ tag. text.now ≡ tag_text tag) }
{
    let tag = match text {
        "ol" => Tag::Ol,
        "object" => Tag::Object,
        "optgroup" => Tag::Optgroup,
        "option" => Tag::Option,
        _ => return None,
    };
    Some(tag)
}

/// The tag with this text that begins with `p`.
#[tactic(auto, unfolding(crate::specs::TagLookup::p_tags))]
fn of_p(text: &str) -> Option<Tag>
    ensures value { result ≡ one_of p_tags text.now }
    ensures some { IfSome result (λ tag. text.now ≡ tag_text tag) }
{
    let tag = match text {
        "p" => Tag::P,
        "pre" => Tag::Pre,
        "param" => Tag::Param,
        "path" => Tag::Path,
        "picture" => Tag::Picture,
        "plaintext" => Tag::Plaintext,
        _ => return None,
    };
    Some(tag)
}

/// The tag with this text that begins with `q`.
#[tactic(auto, unfolding(crate::specs::TagLookup::q_tags))]
fn of_q(text: &str) -> Option<Tag>
    ensures value { result ≡ one_of q_tags text.now }
    ensures some { IfSome result (λ tag. text.now ≡ tag_text tag) }
{
    if text == "q" { Some(Tag::Q) } else { None }
}

/// The tag with this text that begins with `r`.
#[tactic(auto, unfolding(crate::specs::TagLookup::r_tags))]
fn of_r(text: &str) -> Option<Tag>
    ensures value { result ≡ one_of r_tags text.now }
    ensures some { IfSome result (λ tag. text.now ≡ tag_text tag) }
{
    let tag = match text {
        "rp" => Tag::Rp,
        "rt" => Tag::Rt,
        "ruby" => Tag::Ruby,
        _ => return None,
    };
    Some(tag)
}

/// The tag with this text that begins with `s`.
#[tactic(auto, unfolding(crate::specs::TagLookup::s_tags))]
fn of_s(text: &str) -> Option<Tag>
    ensures value { result ≡ one_of s_tags text.now }
    ensures some { IfSome result (λ tag. text.now ≡ tag_text tag) }
{
    let tag = match text {
        "span" => Tag::Span,
        "strong" => Tag::Strong,
        "s" => Tag::S,
        "samp" => Tag::Samp,
        "script" => Tag::Script,
        "search" => Tag::Search,
        "section" => Tag::Section,
        "select" => Tag::Select,
        "semantics" => Tag::Semantics,
        "small" => Tag::Small,
        "source" => Tag::Source,
        "strike" => Tag::Strike,
        "style" => Tag::Style,
        "sub" => Tag::Sub,
        "summary" => Tag::Summary,
        "sup" => Tag::Sup,
        "svg" => Tag::Svg,
        _ => return None,
    };
    Some(tag)
}

/// The tag with this text that begins with `t`.
#[tactic(auto, unfolding(crate::specs::TagLookup::t_tags))]
fn of_t(text: &str) -> Option<Tag>
    ensures value { result ≡ one_of t_tags text.now }
    ensures some { IfSome result (λ tag. text.now ≡ tag_text tag) }
{
    let tag = match text {
        "td" => Tag::Td,
        "tr" => Tag::Tr,
        "th" => Tag::Th,
        "table" => Tag::Table,
        "tbody" => Tag::Tbody,
        "template" => Tag::Template,
        "textarea" => Tag::Textarea,
        "tfoot" => Tag::Tfoot,
        "thead" => Tag::Thead,
        "time" => Tag::Time,
        "title" => Tag::Title,
        "track" => Tag::Track,
        "tt" => Tag::Tt,
        _ => return None,
    };
    Some(tag)
}

/// The tag with this text that begins with `u`.
#[tactic(auto, unfolding(crate::specs::TagLookup::u_tags))]
fn of_u(text: &str) -> Option<Tag>
    ensures value { result ≡ one_of u_tags text.now }
    ensures some { IfSome result (λ tag. text.now ≡ tag_text tag) }
{
    let tag = match text {
        "ul" => Tag::Ul,
        "u" => Tag::U,
        _ => return None,
    };
    Some(tag)
}

/// The tag with this text that begins with `v`.
#[tactic(auto, unfolding(crate::specs::TagLookup::v_tags))]
fn of_v(text: &str) -> Option<Tag>
    ensures value { result ≡ one_of v_tags text.now }
    ensures some { IfSome result (λ tag. text.now ≡ tag_text tag) }
{
    let tag = match text {
        "var" => Tag::Var,
        "video" => Tag::Video,
        _ => return None,
    };
    Some(tag)
}

/// The tag with this text that begins with `w`.
#[tactic(auto, unfolding(crate::specs::TagLookup::w_tags))]
fn of_w(text: &str) -> Option<Tag>
    ensures value { result ≡ one_of w_tags text.now }
    ensures some { IfSome result (λ tag. text.now ≡ tag_text tag) }
{
    if text == "wbr" { Some(Tag::Wbr) } else { None }
}

/// The tag with this text that begins with `x`.
#[tactic(auto, unfolding(crate::specs::TagLookup::x_tags))]
fn of_x(text: &str) -> Option<Tag>
    ensures value { result ≡ one_of x_tags text.now }
    ensures some { IfSome result (λ tag. text.now ≡ tag_text tag) }
{
    if text == "xmp" { Some(Tag::Xmp) } else { None }
}

//! Texts of the strict grammar, as the lenient reader reads them.
ghost use Rattle.htmd_law_html5.specs.StrictReferences.{ReferencesAgree};
ghost use Rattle.htmd_law_html5.specs.StrictTokens.{TokensAgree};
ghost use Rattle.htmd_law_html5.specs.StrictTrees.{PlainPagesAgree, PlainTextsAgree};

/// Characters and references denote the same by the strict grammar and by the lenient reader, where line ends are line
/// feeds, there is no U+0000, and each reference by name has its `;`; in the value of an attribute it needs none before
/// `=`, a letter or a digit.
pub fn references_agree()
    ensures { ReferencesAgree }
{}

/// The tokens that the lenient reader's tokenizer finds in a text of the strict grammar are those of its trees, in
/// document order, where line ends are line feeds, there is no U+0000, each reference by name has its `;`, and no
/// element is a `textarea` or `script`. A `tbody` that begins with a `tr` may have no tags.
pub fn tokens_agree()
    ensures { TokensAgree }
{}

/// An unambiguous text of the strict grammar whose elements are plain is read after `<body>` as the tree that the
/// grammar gives: `html` with an empty `head`, and a `body` with the content. Plain are all elements but `colgroup`,
/// `col`, `select`, `form`, `object`, `applet`, `marquee`, parts of `ruby`, `noscript`, `script`, `textarea`, and those
/// of MathML and SVG.
pub fn plain_pages_agree()
    ensures { PlainPagesAgree }
{}

/// An unambiguous text of the strict grammar whose elements are plain, and whose content begins with a character that
/// is no white space, or with an element that belongs in no head, is read as that tree without `<body>` too.
pub fn plain_texts_agree()
    ensures { PlainTextsAgree }
{}

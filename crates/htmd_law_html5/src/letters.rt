//! The letters of a page and of its tree.
ghost use Rattle.htmd_law_html5.specs.DocumentLetters.{LettersAreTaken};
ghost use Rattle.htmd_law_html5.specs.DroppedTexts.{HarmlessLettersAreKept, HarmlessLettersAreTaken};
ghost use Rattle.htmd_law_html5.specs.DroppedTexts.{HarmlessTextsAreTaken};
ghost use Rattle.htmd_law_html5.specs.KeptLetters.{LettersAreKept};
ghost use Rattle.htmd_law_html5.specs.LetterOrder.{LettersStandInOrder};
ghost use Rattle.htmd_law_html5.specs.PageLetters.{NoLetterIsMadeUp, TokensAreUtf8};
ghost use Rattle.htmd_law_html5.specs.TextKept.{CharactersAreKept, TextIsKept, WholeTextIsKept};

/// The texts of the tokens of a page in UTF-8 are in UTF-8.
pub fn tokens_are_utf8()
    ensures { TokensAreUtf8 }
{}

/// No letter is made up: each letter is in the texts of the tree at most as often as in those of the page's tokens. A
/// letter is a character that isn't white space, U+0000 or U+FFFD.
pub fn no_letter_is_made_up()
    ensures { NoLetterIsMadeUp }
{}

/// Letters are taken: where no text reaches a state that drops text, each letter is in the texts of the document that
/// is made of the page as often as in those of the page's tokens.
pub fn letters_are_taken()
    ensures { LettersAreTaken }
{}

/// Letters are kept: where no text reaches a state that drops text, and the document that is made of the page is in one
/// piece, each letter is in the texts of the tree as often as in those of the page's tokens.
pub fn letters_are_kept()
    ensures { LettersAreKept }
{}

/// Without a start tag of `frameset` or `template` no text comes to a state that drops text.
pub fn undropped_texts_are_taken()
    ensures { HarmlessTextsAreTaken }
{}

/// Without a start tag of `frameset` or `template` each letter is in the texts of the document that is made of the page
/// as often as in those of the page's tokens.
pub fn undropped_letters_are_taken()
    ensures { HarmlessLettersAreTaken }
{}

/// Without a start tag of `frameset` or `template` letters are kept: each letter is in the texts of the tree as often
/// as in those of the page's tokens.
pub fn undropped_letters_are_kept()
    ensures { HarmlessLettersAreKept }
{}

/// Without a start tag of `frameset`, `template` or `table` letters stand in order: those of the tree's texts, in
/// document order, are those of the texts of the page's tokens, in the same order.
pub fn letters_stand_in_order()
    ensures { LettersStandInOrder }
{}

/// Without such a start tag each character but U+0000 and U+FFFD, white space too, is in the texts of the tree as often
/// as in what is kept of the texts of the page's tokens: white space before the head goes, and a line feed right after
/// a start tag of `pre`, `listing` or `textarea`.
pub fn characters_are_kept()
    ensures { CharactersAreKept }
{}

/// Without such a start tag, and without one of the head between the head and the body, text is kept: the characters
/// of the tree's texts but U+0000 and U+FFFD, white space too, are in document order what is kept of the texts of the
/// page's tokens, in the same order.
pub fn text_is_kept()
    ensures { TextIsKept }
{}

/// And if no U+0000 is in the texts of the page's tokens, so are all characters, U+FFFD too.
pub fn whole_text_is_kept()
    ensures { WholeTextIsKept }
{}

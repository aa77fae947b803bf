//! Documents of pages come back.
ghost use Rattle.htmd_law_settled.specs.PageLaws.{DocumentsAreSettled, PagesAreParsed, PagesComeBack};
ghost use Rattle.htmd_law_settled.specs.PageLaws.{ConversionIsStable, AddressesStay, ComesBackAgain, FilesAreStable};

/// The reader of any page reads the HTML of a page's Markdown as exactly the trees that it is spelled of, whatever the
/// page holds, if the Markdown fits a text of the machine; of a rich one, if elements, quotes and lists are in each
/// other in 998 levels at most, of which a list and a table that is an element are two.
pub fn pages_are_parsed()
    ensures { PagesAreParsed }
{}

/// A document of a page that is common with its addresses encoded is then settled.
pub fn documents_are_settled()
    ensures { DocumentsAreSettled }
{}

/// So it is, with its addresses encoded, the document of the page that the reader of any page reads in the HTML of its
/// Markdown.
pub fn pages_come_back()
    ensures { PagesComeBack }
{}

/// So the Markdown of that page is the same, byte for byte, but that addresses are encoded.
pub fn conversion_is_stable()
    ensures { ConversionIsStable }
{}

/// Once addresses are encoded, they stay.
pub fn addresses_stay()
    ensures { AddressesStay }
{}

/// So from then on all comes back as it is.
pub fn all_comes_back_again()
    ensures { ComesBackAgain }
{}

/// The file, which ends in a line feed, of the page in the HTML of a file is that of the document with its addresses
/// encoded, if it is common with these.
pub fn files_are_stable()
    ensures { FilesAreStable }
{}

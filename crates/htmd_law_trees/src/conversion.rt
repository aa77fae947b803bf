//! Laws of the conversion of trees: each is the contract of a function that does nothing, or only reads a text.
ghost use Rattle.htmd_law_trees.specs.ContentLaws.{ContentIsTrimmed, RepeatsAreKept};
ghost use Rattle.htmd_law_trees.specs.GroupLaws.{ChildrenAreCut};
ghost use Rattle.htmd_law_trees.specs.EmphasisLaws.{MarksStandInside};
ghost use Rattle.htmd_law_trees.specs.LinkLaws.{AnchorsTakeTheNextNumber, ReferencesAreNumbered};
ghost use Rattle.htmd_law_trees.specs.LinkLaws.{ImagesHoldAddresses, LinksHoldAddresses};
ghost use Rattle.htmd_law_trees.specs.ListLaws.{EachItemTakesANumber, ItemsBeginInOneColumn};
ghost use Rattle.htmd_walk.specs.Views.{element_view};

pub use htmd_markdown::Emphasis;
use htmd_walk::element_handler::Element;

/// The content of a node, before anything is put after it, neither begins nor ends with a line feed.
pub fn content_is_trimmed()
    ensures { ContentIsTrimmed }
{}

/// A handler that is registered for a tag twice is asked twice.
pub fn repeats_are_kept()
    ensures { RepeatsAreKept }
{}

/// The children of a node are cut into groups in exactly one way: into runs of neighbours that join, none of which
/// could be longer. Nothing is lost, and each group stands for its run.
pub fn children_are_cut()
    ensures { ChildrenAreCut }
{}

/// In Pure the built-in handlers of `strong`, `b`, `i` and `em` put their marks inside the white space at the ends of a
/// content, around a text that is not empty; without the marks it is the content.
pub fn marks_stand_inside(emphasis: Emphasis, content: &str)
    ensures { MarksStandInside emphasis content.now }
{
    let start = content.trim_start();
    let _ = start.trim_end();
}

/// An anchor that is written as a reference in style Full takes the number after the definitions so far.
pub fn anchors_take_the_next_number()
    ensures { AnchorsTakeTheNextNumber }
{}

/// In style Full the i-th line of a conversion defines the number i, and only anchors add lines, whatever handlers are
/// added, boxed or of closures.
pub fn references_are_numbered()
    ensures { ReferencesAreNumbered }
{}

/// What is written for the address of an image reads back as the address, if that has no backslash.
pub fn images_hold_addresses()
    ensures { ImagesHoldAddresses }
{}

/// What is written for the address of a link reads back as the address, if that has no backslash.
pub fn links_hold_addresses()
    ensures { LinksHoldAddresses }
{}

/// If what the built-in handler of `ol` gives is Markdown, the content of each item begins in its line after
/// `ol_number_spacing`, the digits of the highest number and one character more. A list or quote around it may then
/// indent it.
pub fn items_begin_in_one_column(element: &Element)
    ensures { ItemsBeginInOneColumn (element_view element.now) }
{
    let tree = element.tree();
    let _children = tree.children(element.node);
}

/// Each `li` among the children of `ol` takes the next number, even one that gives nothing, as when `li` is skipped.
pub fn each_item_takes_a_number()
    ensures { EachItemTakesANumber }
{}

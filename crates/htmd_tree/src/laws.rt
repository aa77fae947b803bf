//! Laws of the bodies of pages: each is the contract of a function that does nothing.
ghost use Rattle.htmd_tree.specs.BodyLaws.{StartTagsAreForms, FormsAreStartTags, EndTagsAreForms};
ghost use Rattle.htmd_tree.specs.BodyLaws.{BodyStandsBetween, BodyRunsToTheEnd, NoBodyIsAll};

/// The tags of a body are those of the grammar's form, and no others.
pub fn body_tags_are_forms()
    ensures sound { StartTagsAreForms }
    ensures complete { FormsAreStartTags }
    ensures end_tags { EndTagsAreForms }
{}

/// The part of a page that is converted is what its tags surround.
pub fn body_stands_between()
    ensures between { BodyStandsBetween }
    ensures to_the_end { BodyRunsToTheEnd }
    ensures all { NoBodyIsAll }
{}

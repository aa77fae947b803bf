//! Laws of the grammar: what a text denotes, and at what place it is refused.
ghost use Rattle.htmd_grammar.specs.Rules.{Rules};
ghost use Rattle.htmd_law_trees.specs.GrammarLaws.{AtMostOneForest, AtMostOneDocument, MoreRulesReadMore};
ghost use Rattle.htmd_law_trees.specs.GrammarLaws.{MoreRulesReadMoreDocuments, FaultsAreOne};

/// A text denotes at most one document, and in any context that is not empty at most one list of trees.
pub fn at_most_one_tree()
    ensures document { (rules : Rules) → AtMostOneDocument rules }
    ensures in_context { (rules : Rules) → AtMostOneForest rules }
{}

/// What a text denotes under fewer names of references and a smaller depth, it denotes under more, with the same
/// scripting.
pub fn more_rules_read_more()
    ensures in_context { MoreRulesReadMore }
    ensures document { MoreRulesReadMoreDocuments }
{}

/// A text has at most one right place and kind of a refusal.
pub fn faults_are_one()
    ensures { (rules : Rules) → FaultsAreOne rules }
{}

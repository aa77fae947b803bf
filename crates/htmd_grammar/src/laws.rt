//! The laws that the reader and the serialiser of `htmd_nodes` call: each is the contract of a function that does
//! nothing. `htmd_law_trees` has those that no code calls.
ghost use Rattle.std.specs.Prelude.{Bool};
ghost use Rattle.htmd_grammar.specs.Rules.{Rules, project};
ghost use Rattle.htmd_grammar.specs.Laws.{StepsReadAll, StepsReadRightly, FaultsRefuse, PrefixesAreViable};
ghost use Rattle.htmd_grammar.specs.Laws.{FaultsAreRight, FaultsRefuseDocuments, RestIsAnEnd};
ghost use Rattle.htmd_grammar.specs.ReadBack.{ReadsBack, RawBlockReadsBack};

/// For trees that were read: what the serialiser writes of an element without carriage returns, comments, `pre`,
/// `textarea` and raw text elements is read as that element alone, in the context of its ancestors, even with
/// references in place of some line feeds. The same holds for the block of its raw HTML.
pub fn raw_html_reads_back()
    ensures serialisation { (scripting : Bool) → ReadsBack (project scripting) }
    ensures block { (scripting : Bool) → RawBlockReadsBack (project scripting) }
{}

/// The steps of a reader reach the end exactly for the texts that denote something, and read that; a fault of
/// a step at any state but the finished one means that the text denotes nothing, and what was read before a step is a
/// viable prefix.
pub fn steps_read_the_grammar()
    ensures complete { (rules : Rules) → StepsReadAll rules }
    ensures sound { (rules : Rules) → StepsReadRightly rules }
    ensures refused { (rules : Rules) → FaultsRefuse rules }
    ensures fronts { (rules : Rules) → PrefixesAreViable rules }
{}

/// If the steps of a reader stop before the end, what is there is of the fault's kind and of no lower one, what comes
/// before it is a viable prefix, and the text denotes nothing. What is left there is an end of the text.
pub fn faults_are_right()
    ensures right { (rules : Rules) → FaultsAreRight rules }
    ensures refused { (rules : Rules) → FaultsRefuseDocuments rules }
    ensures rest { (rules : Rules) → RestIsAnEnd rules }
{}

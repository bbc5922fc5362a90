//! What the sets and the tables of a grammar mean by derivations, and which item stands behind
//! another. Each function does nothing: its contract is the law.
ghost use Rattle.vob_lr.specs.Canonical.{LookaheadsAreMerged, StatesAreMerged};
ghost use Rattle.vob_lr.specs.Derivations.{BeginningIsDerived, DerivedIsRightmost, EmptyIsDerived, FollowingIsDerived, ParsesAreOfSymbols, SentencesHaveParses};
ghost use Rattle.vob_lr.specs.Entered.{OthersAreNotEntered};
ghost use Rattle.vob_lr.specs.Expected.{ExpectedAreAll};
ghost use Rattle.vob_lr.specs.Handles.{ReductionsAreOfHandles};
ghost use Rattle.vob_lr.specs.Items.{NextItemIsBehind};
ghost use Rattle.vob_lr.specs.Languages.{AcceptedAreSentences, ErrorsAreEarly, ErrorsAreLate, SentencesHaveOneParse, TooLongIsNoSentence};
ghost use Rattle.vob_lr.specs.Nesting.{OperatorsNest};
ghost use Rattle.vob_lr.specs.OperatorTables.{AcceptedAreNested, NestedAreParsed};
ghost use Rattle.vob_lr.specs.Operations.{NestedTreesAreOne};
ghost use Rattle.vob_lr.specs.Stops.{StepsAreOne};
ghost use Rattle.vob_lr.specs.Trees.{ParsesHaveOneTree, ParsesHaveTrees};

/// Symbols can become empty exactly if they derive nothing. So `nullable` finds the nonterminals
/// that derive nothing.
pub fn empty_is_derived()
    ensures { EmptyIsDerived }
{}

/// A terminal can begin symbols exactly if they derive some that it begins. So `GrammarSets::first`
/// has the terminals that begin what each nonterminal derives.
pub fn beginning_is_derived()
    ensures { BeginningIsDerived }
{}

/// A terminal can follow a nonterminal exactly if some nonterminal derives symbols where it stands
/// right behind that. So `GrammarSets::follow` has these terminals.
pub fn following_is_derived()
    ensures { FollowingIsDerived }
{}

/// The item with the number after another's has its dot behind the symbol that stands behind the
/// dot of that one. So `goto` passes the dot.
pub fn next_item_is_behind()
    ensures { NextItemIsBehind }
{}

/// The symbols that lead to a state are those after which canonical LR(1)'s state has its items, if
/// each nonterminal derives some tokens. So `states` merges canonical LR(1)'s states.
pub fn states_are_merged()
    ensures { StatesAreMerged }
{}

/// The lookaheads of an item in a state are those of canonical LR(1)'s states with the same items, if
/// each nonterminal derives some tokens. So `Lookaheads::of` gives their union.
pub fn lookaheads_are_merged()
    ensures { LookaheadsAreMerged }
{}

/// A parser may reduce by a rule where a handle of the rule ends, if the terminal behind that is ahead,
/// and nowhere else, if each nonterminal derives some tokens. So `Lookaheads::reduces` tells of handles.
pub fn reductions_are_of_handles()
    ensures { ReductionsAreOfHandles }
{}

/// What derives tokens has a rightmost derivation of them, and only that does.
pub fn derived_is_rightmost()
    ensures { DerivedIsRightmost }
{}

/// The sentences of a grammar are the tokens that have a parse. So `parse` accepts nothing else.
pub fn sentences_have_parses()
    ensures { SentencesHaveParses }
{}

/// Rules with the same symbols have the same parses. So a parse by the rules of a table is one by
/// those that its grammar was made of.
pub fn parses_are_of_symbols()
    ensures { ParsesAreOfSymbols }
{}

/// By the table of an LALR(1) grammar a parser accepts exactly the sentences.
pub fn accepted_are_sentences()
    ensures { AcceptedAreSentences }
{}

/// A sentence of an LALR(1) grammar has one parse. So `parse` returns that.
pub fn sentences_have_one_parse()
    ensures { SentencesHaveOneParse }
{}

/// By the table of an LALR(1) grammar an error is early: the tokens up to the one that `parse` names
/// begin no sentence.
pub fn errors_are_early()
    ensures { ErrorsAreEarly }
{}

/// A parser takes one way: what a step leads to is one.
pub fn steps_are_one()
    ensures { StepsAreOne }
{}

/// By a table a parser enters no states but those of `Table::entered`.
pub fn others_are_not_entered()
    ensures { OthersAreNotEntered }
{}

/// An error isn't too early: the tokens before the one that `parse` names begin a sentence, if each
/// nonterminal derives some tokens.
pub fn errors_are_late()
    ensures { ErrorsAreLate }
{}

/// By the table of an LALR(1) grammar tokens that a parser reduces by more rules than suffice are no
/// sentence. So `parse` fails over a sentence for memory alone.
pub fn too_long_is_no_sentence()
    ensures { TooLongIsNoSentence }
{}

/// Parses are what has trees: a leaf for each token, and a node for each rule. So what `parse` returns
/// tells them.
pub fn parses_have_trees()
    ensures { ParsesHaveTrees }
{}

/// A parse has no other trees.
pub fn parses_have_one_tree()
    ensures { ParsesHaveOneTree }
{}

/// In the trees of what a parser accepts the operations of each nonterminal nest as their precedences
/// say. A right operand begins with no operation that binds less tightly than the rule that it ends,
/// nor alike, unless its operator groups to the right or nothing is said. A left operand ends with no
/// operation that binds less tightly than the operator behind it, nor alike, unless that groups to
/// the left or nothing is said. So `a - b - c` is `(a - b) - c`, and `a + b * c` is `a + (b * c)`.
pub fn operators_nest()
    ensures { OperatorsNest }
{}

/// If all rules of a nonterminal are operations, and precedences decide between each two, one of the
/// trees of a text at most nests so.
pub fn nested_trees_are_one()
    ensures { NestedTreesAreOne }
{}

/// By the table of an operator grammar, between whose operations precedences decide, a parser accepts
/// exactly the texts of which a tree nests so. So what `parse` returns tells the tree that they say.
pub fn accepted_are_nested()
    ensures { AcceptedAreNested }
{}

/// By the table of an LALR(1) grammar all that can stand behind tokens is expected: each terminal with
/// which they begin a sentence, and the end if they are one. So `Table::expected` has it.
pub fn expected_are_all()
    ensures { ExpectedAreAll }
{}

/// Over such a text a parser is nowhere stuck, and needs no more reductions than there are tokens. So
/// `parse_within` fails over it for memory alone, if it may reduce as often.
pub fn nested_are_parsed()
    ensures { NestedAreParsed }
{}

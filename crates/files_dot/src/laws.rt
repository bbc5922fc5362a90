//! What follows from the definitions of DOT. Each function does nothing: its contract is the law.
ghost use Rattle.files_dot.specs.DotLaws.{GraphsAreOne, NotationsAreOne, TextsSayOne, TokensAreOne};

/// A text has one list of tokens, and ends at one place.
pub fn tokens_are_one()
    ensures { TokensAreOne }
{}

/// Words say one thing of a graph: by whatever productions they are one, it has the same nodes and
/// edges, in the same order.
pub fn graphs_are_one()
    ensures { GraphsAreOne }
{}

/// A text in DOT says one thing of a graph.
pub fn texts_say_one()
    ensures { TextsSayOne }
{}

/// A text is in one notation.
pub fn notations_are_one()
    ensures { NotationsAreOne }
{}

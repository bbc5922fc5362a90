//! What follows from the definitions of a text's graph, its closure and its reduction. Each function
//! does nothing: its contract is the law.
ghost use Rattle.files_graph.specs.ClosureLaws.{GraphsAreOne, OutputsAreOne};
ghost use Rattle.files_graph.specs.ReductionLaws.{ReductionIsLeast, ReductionKeepsClosure};

/// Two graphs of one text have the same names, in the same order, and the same edges. So a text has
/// one graph, and what `print_closure` writes is of that one.
pub fn graphs_are_one()
    ensures { GraphsAreOne }
{}

/// Equal texts give equal bytes: to an output whose bytes are known, `print_closure` may append one
/// list for a text and a part, and no other. So two calls that succeed write the same.
pub fn outputs_are_one()
    ensures { OutputsAreOne }
{}

/// The edges of a graph's reduction have the closure of the graph. So what `print_closure` writes of
/// `Part::Fewest` stands for the graph: paths by these edges lead where its own paths do.
pub fn reduction_keeps_closure()
    ensures { ReductionKeepsClosure }
{}

/// No edges with the closure of a graph are fewer than those of its reduction. So `print_closure`
/// writes the fewest that there are.
pub fn reduction_is_least()
    ensures { ReductionIsLeast }
{}

//! What follows from the definitions of a text's flow graph. Each function does nothing: its
//! contract is the law.
ghost use Rattle.files_flow.specs.FlowLaws.{GraphsAreOne, OutputsAreOne};

/// Two flow graphs of one text have the same names and variables, in the same order, and node by
/// node the same lists. So a text has one flow graph, and `print_flow` writes of that one.
pub fn graphs_are_one()
    ensures { GraphsAreOne }
{}

/// Equal texts give equal bytes: to an output whose bytes are known, `print_flow` may append one
/// list for a text and an analysis, and no other. So two calls that succeed write the same.
pub fn outputs_are_one()
    ensures { OutputsAreOne }
{}

//! What follows from the definitions of a condition. Each function does nothing: its contract is
//! the law.
ghost use Rattle.files_condition.specs.Laws.{ConditionsAreOne, ConditionsHaveNoFault, FaultsAreOne, WordsAreOne};

/// A text has at most one list of words.
pub fn words_are_one()
    ensures { WordsAreOne }
{}

/// A text is one condition at most: it has one list of comparisons, and one expression over them.
pub fn conditions_are_one()
    ensures { ConditionsAreOne }
{}

/// No text is a condition and has a fault. So `read_condition` fails at a word only if the text is no
/// condition.
pub fn conditions_have_no_fault()
    ensures { ConditionsHaveNoFault }
{}

/// A text has at most one fault: one column, and one text of what is expected there. So
/// `read_condition` says no other.
pub fn faults_are_one()
    ensures { FaultsAreOne }
{}

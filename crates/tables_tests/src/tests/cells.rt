//! Tables of parsers worked by hand: what is done at each terminal, and what precedence decides.
use super::grammar::grammar_of;
use super::support::same;
use std::alloc::{AllocError, Global};
use std::process::Abort;
use vob_lr::{Associativity, Cell, Conflict, Grammar, Lookaheads, Precedence, Table};

/// The textbooks' grammar of two words `c* d`.
const WORDS: [&str; 4] = ["A=S$", "S=CC", "C=cC", "C=d"];

/// The cells of each of its states: `s1` enters state 1, `r2` reduces by rule 2, and `.` does
/// nothing. The textbook's merged states are 1, 2 and 5 here.
const CELLS: [&str; 8] = [
    ". s1 s2", ". s1 s2", "r3 r3 r3", "s6 . .", ". s1 s2", "r2 r2 r2", ". . .", "r1 . .",
];

/// A sum, which state 5 may shift or reduce at `+`.
const SUM: [&str; 3] = ["A=E$", "E=E+E", "E=i"];

/// Appends what a cell does to a text.
fn add_cell(alloc: Global, text: &mut String, cell: &Cell) -> Result<(), AllocError> {
    if cell.action().is_none() {
        text.push('.')?;
    }
    if let Some(state) = cell.shift {
        text.push_str(&format!(in alloc; "s{state}")?)?;
    }
    for rule in &cell.reduces {
        text.push_str(&format!(in alloc; "r{rule}")?)?;
    }
    Ok(())
}

/// Returns the cells of a state as a text.
fn cells_of(
    alloc: Global,
    table: &Table<'_>,
    state: usize,
    terminals: usize,
) -> Result<String, AllocError> {
    let mut text = String::new(alloc);
    for terminal in 0..terminals {
        if terminal > 0 {
            text.push(' ')?;
        }
        if let Some(cell) = table.cell(state, terminal) {
            add_cell(alloc, &mut text, cell)?;
        }
    }
    Ok(text)
}

/// Makes the table of a grammar by some precedences.
pub fn table_of<'a>(
    rt: &(impl Abort + AllocGlobal),
    grammar: &'a Grammar,
    terminals: &[Option<Precedence>],
    rules: &[Option<Precedence>],
) -> Table<'a> {
    let states = Lookaheads::new(rt.alloc(), grammar).expect(rt, "states");
    Table::new(rt.alloc(), states, terminals, rules).expect(rt, "a table")
}

/// Compares the cells of a state with a text.
fn check_cells(
    rt: &(impl Abort + AllocGlobal),
    table: &Table<'_>,
    state: usize,
    terminals: usize,
    wanted: &str,
) {
    let found = cells_of(rt.alloc(), table, state, terminals).expect(rt, "memory");
    same(rt, "the cells", state, found.as_str(), wanted);
}

#[test]
fn cells_are_those_of_the_textbook(rt: HostRuntime) {
    let grammar = grammar_of(&rt, ("ASC", "$cd"), &WORDS);
    let table = table_of(&rt, &grammar, &[], &[]);
    for (state, cells) in CELLS.iter().enumerate() {
        check_cells(&rt, &table, state, grammar.terminals, cells);
    }
    let past = CELLS.len();
    same(
        &rt,
        "a cell past the states",
        past,
        table.cell(past, 0).is_none(),
        true,
    );
    same(
        &rt,
        "past the terminals",
        3,
        table.cell(0, 3).is_none(),
        true,
    );
    let conflicts = table.conflicts(rt.alloc()).expect(&rt, "memory");
    same(&rt, "conflicts", 0, conflicts.len(), 0);
    let decided = table.decided(rt.alloc()).expect(&rt, "memory");
    same(&rt, "decided cells", 0, decided.len(), 0);
}

/// A precedence.
fn binds(level: usize, associativity: Associativity) -> Option<Precedence> {
    Some(Precedence {
        level,
        associativity,
    })
}

/// Compares what state 5 of the sum does at `+`, and what precedence left out there. That is the one
/// conflict, or the one cell that was decided.
fn check_sum(
    rt: &(impl Abort + AllocGlobal),
    terminal: Option<Precedence>,
    rule: Option<Precedence>,
    wanted: &str,
    left_out: &str,
) {
    let grammar = grammar_of(rt, ("AE", "$+i"), &SUM);
    let table = table_of(rt, &grammar, &[None, terminal], &[None, rule]);
    check_cells(rt, &table, 5, 3, wanted);
    let mut text = String::new(rt.alloc());
    let left = table.left_out(rt.alloc(), 5, 1).expect(rt, "memory");
    add_cell(rt.alloc(), &mut text, &left).expect(rt, "memory");
    same(rt, "what is left out", 5, text.as_str(), left_out);
    let conflicts = table.conflicts(rt.alloc()).expect(rt, "memory");
    let decided = table.decided(rt.alloc()).expect(rt, "memory");
    let here = Conflict {
        state: 5,
        terminal: 1,
    };
    let (one, none) = if left_out == "." {
        (conflicts, decided)
    } else {
        (decided, conflicts)
    };
    same(
        rt,
        "the place",
        5,
        one.as_slice() == [here].as_slice(),
        true,
    );
    same(rt, "no other", 5, none.len(), 0);
}

#[test]
fn precedence_decides_between_a_shift_and_a_rule(rt: HostRuntime) {
    check_sum(&rt, None, None, "r1 s4r1 .", ".");
    for side in [
        Associativity::Left,
        Associativity::Right,
        Associativity::Neither,
        Associativity::Unstated,
    ] {
        let low = binds(1, side);
        let high = binds(2, side);
        check_sum(&rt, low, None, "r1 s4r1 .", ".");
        check_sum(&rt, None, low, "r1 s4r1 .", ".");
        check_sum(&rt, low, high, "r1 r1 .", "s4");
        check_sum(&rt, high, low, "r1 s4 .", "r1");
    }
}

#[test]
fn associativity_decides_where_both_bind_alike(rt: HostRuntime) {
    for (side, wanted, left_out) in [
        (Associativity::Left, "r1 r1 .", "s4"),
        (Associativity::Right, "r1 s4 .", "r1"),
        (Associativity::Neither, "r1 . .", "s4r1"),
        (Associativity::Unstated, "r1 s4r1 .", "."),
    ] {
        let alike = binds(1, side);
        check_sum(&rt, alike, alike, wanted, left_out);
    }
}

#[test]
fn a_state_to_which_no_shift_leads_is_not_entered(rt: HostRuntime) {
    // An else belongs to no if once the rule of the shorter if binds more tightly. In bison's
    // numbers, 6 is behind the else and 7 behind what follows it.
    let grammar = grammar_of(&rt, ("AS", "$ieo"), &["A=S$", "S=iS", "S=iSeS", "S=o"]);
    let low = binds(1, Associativity::Left);
    let high = binds(2, Associativity::Left);
    for (rule, last) in [(high, 5usize), (low, 7)] {
        let terminals = [None, None, binds(1, Associativity::Right)];
        let table = table_of(&rt, &grammar, &terminals, &[None, rule]);
        let entered = table.entered(rt.alloc()).expect(&rt, "memory");
        same(&rt, "states", last, entered.len(), 8);
        for state in 0..8usize {
            same(
                &rt,
                "a state",
                state,
                entered.get(state),
                Some(state <= last),
            );
        }
    }
}

#[test]
fn rules_that_reduce_at_one_terminal_are_a_conflict(rt: HostRuntime) {
    // LR(1), but not LALR(1): in state 4 both rules end by c and by d.
    let rules = ["Z=S$", "S=aAd", "S=bBd", "S=aBc", "S=bAc", "A=e", "B=e"];
    let grammar = grammar_of(&rt, ("ZSAB", "$abcde"), &rules);
    let table = table_of(&rt, &grammar, &[], &[]);
    check_cells(&rt, &table, 4, 6, ". . . r5r6 r5r6 .");
    let conflicts = table.conflicts(rt.alloc()).expect(&rt, "memory");
    same(&rt, "how many", 0, conflicts.len(), 2);
    for (conflict, terminal) in conflicts.iter().zip([3usize, 4]) {
        same(&rt, "the state", terminal, conflict.state, 4);
        same(&rt, "the terminal", terminal, conflict.terminal, terminal);
    }
}

#[test]
fn each_rule_in_turn_stands_against_the_shift(rt: HostRuntime) {
    // Before x a shift and rules 4, 5 and 6 are possible; x has level 2.
    let rules = ["Z=S$", "S=Ax", "S=Bx", "S=Cx", "A=e", "B=e", "C=e", "S=ex"];
    let grammar = grammar_of(&rt, ("ZSABC", "$ex"), &rules);
    let low = binds(1, Associativity::Left);
    let alike = binds(2, Associativity::Left);
    let high = binds(3, Associativity::Left);
    let nothing = binds(2, Associativity::Neither);
    for (terminal, own, wanted) in [
        (alike, [None, None, None], ". . s6r4r5r6"),
        (alike, [None, low, None], ". . s6r4r6"),
        (alike, [low, low, low], ". . s6"),
        // The first that the shift yields to stays, and so do those behind it.
        (alike, [low, high, low], ". . r5r6"),
        (alike, [None, alike, low], ". . r4r5r6"),
        // Nothing is done where neither may be done.
        (nothing, [None, nothing, None], ". . ."),
        (nothing, [low, high, nothing], ". . r5r6"),
    ] {
        let [first, second, third] = own;
        let table = table_of(
            &rt,
            &grammar,
            &[None, None, terminal],
            &[None, None, None, None, first, second, third],
        );
        check_cells(&rt, &table, 1, 3, wanted);
    }
}

//! The table of a parser, from the text of a grammar as yacc and bison read it. The table is six arrays of
//! numbers. Terminals have the numbers from 0 on as symbols: 0 is the end, and the others follow in the order
//! of their declarations, `error` first. Nonterminals come after them. The entries of state i stand from
//! `offsets[i]` to below `offsets[i + 1]`: at symbol `symbols[k]` a parser does `actions[k]`. That is 4 times a
//! number, and 0, 1 or 2. By 0 it enters the state with the number. By 1 it reduces by the rule with the
//! number. By 2 it enters the state as by 0, unless all tokens are read: then it accepts. Rule i has `left[i]`
//! on its left side, and `lengths[i]` symbols on its right side. `right` has the symbols of all right sides, rule
//! by rule.
ghost use Rattle.std.specs.Prelude.{◌≡◌, ◌≢◌, ◌↔◌, ◌⊎◌, ◌+◌, length, IfOk, OnOk};
ghost use Rattle.vob_lr.specs.Tables.{TableView};
ghost use Rattle.vob_arrays.specs.Arrays.{IsTableOf, owned_view, right_symbols};
ghost use Rattle.vob_arrays.specs.Views.{TableArrays};
ghost use Rattle.vob_c.specs.Tables.{AreNamed, HasSizes, IsMostFor, table_arrays};

use crate::status::{LENGTH, MEMORY, OK, TEXT};
use std::alloc::{AllocError, Global};
use vob_arrays::{OwnedArrays, arrays_of};
use vob_lr::{Lookaheads, Table};
use vob_yacc::{GrammarText, TextError, TextFault, grammar_of};

/// How many sizes a table has.
const SIZES: usize = 9;

/// Returns the table of a grammar. Fails if memory runs out.
fn table_of_text(alloc: Global, text: &GrammarText) -> Result<Table<'_>, AllocError> {
    // Rules that were read name symbols that are there.
    let Ok(lookaheads) = Lookaheads::new(alloc, &text.grammar) else {
        return Err(AllocError);
    };
    Table::new(alloc, lookaheads, &text.precedences, &text.rule_precedences)
}

/// Returns the status of a text that wasn't read.
fn status_of_error(error: &TextError) -> u8
    ensures { (result ≡ 3) ⊎ (result ≡ 5) }
{
    match error.fault {
        TextFault::Memory => MEMORY,
        _ => TEXT,
    }
}

/// Returns how many bytes some names have.
fn byte_count(names: &[Vec<u8>]) -> usize {
    let mut count: usize = 0;
    for name in names {
        count = count.saturating_add(name.len());
    }
    count
}

/// Returns how many reductions suffice for no token, and how many more for one.
fn bound_of(table: &Table<'_>) -> (usize, usize)
    ensures none { IsMostFor table.now 0 result.0 }
    ensures one { IsMostFor table.now 1 (result.0 + result.1) }
{
    let base = table.most_reductions(0);
    let one = table.most_reductions(1);
    (base, one.saturating_sub(base))
}

/// Writes the sizes of a table.
fn write_sizes(text: &GrammarText, table: &Table<'_>, arrays: &OwnedArrays, sizes: &mut [usize])
    requires long { length sizes.old ≡ 9 }
    requires right { arrays.now.right.items ≡ right_symbols table.now }
    ensures { HasSizes table.now (owned_view arrays.now) sizes.new }
{
    let bytes = byte_count(&text.terminals).saturating_add(byte_count(&text.nonterminals));
    let (base, each) = bound_of(table);
    sizes[0] = arrays.terminals;
    sizes[1] = table.lookaheads().items().grammar().nonterminals;
    sizes[2] = arrays.offsets.len().saturating_sub(1);
    sizes[3] = arrays.symbols.len();
    sizes[4] = arrays.left.len();
    sizes[5] = arrays.right.len();
    sizes[6] = bytes;
    sizes[7] = base;
    sizes[8] = each;
}

/// Reads the text of a grammar, and writes nine sizes of its table. Six are how many terminals, nonterminals,
/// states, entries, rules and symbols of all right sides there are. The seventh is how many bytes the names of
/// its symbols have. The last two, `base` and `each`, say how many reductions suffice: base + each * n for each
/// sentence of n tokens. This is proved for none and for one token, and tested for more. If base + each is
/// `SIZE_MAX`, no number is known to suffice. If the status is `CONTHIRAL_TEXT`, writes where the text is faulty,
/// counted from 1: the line, and the byte within it.
#[unsafe(no_mangle)]
pub extern "C" fn conthiral_table_sizes(
    alloc: Global,
    text: &[u8],
    sizes: &mut [usize],
    line: &mut usize,
    column: &mut usize,
) -> u8
    ensures status { (result ≡ 0) ⊎ ((result ≡ 1) ⊎ ((result ≡ 3) ⊎ (result ≡ 5))) }
    ensures length { (result ≡ 1) ↔ (length sizes.old ≢ 9) }
    ensures sizes { result ≡ 0 → (table : TableView) × (arrays : TableArrays)
        × IsTableOf table arrays × HasSizes table arrays sizes.new }
    ensures refused { result ≢ 0 → sizes.new ≡ sizes.old }
    ensures place { result ≢ 5 → (line.new ≡ line.old) × (column.new ≡ column.old) }
{
    if sizes.len() != SIZES {
        return LENGTH;
    }
    let grammar = match grammar_of(alloc, text) {
        Ok(grammar) => grammar,
        Err(error) => {
            let status = status_of_error(&error);
            if status == TEXT {
                *line = error.line;
                *column = error.column;
            }
            return status;
        }
    };
    let Ok(table) = table_of_text(alloc, &grammar) else {
        return MEMORY;
    };
    let Ok(arrays) = arrays_of(alloc, &table) else {
        return MEMORY;
    };
    write_sizes(&grammar, &table, &arrays, sizes);
    OK
}

/// Writes the arrays of a table from the text of its grammar, and into `terminals` how many terminals it has.
/// Each array must be as long as `conthiral_table_sizes` says: `offsets` has one number more than there are
/// states. Where a table leaves a choice, a parser shifts, or else reduces by the lowest rule, as that of
/// yacc does.
#[unsafe(no_mangle)]
pub extern "C" fn conthiral_table(
    alloc: Global,
    text: &[u8],
    offsets: &mut [usize],
    symbols: &mut [usize],
    actions: &mut [usize],
    left: &mut [usize],
    lengths: &mut [usize],
    right: &mut [usize],
    terminals: &mut usize,
) -> u8
    ensures status { (result ≡ 0) ⊎ ((result ≡ 1) ⊎ ((result ≡ 3) ⊎ (result ≡ 5))) }
    ensures table { result ≡ 0 → (table : TableView) × IsTableOf table (table_arrays terminals.new
        offsets.new symbols.new actions.new left.new lengths.new)
        × (right.new ≡ right_symbols table) }
    ensures refused { result ≢ 0 → (offsets.new ≡ offsets.old) × (symbols.new ≡ symbols.old)
        × (actions.new ≡ actions.old) × (left.new ≡ left.old) × (lengths.new ≡ lengths.old)
        × (right.new ≡ right.old) × (terminals.new ≡ terminals.old) }
{
    let grammar = match grammar_of(alloc, text) {
        Ok(grammar) => grammar,
        Err(error) => return status_of_error(&error),
    };
    let Ok(table) = table_of_text(alloc, &grammar) else {
        return MEMORY;
    };
    let Ok(arrays) = arrays_of(alloc, &table) else {
        return MEMORY;
    };
    if offsets.len() != arrays.offsets.len() || symbols.len() != arrays.symbols.len() {
        return LENGTH;
    }
    if actions.len() != arrays.actions.len() || right.len() != arrays.right.len() {
        return LENGTH;
    }
    if left.len() != arrays.left.len() || lengths.len() != arrays.lengths.len() {
        return LENGTH;
    }
    offsets.copy_from_slice(&arrays.offsets);
    symbols.copy_from_slice(&arrays.symbols);
    actions.copy_from_slice(&arrays.actions);
    left.copy_from_slice(&arrays.left);
    lengths.copy_from_slice(&arrays.lengths);
    right.copy_from_slice(&arrays.right);
    *terminals = arrays.terminals;
    OK
}

/// Appends names, and after each how many bytes there are.
fn push_names(
    names: &[Vec<u8>],
    offsets: &mut Vec<usize>,
    bytes: &mut Vec<u8>,
) -> Result<(), AllocError>
    requires { AreNamed offsets.old.items bytes.old.items }
    ensures { OnOk result (AreNamed offsets.new.items bytes.new.items) }
{
    for name in names {
        bytes.extend_from_slice(name)?;
        offsets.push(bytes.len())?;
    }
    Ok(())
}

/// Returns where the names of symbols begin, and the names.
fn names_of(alloc: Global, text: &GrammarText) -> Result<(Vec<usize>, Vec<u8>), AllocError>
    ensures { IfOk result (λ made. AreNamed made.0.items made.1.items) }
{
    let mut offsets = Vec::new(alloc);
    let mut bytes = Vec::new(alloc);
    offsets.push(0)?;
    push_names(&text.terminals, &mut offsets, &mut bytes)?;
    push_names(&text.nonterminals, &mut offsets, &mut bytes)?;
    Ok((offsets, bytes))
}

/// Writes the names of all symbols of a table into `names`, and where they begin into `offsets`: the name of
/// symbol i stands from `offsets[i]` to below `offsets[i + 1]`. That of a terminal is its text in quotes if it has
/// one. `names` is as long as `conthiral_table_sizes` says, and `offsets` has one number more than there are
/// symbols.
#[unsafe(no_mangle)]
pub extern "C" fn conthiral_table_names(
    alloc: Global,
    text: &[u8],
    offsets: &mut [usize],
    names: &mut [u8],
) -> u8
    ensures status { (result ≡ 0) ⊎ ((result ≡ 1) ⊎ ((result ≡ 3) ⊎ (result ≡ 5))) }
    ensures names { result ≡ 0 → AreNamed offsets.new names.new }
    ensures refused { result ≢ 0 → (offsets.new ≡ offsets.old) × (names.new ≡ names.old) }
{
    let grammar = match grammar_of(alloc, text) {
        Ok(grammar) => grammar,
        Err(error) => return status_of_error(&error),
    };
    let Ok((starts, bytes)) = names_of(alloc, &grammar) else {
        return MEMORY;
    };
    if offsets.len() != starts.len() || names.len() != bytes.len() {
        return LENGTH;
    }
    offsets.copy_from_slice(&starts);
    names.copy_from_slice(&bytes);
    OK
}

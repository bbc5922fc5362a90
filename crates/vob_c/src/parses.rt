//! A parser by the arrays of a table.
ghost use Rattle.std.specs.Prelude.{◌≡◌, ◌≢◌, ◌⊎◌, ℕ, ◌≤◌, List, length};
ghost use Rattle.vob_lr.specs.Stops.{AcceptsBy, IsTooLong, IsUnexpected};
ghost use Rattle.vob_lr.specs.Tables.{TableView};
ghost use Rattle.vob_arrays.specs.Arrays.{IsTableOf};
ghost use Rattle.vob_c.specs.Tables.{BeginsWithAll, table_arrays};

use crate::status::{LENGTH, MEMORY, OK, RANGE, TOKEN};
use std::alloc::Global;
use vob_arrays::{Arrays, ArraysError};
use vob_lr::ParseError;

/// Writes numbers over the first of others, and returns how many.
fn write_first(numbers: &[usize], out: &mut [usize]) -> usize
    requires { length numbers.now ≤ length out.old }
    ensures { BeginsWithAll numbers.now out.old out.new result }
{
    let count = numbers.len();
    out[..count].copy_from_slice(numbers);
    count
}

/// Parses tokens by the arrays of a table of so many terminals. A token is the number of a terminal; the end
/// isn't among them. Writes into `reductions` the rules by which the parser reduces, in their order, and into
/// `count` how many they are: read backwards, they are a rightmost derivation of the tokens. If the status is
/// `CONTHIRAL_TOKEN`, writes into `at` the index of the first token that no action takes, or how many tokens
/// there are if that is the end. The status is `CONTHIRAL_LENGTH` if there are more reductions than there is room
/// for. Each array is tested as it is read: of arrays that are no table nothing is said, but that the call
/// returns.
#[unsafe(no_mangle)]
pub extern "C" fn conthiral_parse(
    alloc: Global,
    terminals: usize,
    offsets: &[usize],
    symbols: &[usize],
    actions: &[usize],
    left: &[usize],
    lengths: &[usize],
    tokens: &[usize],
    reductions: &mut [usize],
    count: &mut usize,
    at: &mut usize,
) -> u8
    ensures status { (result ≡ 0) ⊎ ((result ≡ 1) ⊎ ((result ≡ 2) ⊎ ((result ≡ 3)
        ⊎ (result ≡ 6)))) }

    // Of arrays that are no table only the status is said.
    ensures accepted { result ≡ 0 → (rules : List ℕ)
        × BeginsWithAll rules reductions.old reductions.new count.new × ((table : TableView)
        → IsTableOf table (table_arrays terminals offsets.now symbols.now actions.now left.now
        lengths.now) → AcceptsBy table tokens.now rules) }
    ensures unexpected { result ≡ 6 → (table : TableView)
        → IsTableOf table (table_arrays terminals offsets.now symbols.now actions.now left.now
        lengths.now) → IsUnexpected table tokens.now at.new }
    ensures too_long { result ≡ 1 → (table : TableView)
        → IsTableOf table (table_arrays terminals offsets.now symbols.now actions.now left.now
        lengths.now) → IsTooLong table tokens.now (length reductions.old) }
    ensures no_table { result ≡ 2 → (table : TableView)
        → ¬ IsTableOf table (table_arrays terminals offsets.now symbols.now actions.now left.now
        lengths.now) }
    ensures refused { result ≢ 0 → (reductions.new ≡ reductions.old) × (count.new ≡ count.old) }
    ensures place { result ≢ 6 → at.new ≡ at.old }
{
    let arrays = Arrays::new(terminals, offsets, symbols, actions, left, lengths);
    match arrays.parse(alloc, tokens, reductions.len()) {
        Ok(rules) => {
            *count = write_first(&rules, reductions);
            OK
        }
        Err(ArraysError::NoTable) => RANGE,
        Err(ArraysError::Parse(ParseError::Memory)) => MEMORY,
        Err(ArraysError::Parse(ParseError::TooLong)) => LENGTH,
        Err(ArraysError::Parse(ParseError::Unexpected { at: index })) => {
            *at = index;
            TOKEN
        }
    }
}

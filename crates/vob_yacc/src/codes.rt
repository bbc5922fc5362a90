//! The numbers by which a scanner calls terminals.

use crate::text_error::Stop;
use std::alloc::Global;

/// The number of `error`, if no other terminal has it.
const ERROR: usize = 256;

/// Returns the number of each terminal by those that the file gives, if it does. `error` has 256 if it is
/// free. The others follow the greatest number, in the order of the terminals. Tokens that no terminal is
/// have a number too, as if they came after `error`, which is terminal `error`.
pub(crate) fn codes_of(
    alloc: Global,
    declared: &[Option<usize>],
    error: usize,
) -> Result<Vec<usize>, Stop> {
    let is_free = !declared.contains(&Some(ERROR));
    let mut greatest = declared
        .iter()
        .copied()
        .flatten()
        .max()
        .unwrap_or(0)
        .max(ERROR);
    let mut codes = Vec::new(alloc);
    for (place, own) in declared.iter().enumerate() {
        let code = match own {
            Some(code) => *code,
            None if place == 0 => 0,
            None if place == error && is_free => ERROR,
            None => {
                greatest = greatest.saturating_add(1);
                greatest
            }
        };
        codes.push(code)?;
        if place == error {
            greatest = greatest.saturating_add(1);
        }
    }
    Ok(codes)
}

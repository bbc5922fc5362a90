//! Names of constants for symbols.

use indexmap::IndexMap;
use std::alloc::{AllocError, Global};

/// Returns whether a name has only letters, digits and `_`.
fn is_word(name: &[u8]) -> bool {
    let is_right = name
        .iter()
        .all(|byte| byte.is_ascii_alphanumeric() || *byte == b'_');
    is_right && !name.is_empty()
}

/// Returns a name in upper case.
fn upper(alloc: Global, name: &[u8]) -> Result<Vec<u8>, AllocError> {
    name.iter()
        .map(|byte| byte.to_ascii_uppercase())
        .collect(alloc)
}

/// Returns for each name what a constant for it is called: the name in upper case, or as it is if another
/// one has the same upper case. So no two are the same. One that has more than letters, digits and `_`
/// has no constant: it is called by no byte.
pub fn constants_of(alloc: Global, names: &[Vec<u8>]) -> Result<Vec<Vec<u8>>, AllocError> {
    let mut is_shared = IndexMap::new(alloc);
    for name in names.iter() {
        let upper = upper(alloc, name)?;
        let was_there = is_shared.contains_key(upper.as_slice());
        is_shared.insert(upper, was_there)?;
    }
    let mut constants = Vec::with_capacity(alloc, names.len())?;
    for name in names.iter() {
        let upper = upper(alloc, name)?;
        let keeps_case = is_shared.get(upper.as_slice()) == Some(&true);
        constants.push(match is_word(name) {
            true if keeps_case => name.to_vec(alloc)?,
            true => upper,
            false => Vec::new(alloc),
        })?;
    }
    Ok(constants)
}

//! Which places are let through of what sets draw.

use vob_rows::BitRows;

/// Which places each set lets through of the sets that it draws from.
#[derive(Clone, Copy)]
pub enum Masks<'a> {
    /// All places.
    All,
    /// The places of the row with the set's number.
    Keep(&'a BitRows),
    /// The places that the row with the set's number doesn't have.
    Without(&'a BitRows),
}

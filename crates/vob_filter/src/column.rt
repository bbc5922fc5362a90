//! A column of truth values that may be missing, and SQL's logic of three values on it.
ghost use Rattle.std.specs.Prelude.{◌≡◌, ◌↔◌, ℕ, ◌<◌, [], None, Some, IsTrue, true, length, slice_set, IfOk, IsOk};
ghost use Rattle.vob_block.specs.Packing.{item};
ghost use Rattle.vob_filter.specs.Columns.{AreValuesChanged, AreColumn, AreValuesCombined, sql_and, sql_not, sql_or, value_at, values_of};

use std::alloc::{AllocError, Global};
use std::marker::Model;
use vob::Vob;

/// Values that are true, false or missing, in two Vobs: which are present, and which are true.
/// Contracts see a list of options.
#[derive(Drop)]
pub struct Column {
    present: Vob,
    value: Vob,
}

impl Model for Column {
    ghost use Rattle.std.specs.Prelude.{Bool, List, Option};
    ghost use Rattle.vob_filter.specs.Columns.{AreColumn, values_of};

    ghost Value = { List (Option Bool) };

    ghost view = { λ column. values_of column.present.bits column.value.bits };

    ghost invariant = { λ column. AreColumn column.present.bits column.value.bits };
}

/// Makes the column of values that are true or false where `present` says so.
pub(crate) fn column_of(present: Vob, value: Vob) -> Column
    requires { AreColumn present.bits value.bits }
    ensures { result ≡ values_of present.bits value.bits }
{
    Column { present, value }
}

impl Column {
    /// Makes the column of values that are true or false, as `value` says, if `present` says so, and
    /// missing if not. The lengths must be equal. Takes no memory.
    pub fn from_bits(present: Vob, mut value: Vob) -> Column
        requires { length present.bits ≡ length value.bits }
        ensures { result ≡ values_of present.bits value.bits }
    {
        value.and(&present);
        column_of(present, value)
    }

    /// Makes a column of `len` missing values.
    pub fn missing(alloc: Global, len: usize) -> Result<Column, AllocError>
        ensures len { IfOk result (λ column. length column ≡ len) }
        ensures missing { IfOk result (λ column. (i : ℕ) → value_at column i ≡ None) }
        ensures nothing { len ≡ 0 → IsOk result }
    {
        let present = Vob::from_elem(alloc, false, len)?;
        let value = Vob::from_elem(alloc, false, len)?;
        Ok(Column { present, value })
    }

    /// Makes a column with the same values.
    pub fn clone(&self) -> Result<Column, AllocError>
        ensures { IfOk result (λ column. column ≡ self.now) }
    {
        let present = self.present.clone()?;
        let value = self.value.clone()?;
        Ok(Column { present, value })
    }

    /// Returns the number of values.
    pub fn len(&self) -> usize
        ensures { result ≡ length self.now }
    {
        self.present.len()
    }

    /// Returns value `index`, which must be below the length, or `None` if it is missing.
    pub fn get(&self, index: usize) -> Option<bool>
        requires { index < length self.now }
        ensures { result ≡ value_at self.now index }
    {
        if self.present.get_unchecked(index) {
            Some(self.value.get_unchecked(index))
        } else {
            None
        }
    }

    /// Sets value `index`, which must be below the length. `None` makes it missing.
    pub fn set(&mut self, index: usize, value: Option<bool>)
        requires { index < length self.old }
        ensures { self.new ≡ slice_set self.old index value }
    {
        self.present.set(index, value.is_some());
        self.value.set(index, value.unwrap_or(false));
    }

    /// Negates each value that isn't missing. Takes no memory.
    pub fn not(&mut self)
        ensures { AreValuesChanged sql_not self.old self.new }
    {
        self.value.xor(&self.present);
    }

    /// Makes each value false if it or the other is, else missing if one is, else true. The lengths
    /// must be equal. Takes no memory.
    pub fn and(&mut self, other: &Column)
        requires { length self.old ≡ length other.now }
        ensures { AreValuesCombined sql_and self.old other.now self.new }
    {
        // Present is what was false, what is true in both, and what is false in the other.
        self.present.xor(&self.value);
        self.value.and(&other.value);
        self.present.or(&self.value);
        self.present.or_and_not(&other.present, &other.value);
    }

    /// Makes each value true if it or the other is, else missing if one is, else false. The lengths
    /// must be equal. Takes no memory.
    pub fn or(&mut self, other: &Column)
        requires { length self.old ≡ length other.now }
        ensures { AreValuesCombined sql_or self.old other.now self.new }
    {
        self.present.and(&other.present);
        self.value.or(&other.value);
        self.present.or(&self.value);
    }

    /// Returns the rows whose value is true: neither false nor missing.
    pub fn into_true(self) -> Vob
        ensures len { length result.bits ≡ length self }
        ensures each { (i : ℕ) → IsTrue (item result.bits i) ↔ (value_at self i ≡ Some true) }
    {
        self.value
    }
}

//! Names that are numbered as they first come.
ghost use Rattle.std.specs.Prelude.{◌≡◌, [], Some, length, slice_get, slice_index_or, Contains, IfNone, IfOk, IfSome};
ghost use Rattle.files_text.specs.Names.{IsNumbered};

use indexmap::IndexSet;
use std::alloc::{AllocFailed, Global};
use std::marker::Model;

/// Names, each with its number. Contracts see the list of them.
#[derive(Drop)]
pub struct Names<'a> {
    names: IndexSet<&'a [u8]>,
}

impl<'a> Model for Names<'a> {
    ghost use Rattle.std.specs.Prelude.{ℕ, List, map};

    ghost Value = { List (List ℕ) };

    ghost view = { λ set. map (λ name. name.now) set.names.keys };
}

impl<'a> Names<'a> {
    /// Returns no names.
    pub fn new(alloc: Global) -> Names<'a>
        ensures { result ≡ [] }
    {
        Names {
            names: IndexSet::new(alloc),
        }
    }

    /// Returns how many names there are.
    pub fn len(&self) -> usize
        ensures { result ≡ length self.now }
    {
        self.names.len()
    }

    /// Returns the number of a name, counted from 0, or `None` if it isn't there.
    pub fn find(&self, name: &[u8]) -> Option<usize>
        ensures some { IfSome result (λ number. slice_get self.now number ≡ Some name.now) }
        ensures none { IfNone result (¬ Contains self.now name.now) }
    {
        self.names.get_index_of(name)
    }

    /// Returns the number of a name, counted from 0. A new name is added as the last one. Fails if
    /// memory runs out.
    pub fn number(&mut self, name: &'a [u8]) -> Result<usize, AllocFailed<&'a [u8]>>
        ensures { IfOk result (λ number. IsNumbered self.old name.now number self.new) }
    {
        let (number, _) = self.names.insert_full(name)?;
        Ok(number)
    }

    /// Returns the name with a number, or nothing if there is none.
    pub fn name(&self, number: usize) -> &'a [u8]
        ensures { result.now ≡ slice_index_or self.now number [] }
    {
        match self.names.get_index(number) {
            Some(name) => *name,
            None => b"",
        }
    }
}

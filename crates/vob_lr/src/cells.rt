//! The cells of a state.
ghost use Rattle.std.specs.Prelude.{◌≡◌, ◌↔◌, [], All, IfNone, IfOk, IfSome, IsTrue, None, slice_get, Some};
ghost use Rattle.vob_lr.specs.Kept.{Equals, IsPushed, Keeps};
ghost use Rattle.vob_lr.specs.declared.table.Cell.{Cell as Seen};

use crate::nodes::find;
use crate::table::Cell;
use std::alloc::{AllocError, Global};
use std::marker::Model;

/// Returns whether a cell holds what another does.
fn equals(cell: &Cell, own: &Cell) -> bool
    ensures { IsTrue result ↔ Equals cell.now own.now }
{
    own.shift == cell.shift && own.reduces.as_slice() == cell.reduces.as_slice()
}

/// Returns the place of a cell among others that holds the same, or `None` if none does.
fn find_equal(kept: &[Cell], cell: &Cell) -> Option<usize>
    ensures some { IfSome result (λ place.
        (own : Seen) × (slice_get kept.now place ≡ Some own) × Equals cell.now own) }
    ensures none { IfNone result (All (λ own. ¬ Equals cell.now own) kept.now) }
{
    for place in 0..kept.len() {
        if equals(cell, &kept[place]) {
            return Some(place);
        }
    }
    None
}

/// Keeps a cell if none holds the same, and returns its place.
fn keep(kept: &mut Vec<Cell>, cell: Cell) -> Result<usize, AllocError>
    ensures { IfOk result (λ place. Keeps kept.old.items cell kept.new.items place) }
{
    if let Some(place) = find_equal(kept, &cell) {
        return Ok(place);
    }
    let place = kept.len();
    kept.push(cell)?;
    Ok(place)
}

/// The cells of a state, one for each terminal. Contracts see them all. Only those with an action take
/// memory, and cells that hold the same are kept once.
#[derive(Drop)]
pub(crate) struct CellRow {
    // The terminals of the cells with an action, in rising order, and the places of these cells.
    terminals: Vec<usize>,
    places: Vec<usize>,
    kept: Vec<Cell>,
    // How many cells there are.
    count: usize,
    nothing: Cell,
}

impl Model for CellRow {
    ghost use Rattle.std.specs.Prelude.{List};
    ghost use Rattle.vob_lr.specs.Kept.{AreKept, cells_below};
    ghost use Rattle.vob_lr.specs.declared.table.Cell.{Cell as Seen};

    ghost Value = { List Seen };

    ghost view = { λ r. cells_below r.count r.terminals.items r.places.items r.kept.items r.nothing };

    ghost invariant = { λ r. AreKept r.count r.terminals.items r.places.items r.kept.items r.nothing };
}

impl CellRow {
    /// Makes a row without cells.
    pub fn new(alloc: Global) -> CellRow
        ensures { result ≡ [] }
    {
        CellRow {
            terminals: Vec::new(alloc),
            places: Vec::new(alloc),
            kept: Vec::new(alloc),
            count: 0,
            nothing: Cell {
                shift: None,
                reduces: Vec::new(alloc),
            },
        }
    }

    /// Returns the row with the cell of the next terminal. Fails if memory runs out, or no length
    /// counts the cells.
    pub fn with(self, cell: Cell) -> Result<CellRow, AllocError>
        ensures { IfOk result (IsPushed self cell) }
    {
        let CellRow {
            mut terminals,
            mut places,
            mut kept,
            count,
            nothing,
        } = self;
        let Some(next) = count.checked_add(1) else {
            return Err(AllocError);
        };
        if cell.action().is_none() {
            return Ok(CellRow {
                terminals,
                places,
                kept,
                count: next,
                nothing,
            });
        }
        terminals.push(count)?;
        places.push(keep(&mut kept, cell)?)?;
        Ok(CellRow {
            terminals,
            places,
            kept,
            count: next,
            nothing,
        })
    }

    /// Returns the cell of a terminal, or `None` if there is no such terminal.
    pub fn get(&self, terminal: usize) -> Option<&Cell>
        ensures some { IfSome result (λ cell. slice_get self.now terminal ≡ Some cell.now) }
        ensures none { IfNone result (slice_get self.now terminal ≡ None) }
    {
        if terminal >= self.count {
            return None;
        }
        match find(&self.terminals, terminal) {
            Some(place) => Some(&self.kept[self.places[place]]),
            None => Some(&self.nothing),
        }
    }
}

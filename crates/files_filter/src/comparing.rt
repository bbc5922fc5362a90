//! What a condition asks of each row of a table.
ghost use Rattle.std.specs.Prelude.{◌≡◌, ◌≢◌, ◌⊎◌, ◌++◌, ◌∷◌, [], ℕ, IfErr, IfNone, IfOk, IfSome, List, Option};
ghost use Rattle.csv.specs.Records.{fields_of};
ghost use Rattle.files_filter.specs.Answers.{Answers, AnswersBoth, IsNumeric, IsOrder, IsOrderWith, cell_at};
ghost use Rattle.files_filter.specs.Columns.{IsNoColumn, IsOther, IsTest};
ghost use Rattle.files_filter.specs.Reading.{Cells, Delimited};
ghost use Rattle.files_filter.specs.Refusals.{IsMemory, Refuses};
ghost use Rattle.files_filter.specs.RowFaults.{IsColumnFault, IsOutputFault};

use crate::fault::FilterFault;
use crate::table::Table;
use csv::ByteRecord;
use files_condition::{Comparison, Number, Operand, Question, Relation};
use std::alloc::Global;
use std::cmp::Ordering;
use std::io::Read;

/// What a cell is compared with.
#[derive(Drop)]
pub enum Other<'a> {
    Text(Operand<'a>),
    Number(Number<'a>),
    // The cell in the column at a place.
    Column(usize),
}

/// What is asked of a cell.
#[derive(Drop)]
pub enum Kind<'a> {
    Missing(bool),
    Compared(Relation, Other<'a>),
}

/// What is asked of each row: of its cell in the column at a place.
#[derive(Drop)]
pub struct Test<'a> {
    pub place: usize,
    pub kind: Kind<'a>,
}

/// Returns what a value of a condition is. A quoted one is a text. Another is the column of that
/// name, or else a number if it reads as one, or else a text.
fn other_of<'a, R: Read + Drop>(table: &Table<R>, value: &Operand<'a>) -> Other<'a>
    ensures { IsOther (fields_of table.now.header) value.now value.now.is_quoted result }
{
    if value.is_quoted {
        return Other::Text(*value);
    }
    if let Some(place) = table.place(value.text) {
        return Other::Column(place);
    }
    match Number::of(value.text) {
        Some(number) => Other::Number(number),
        None => Other::Text(*value),
    }
}

/// Returns the cell of a row at a place. One that isn't there is empty.
pub fn cell(row: &ByteRecord, place: usize) -> &[u8]
    ensures { result.now ≡ cell_at (fields_of row.now) place }
{
    row.get(place).unwrap_or_default()
}

/// Returns the order of a text, if it is a number, with another number.
fn order_with(text: &[u8], other: &Number<'_>) -> Option<Ordering>
    ensures some { IfSome result (IsOrderWith text.now other.now) }
    ensures none { IfNone result (¬ IsNumeric text.now) }
{
    Some(Number::of(text)?.order(other))
}

impl<'a> Test<'a> {
    /// Finds the columns of a comparison. Fails if the first is none.
    pub fn new<R: Read + Drop>(
        alloc: Global,
        table: &Table<R>,
        comparison: &Comparison<'a>,
    ) -> Result<Test<'a>, FilterFault>
        ensures ok { IfOk result (IsTest (fields_of table.now.header) comparison.now) }
        ensures err { IfErr result (λ fault. IsOutputFault fault
            ⊎ (IsNoColumn (fields_of table.now.header) comparison.now.column.text.now
            × IsColumnFault fault comparison.now.column.at)) }
    {
        let column = &comparison.column;
        let Some(place) = table.place(column.text) else {
            return Err(table.no_column(alloc, column)?);
        };
        let kind = match &comparison.question {
            Question::Missing(is_missing) => Kind::Missing(*is_missing),
            Question::Compared(relation, value) => {
                Kind::Compared(*relation, other_of(table, value))
            }
        };
        Ok(Test { place, kind })
    }

    /// Returns what the test is in a row, or `None` if it is missing, as a comparison with an empty
    /// cell is. Fails if a cell should be a number and isn't.
    pub fn value<R: Read + Drop>(
        &self,
        alloc: Global,
        table: &Table<R>,
        row: &ByteRecord,
    ) -> Result<Option<bool>, FilterFault>
        ensures ok { IfOk result (λ answer. Answers self.now (fields_of row.now) answer) }
        ensures err { IfErr result (λ fault. IsMemory fault ⊎ ((text : Delimited)
            (rows : List Cells) → Refuses text (fields_of table.now.header)
            (rows ++ fields_of row.now ∷ []) self.now fault)) }
    {
        let first = cell(row, self.place);
        match &self.kind {
            Kind::Missing(true) => Ok(Some(first.is_empty())),
            Kind::Missing(false) => Ok(Some(!first.is_empty())),
            Kind::Compared(_, _) if first.is_empty() => Ok(None),
            Kind::Compared(relation, Other::Text(text)) => {
                Ok(Some(relation.holds(first.cmp(text.text))))
            }
            Kind::Compared(relation, Other::Number(number)) => match order_with(first, number) {
                Some(order) => Ok(Some(relation.holds(order))),
                None => Err(FilterFault::Cell(table.wrong_cell(alloc, row, self.place)?)),
            },
            Kind::Compared(relation, Other::Column(place)) => {
                self.with_column(alloc, table, row, *relation, *place)
            }
        }
    }

    /// Returns whether a relation holds of two cells of a row, or `None` if the second is empty.
    fn with_column<R: Read + Drop>(
        &self,
        alloc: Global,
        table: &Table<R>,
        row: &ByteRecord,
        relation: Relation,
        place: usize,
    ) -> Result<Option<bool>, FilterFault>
        requires kind { self.now.kind ≡ Kind.Compared relation (Other.Column place) }
        requires some { cell_at (fields_of row.now) self.now.place ≢ [] }
        ensures ok { IfOk result (AnswersBoth relation (cell_at (fields_of row.now) self.now.place)
            (cell_at (fields_of row.now) place)) }
        ensures err { IfErr result (λ fault. IsMemory fault ⊎ ((text : Delimited)
            (rows : List Cells) → Refuses text (fields_of table.now.header)
            (rows ++ fields_of row.now ∷ []) self.now fault)) }
    {
        if cell(row, place).is_empty() {
            return Ok(None);
        }
        let order = self.order_of_cells(alloc, table, row, relation, place)?;
        Ok(Some(relation.holds(order)))
    }

    /// Returns the order of two cells of a row: of numbers if both are, else of texts. Fails if one
    /// alone is a number, and it is asked which is less.
    fn order_of_cells<R: Read + Drop>(
        &self,
        alloc: Global,
        table: &Table<R>,
        row: &ByteRecord,
        relation: Relation,
        place: usize,
    ) -> Result<Ordering, FilterFault>
        requires kind { self.now.kind ≡ Kind.Compared relation (Other.Column place) }
        requires first { cell_at (fields_of row.now) self.now.place ≢ [] }
        requires second { cell_at (fields_of row.now) place ≢ [] }
        ensures ok { IfOk result (IsOrder (cell_at (fields_of row.now) self.now.place)
            (cell_at (fields_of row.now) place)) }
        ensures err { IfErr result (λ fault. IsMemory fault ⊎ ((text : Delimited)
            (rows : List Cells) → Refuses text (fields_of table.now.header)
            (rows ++ fields_of row.now ∷ []) self.now fault)) }
    {
        let (first, second) = (cell(row, self.place), cell(row, place));
        match (Number::of(first), Number::of(second)) {
            (Some(first), Some(second)) => Ok(first.order(&second)),
            (None, Some(_)) if relation.is_order() => Err(FilterFault::Cell(table.wrong_cell(
                alloc, row, self.place,
            )?)),
            (Some(_), None) if relation.is_order() => Err(FilterFault::Cell(table.wrong_cell(
                alloc, row, place,
            )?)),
            _ => Ok(first.cmp(second)),
        }
    }
}

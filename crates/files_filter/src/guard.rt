//! Comparisons that can't be meant: of numbers with texts.
ghost use Rattle.std.specs.Prelude.{◌≡◌, ◌⊎◌, ◌++◌, ◌∷◌, [], ℕ, IfErr, IfSome, List, OnOk, Option};
ghost use Rattle.csv.specs.Records.{fields_of};
ghost use Rattle.files_filter.specs.Reading.{AreAllRows, Cells, Delimited};
ghost use Rattle.files_filter.specs.Refusals.{IsMemory, IsMisread, Refuses};
ghost use Rattle.files_filter.specs.Watching.{Watches};

use crate::comparing::{Kind, Other, Test, cell};
use crate::fault::{FilterFault, WrongCell};
use crate::table::Table;
use csv::ByteRecord;
use files_condition::Number;
use std::alloc::{AllocError, Global};
use std::io::Read;

/// A comparison with a text without quotes, and what the cells of its column are so far. It is
/// refused at the first number if it asks which is less, else if all cells are numbers.
#[derive(Clone, Copy)]
pub struct TextGuard {
    place: usize,
    // The column of the condition where the text begins.
    at: usize,
    is_order: bool,
    have_numbers: bool,
    have_texts: bool,
}

impl TextGuard {
    /// Returns the fault of a text that is compared with numbers.
    fn fault(&self) -> FilterFault
        ensures { IsMisread result self.now.at }
    {
        FilterFault::Condition {
            column: self.at,
            expected: "a number, as the column has numbers, or a text in quotes",
        }
    }

    /// Looks at the next row.
    fn look(&mut self, row: &ByteRecord) -> Result<(), FilterFault>
        ensures ok { OnOk result ((header : Cells) (rows : List Cells) (test : Test) →
            Watches header rows test (Guard.Text self.old) →
            Watches header (rows ++ fields_of row.now ∷ []) test (Guard.Text self.new)) }
        ensures err { IfErr result (λ fault. (text : Delimited) (header : Cells)
            (rows : List Cells) (test : Test) → Watches header rows test (Guard.Text self.old) →
            Refuses text header (rows ++ fields_of row.now ∷ []) test fault) }
    {
        let cell = cell(row, self.place);
        if cell.is_empty() {
            return Ok(());
        }
        if Number::of(cell).is_none() {
            self.have_texts = true;
            return Ok(());
        }
        if self.is_order {
            return Err(self.fault());
        }
        self.have_numbers = true;
        Ok(())
    }

    /// Fails at the end of a table if all cells that were compared are numbers.
    fn finish(&self) -> Result<(), FilterFault>
        ensures { IfErr result (λ fault. (text : Delimited) (header : Cells)
            (rows : List Cells) (test : Test) → Watches header rows test (Guard.Text self.now) →
            AreAllRows text (header ∷ rows) → Refuses text header rows test fault) }
    {
        if !self.have_numbers {
            return Ok(());
        }
        if self.have_texts {
            return Ok(());
        }
        Err(self.fault())
    }
}

/// A comparison of two columns that asks which is less, and what it compared so far. It is refused
/// at the first text if it compares numbers too.
#[derive(Drop)]
pub struct ColumnsGuard {
    place: usize,
    other: usize,
    have_numbers: bool,
    // The first cell that is a text.
    text: Option<WrongCell>,
}

impl ColumnsGuard {
    /// Sees what the next row compares, the last one that was read.
    fn see<R: Read + Drop>(
        &mut self,
        alloc: Global,
        table: &Table<R>,
        row: &ByteRecord,
    ) -> Result<(), AllocError>
        ensures { OnOk result ((rows : List Cells) (test : Test) →
            Watches (fields_of table.now.header) rows test (Guard.Columns self.old) →
            Watches (fields_of table.now.header) (rows ++ fields_of row.now ∷ []) test
            (Guard.Columns self.new)) }
    {
        let first = cell(row, self.place);
        if first.is_empty() {
            return Ok(());
        }
        if cell(row, self.other).is_empty() {
            return Ok(());
        }
        if Number::of(first).is_some() {
            self.have_numbers = true;
            return Ok(());
        }
        if self.text.is_some() {
            return Ok(());
        }
        self.text = Some(table.wrong_cell(alloc, row, self.place)?);
        Ok(())
    }

    /// Fails at the first text if numbers are compared too.
    fn judge(&mut self) -> Result<(), FilterFault>
        ensures ok { OnOk result ((header : Cells) (rows : List Cells) (test : Test) →
            Watches header rows test (Guard.Columns self.old) →
            Watches header rows test (Guard.Columns self.new)) }
        ensures err { IfErr result (λ fault. (text : Delimited) (header : Cells)
            (rows : List Cells) (test : Test) → Watches header rows test (Guard.Columns self.old) →
            Refuses text header rows test fault) }
    {
        if !self.have_numbers {
            return Ok(());
        }
        match self.text.take() {
            Some(cell) => Err(FilterFault::Cell(cell)),
            None => Ok(()),
        }
    }

    /// Looks at the next row, the last one that was read.
    fn look<R: Read + Drop>(
        &mut self,
        alloc: Global,
        table: &Table<R>,
        row: &ByteRecord,
    ) -> Result<(), FilterFault>
        ensures ok { OnOk result ((rows : List Cells) (test : Test) →
            Watches (fields_of table.now.header) rows test (Guard.Columns self.old) →
            Watches (fields_of table.now.header) (rows ++ fields_of row.now ∷ []) test
            (Guard.Columns self.new)) }
        ensures err { IfErr result (λ fault. IsMemory fault ⊎ ((text : Delimited)
            (rows : List Cells) (test : Test) →
            Watches (fields_of table.now.header) rows test (Guard.Columns self.old) →
            Refuses text (fields_of table.now.header) (rows ++ fields_of row.now ∷ []) test
            fault)) }
    {
        self.see(alloc, table, row)?;
        self.judge()
    }
}

/// What keeps a comparison from being one of numbers with texts.
#[derive(Drop)]
pub enum Guard {
    Text(TextGuard),
    Columns(ColumnsGuard),
}

impl Guard {
    /// Makes the guard of a comparison, if it needs one.
    pub fn new(test: &Test<'_>) -> Option<Guard>
        ensures { IfSome result (λ guard. (header : Cells) → Watches header [] test.now guard) }
    {
        match &test.kind {
            Kind::Compared(relation, Other::Text(text)) if !text.is_quoted => {
                Some(Guard::Text(TextGuard {
                    place: test.place,
                    at: text.at,
                    is_order: relation.is_order(),
                    have_numbers: false,
                    have_texts: false,
                }))
            }
            Kind::Compared(relation, Other::Column(other)) if relation.is_order() => {
                Some(Guard::Columns(ColumnsGuard {
                    place: test.place,
                    other: *other,
                    have_numbers: false,
                    text: None,
                }))
            }
            _ => None,
        }
    }

    /// Looks at the next row, the last one that was read. Fails if numbers are compared with texts.
    pub fn look<R: Read + Drop>(
        &mut self,
        alloc: Global,
        table: &Table<R>,
        row: &ByteRecord,
    ) -> Result<(), FilterFault>
        ensures ok { OnOk result ((rows : List Cells) (test : Test) →
            Watches (fields_of table.now.header) rows test self.old →
            Watches (fields_of table.now.header) (rows ++ fields_of row.now ∷ []) test self.new) }
        ensures err { IfErr result (λ fault. IsMemory fault ⊎ ((text : Delimited)
            (rows : List Cells) (test : Test) →
            Watches (fields_of table.now.header) rows test self.old →
            Refuses text (fields_of table.now.header) (rows ++ fields_of row.now ∷ []) test
            fault)) }
    {
        match self {
            Guard::Text(guard) => guard.look(row),
            Guard::Columns(guard) => guard.look(alloc, table, row),
        }
    }

    /// Fails at the end of a table if all cells that were compared with a text are numbers.
    pub fn finish(&self) -> Result<(), FilterFault>
        ensures { IfErr result (λ fault. (text : Delimited) (header : Cells)
            (rows : List Cells) (test : Test) → Watches header rows test self.now →
            AreAllRows text (header ∷ rows) → Refuses text header rows test fault) }
    {
        match self {
            Guard::Text(guard) => guard.finish(),
            Guard::Columns(_) => Ok(()),
        }
    }
}

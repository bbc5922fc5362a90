//! Some rows of a table, with what each comparison of a condition is in them.
ghost use Rattle.std.specs.Prelude.{◌≡◌, ◌<◌, ◌++◌, ◌∷◌, [], ℕ, All, IfErr, IfOk, IfSome, List, Option, length, map};
ghost use Rattle.csv.specs.Records.{fields_of};
ghost use Rattle.vob_filter.specs.Columns.{row_at, value_at};
ghost use Rattle.vob_filter.specs.Filter.{AreRows};
ghost use Rattle.files_filter.specs.Answers.{AreAnswers};
ghost use Rattle.files_filter.specs.Blocks.{AnswerAll, AsksBlock, AsksRow, HasAsked, answers_at};
ghost use Rattle.files_filter.specs.FilterText.{answered};
ghost use Rattle.files_filter.specs.RowFaults.{IsRowFault};
ghost use Rattle.files_filter.specs.Reading.{Cells, Delimited};

use crate::fault::FilterFault;
use crate::questions::Questions;
use crate::table::Table;
use csv::ByteRecord;
use std::alloc::{AllocError, Global};
use std::io::Read;
use vob_filter::column::Column;

/// How many rows are filtered at once, and how many bytes they have before the last one.
const BLOCK_ROWS: usize = 1024;

const BLOCK_BYTES: usize = 1 << 20;

/// A row, and what each comparison is in it: true, false or missing.
#[derive(Drop)]
pub struct Row {
    pub cells: ByteRecord,
    pub answers: Vec<Option<bool>>,
}

impl Row {
    /// Returns a spare row, or a new one.
    fn from_spare(alloc: Global, spare: Option<Row>) -> Row {
        match spare {
            Some(row) => row,
            None => Row {
                cells: ByteRecord::new(alloc),
                answers: Vec::new(alloc),
            },
        }
    }

    /// Returns what a comparison is in the row.
    fn answer(&self, comparison: usize) -> Option<bool>
        ensures { result ≡ value_at self.now.answers.items comparison }
    {
        match self.answers.get(comparison) {
            Some(answer) => *answer,
            None => None,
        }
    }
}

/// What comes after the rows of a block.
#[derive(Drop)]
pub enum Next {
    Rows,
    End,
    Fault(FilterFault),
}

/// Some rows of a table, and what comes after them.
#[derive(Drop)]
pub struct Block {
    pub rows: Vec<Row>,
    pub next: Next,
}

/// Reads the next row, if there is one, and asks of it. A spare row is made anew.
fn next_row<R: Read + Drop>(
    alloc: Global,
    table: &mut Table<R>,
    questions: &mut Questions<'_>,
    spare: Option<Row>,
) -> Result<Option<Row>, FilterFault>
    ensures tests { questions.new.tests ≡ questions.old.tests }
    ensures answers { IfOk result (λ next. IfSome next (λ row.
        AreAnswers questions.old.tests.items (fields_of row.cells) row.answers.items)) }
    ensures row { IfOk result (λ next. (text : Delimited) (rows : List Cells) →
        HasAsked R.remaining text rows table.old questions.old →
        AsksRow R.remaining text rows table.new questions.new next) }
    ensures err { IfErr result (λ fault. (text : Delimited) (rows : List Cells) →
        HasAsked R.remaining text rows table.old questions.old →
        IsRowFault text rows questions.old.tests.items fault) }
{
    let mut row = Row::from_spare(alloc, spare);
    if !table.next(&mut row.cells)? {
        questions.finish()?;
        return Ok(None);
    }
    questions.answer(alloc, table, &row.cells, &mut row.answers)?;
    Ok(Some(row))
}

/// Reads the next rows, and asks of them. Makes them of spare ones, as long as there are some.
pub fn read_block<R: Read + Drop>(
    alloc: Global,
    table: &mut Table<R>,
    questions: &mut Questions<'_>,
    spare: &mut Vec<Row>,
) -> Result<Block, AllocError>
    ensures tests { questions.new.tests ≡ questions.old.tests }
    ensures answers { IfOk result (λ block.
        AnswerAll questions.old.tests.items (map answered block.rows.items)) }
    ensures rows { IfOk result (λ block. (text : Delimited) (rows : List Cells) →
        HasAsked R.remaining text rows table.old questions.old →
        AsksBlock R.remaining text rows table.new questions.new block) }
{
    let mut rows = Vec::new(alloc);
    let mut bytes: usize = 0;
    for _ in 0..BLOCK_ROWS {
        if bytes >= BLOCK_BYTES {
            break;
        }
        match next_row(alloc, table, questions, spare.pop()) {
            Ok(Some(row)) => {
                bytes = bytes.saturating_add(row.cells.as_slice().len());
                rows.push(row)?;
            }
            Ok(None) => {
                let next = Next::End;
                return Ok(Block { rows, next });
            }
            Err(fault) => {
                let next = Next::Fault(fault);
                return Ok(Block { rows, next });
            }
        }
    }
    let next = Next::Rows;
    Ok(Block { rows, next })
}

/// Makes the column of what a comparison is in each row.
fn column_of(alloc: Global, rows: &[Row], comparison: usize) -> Result<Column, AllocError>
    ensures len { IfOk result (λ column. length column ≡ length rows.now) }
    ensures each { IfOk result (λ column. (i : ℕ) → i < length rows.now →
        value_at column i ≡ value_at (answers_at rows.now i) comparison) }
{
    let mut column = Column::missing(alloc, rows.len())?;
    for (number, row) in rows.iter().enumerate() {
        column.set(number, row.answer(comparison));
    }
    Ok(column)
}

/// Makes the columns of what the comparisons are in each row.
pub fn columns_of(
    alloc: Global,
    rows: &[Row],
    comparisons: usize,
) -> Result<Vec<Column>, AllocError>
    requires { All (λ row. length row.answers.items ≡ comparisons) rows.now }
    ensures len { IfOk result (λ columns. AreRows (length rows.now) columns.items) }
    ensures each { IfOk result (λ columns. (i : ℕ) → i < length rows.now →
        row_at columns.items i ≡ answers_at rows.now i) }
{
    let mut columns = Vec::new(alloc);
    for comparison in 0..comparisons {
        columns.push(column_of(alloc, rows, comparison)?)?;
    }
    Ok(columns)
}

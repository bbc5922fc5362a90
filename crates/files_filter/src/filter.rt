//! The rows of a table that a condition is true of.
ghost use Rattle.std.specs.Prelude.{◌≡◌, ◌⊎◌, ◌-◌, ◌<◌, ◌∷◌, ◌^◌, [], ℕ, All, IfErr, IfOk, List, OnOk, Option, length, map, option_map};
ghost use Rattle.std.specs.Io.KnownBytes.{Appends};
ghost use Rattle.std.specs.List.{flat_map};
ghost use Rattle.csv.specs.Records.{fields_of};
ghost use Rattle.csv.specs.Writing.{text_written};
ghost use Rattle.files_filter.specs.FilterFaults.{Fails, FailsBy, WritesShown, WritesWindow};
ghost use Rattle.files_filter.specs.RowFaults.{IsOutputFault};
ghost use Rattle.files_filter.specs.Filtered.{Filters, FiltersBy, IsFiltered, IsShown, count_line, heading, status_of};
ghost use Rattle.files_filter.specs.FilterText.{IsReady, answered, row_line, rows_text, shown, true_rows, windowed};
ghost use Rattle.files_text.specs.Printed.{members};
ghost use Rattle.files_filter.specs.Blocks.{HasAsked};
ghost use Rattle.files_filter.specs.Reading.{Cells, Delimited};
ghost use Rattle.files_filter.specs.Written.{cells_of};

use crate::block::{Block, Next, Row, columns_of, read_block};
use crate::fault::FilterFault;
use crate::layout::{Format, Layout};
use crate::lines::{lines_of, top_line};
use crate::questions::Questions;
use crate::table::Table;
use csv::ByteRecord;
use files_condition::{Condition, read_condition};
use files_text::Fault;
use std::alloc::{AllocError, Global};
use std::io;
use std::io::{Read, Write};
use vob::Vob;
use vob_filter::filter::{Expression, select};
use vob_filter::rows::page;

/// What a filter prints.
#[derive(Clone, Copy, PartialEq, Eq)]
pub enum Shows {
    /// The header and the rows that are kept.
    Rows,
    /// The header and the rows of a page, counted from 1, of those that are kept: at most a number.
    Page { number: usize, rows: usize },
    /// The number of rows that are kept.
    Count,
    /// Nothing: the status says whether a row is kept.
    Nothing,
}

/// Which of the kept rows are shown: those after the first ones, and of these at most a number, or
/// all.
#[derive(Clone, Copy)]
struct Window {
    skip: usize,
    most: Option<usize>,
}

impl Window {
    /// Returns the window of what is to be shown.
    fn of(shows: Shows) -> Window
        ensures { (rows : List Cells) → length rows < 2 ^ 64 →
            windowed result.skip result.most rows ≡ shown shows rows }
    {
        let (skip, most) = match shows {
            Shows::Rows => (0, None),
            Shows::Page { number, rows } => (
                number.saturating_sub(1).saturating_mul(rows),
                Some(rows),
            ),
            Shows::Count | Shows::Nothing => (0, Some(0)),
        };
        Window { skip, most }
    }

    /// Returns the window for the rows after some, of which a number are shown.
    fn after(self, rows: usize, shown: usize) -> Window
        ensures skip { result.skip ≡ self.skip - rows }
        ensures most { result.most ≡ option_map (λ most. most - shown) self.most }
    {
        Window {
            skip: self.skip.saturating_sub(rows),
            most: self.most.map(|most| most.saturating_sub(shown)),
        }
    }
}

/// Writes the header of a table, if rows are to be shown.
fn put_heading<W: Write>(
    alloc: Global,
    layout: &Layout,
    header: &ByteRecord,
    shows: Shows,
    output: &mut W,
) -> Result<(), FilterFault>
    ensures ok { OnOk result (Appends (W.contents output.old) (W.contents output.new)
        (heading layout.now shows (fields_of header.now))) }
    ensures err { IfErr result IsOutputFault }
{
    match shows {
        Shows::Rows | Shows::Page { .. } => {
            output.write_all(&top_line(alloc, layout, header)?)?;
            Ok(())
        }
        Shows::Count | Shows::Nothing => Ok(()),
    }
}

/// Returns the rows of a block of which a condition is true, a bit each.
fn kept_rows(
    alloc: Global,
    rows: &[Row],
    width: usize,
    expression: &Expression,
) -> Result<Vob, AllocError>
    requires { All (λ row. length row.answers.items ≡ width) rows.now }
    ensures len { IfOk result (λ kept. length kept.bits ≡ length rows.now) }
    ensures rows { IfOk result (λ kept. map (cells_of rows.now) (members kept.bits)
        ≡ true_rows expression.now (map answered rows.now)) }
{
    let columns = columns_of(alloc, rows, width)?;
    select(alloc, expression, &columns, rows.len())
}

/// Writes the rows of a block of which a condition is true, as a window shows them. Returns how many
/// it is true of, and how many were written. Each row has `width` answers.
fn put_block<W: Write>(
    alloc: Global,
    rows: &[Row],
    width: usize,
    expression: &Expression,
    window: Window,
    layout: &Layout,
    output: &mut W,
) -> Result<(usize, usize), FilterFault>
    requires { All (λ row. length row.answers.items ≡ width) rows.now }
    ensures kept { IfOk result (λ counts. counts.0
        ≡ length (true_rows expression.now (map answered rows.now))) }
    ensures written { IfOk result (λ counts. counts.1 ≡ length (windowed window.skip window.most
        (true_rows expression.now (map answered rows.now)))) }
    ensures wrote { OnOk result (Appends (W.contents output.old) (W.contents output.new)
        (rows_text layout.now (windowed window.skip window.most
        (true_rows expression.now (map answered rows.now))))) }
    ensures err { IfErr result IsOutputFault }
{
    let kept = kept_rows(alloc, rows, width, expression)?;
    let most = window.most.unwrap_or(kept.len());
    let numbers = page(alloc, &kept, window.skip, most)?;
    output.write_all(&lines_of(alloc, layout, rows, &numbers)?)?;
    Ok((kept.count_ones(), numbers.len()))
}

/// Writes the rows of a table of which a condition is true, as a window shows them. Returns how many
/// it is true of.
fn put_true_rows<R: Read + Drop, W: Write>(
    alloc: Global,
    table: &mut Table<R>,
    questions: &mut Questions<'_>,
    expression: &Expression,
    mut window: Window,
    layout: &Layout,
    output: &mut W,
) -> Result<usize, FilterFault>
    ensures ok { IfOk result (λ count. (text : Delimited) (rows : List Cells) →
        HasAsked R.remaining text rows table.old questions.old →
        IsFiltered text rows questions.old.tests.items expression.now layout.now window.skip window.most
        (W.contents output.old) (W.contents output.new) count) }
    ensures err { IfErr result (λ fault. IsOutputFault fault ⊎ ((text : Delimited)
        (rows : List Cells) → HasAsked R.remaining text rows table.old questions.old →
        WritesWindow text rows questions.old.tests.items expression.now layout.now window.skip
        window.most
        (W.contents output.old) (W.contents output.new) fault)) }
{
    let width = questions.len();
    let mut count: usize = 0;
    let mut spare = Vec::new(alloc);
    for _ in 0..usize::MAX {
        let Block { rows, next } = read_block(alloc, table, questions, &mut spare)?;
        let (kept, written) = put_block(alloc, &rows, width, expression, window, layout, output)?;
        window = window.after(kept, written);
        let Some(sum) = count.checked_add(kept) else {
            return Err(FilterFault::Text(Fault::Memory));
        };
        count = sum;
        spare = rows;
        match next {
            Next::Rows => {}
            Next::End => return Ok(count),
            Next::Fault(fault) => return Err(fault),
        }
    }
    Err(FilterFault::Text(Fault::Memory))
}

/// Writes what is to be shown of a table: its header, if rows are, and the rows of which a condition
/// is true. Returns how many it is true of.
fn put_shown<R: Read + Drop, W: Write>(
    alloc: Global,
    table: &mut Table<R>,
    questions: &mut Questions<'_>,
    expression: &Expression,
    shows: Shows,
    layout: &Layout,
    output: &mut W,
) -> Result<usize, FilterFault>
    ensures ok { IfOk result (λ count. (text : Delimited) →
        HasAsked R.remaining text (fields_of table.old.header ∷ []) table.old questions.old →
        IsShown text (fields_of table.old.header) questions.old.tests.items expression.now layout.now shows
        (W.contents output.old) (W.contents output.new) count) }
    ensures err { IfErr result (λ fault. IsOutputFault fault ⊎ ((text : Delimited) →
        HasAsked R.remaining text (fields_of table.old.header ∷ []) table.old questions.old →
        WritesShown text (fields_of table.old.header) questions.old.tests.items expression.now layout.now shows
        (W.contents output.old) (W.contents output.new) fault)) }
{
    put_heading(alloc, layout, &table.header, shows, output)?;
    let window = Window::of(shows);
    let count = put_true_rows(alloc, table, questions, expression, window, layout, output)?;
    Ok(count)
}

/// Writes how many rows are kept, if that is to be shown. Returns the status.
fn put_count<W: Write>(shows: Shows, count: usize, output: &mut W) -> io::Result<u8>
    ensures status { IfOk result (λ status. status ≡ status_of shows count) }
    ensures wrote { OnOk result (Appends (W.contents output.old) (W.contents output.new)
        (count_line shows count)) }
{
    match shows {
        Shows::Rows | Shows::Page { .. } => Ok(0),
        Shows::Count => {
            writeln!(output, "{count}")?;
            Ok(0)
        }
        Shows::Nothing => Ok(if count == 0 { 1 } else { 0 }),
    }
}

/// Writes what is to be shown of a table by a condition that was read. Returns the status.
fn filter_by<R: Read + Drop, W: Write>(
    alloc: Global,
    input: R,
    format: &Format<'_>,
    condition: &Condition<'_>,
    shows: Shows,
    output: &mut W,
) -> Result<u8, FilterFault>
    ensures ok { IfOk result (Filters (R.remaining input) format.now condition.now.comparisons.items
        condition.now.expression shows (W.contents output.old) (W.contents output.new)) }
    ensures err { IfErr result (λ fault. IsOutputFault fault
        ⊎ Fails (R.remaining input) format.now condition.now.comparisons.items
        condition.now.expression shows (W.contents output.old) (W.contents output.new) fault) }
{
    let mut table = Table::read(alloc, input, format.delimiter)?;
    let mut questions = Questions::new(alloc, &table, condition)?;
    let layout = Layout::new(alloc, &table, format)?;
    let expression = &condition.expression;
    let count = put_shown(
        alloc,
        &mut table,
        &mut questions,
        expression,
        shows,
        &layout,
        output,
    )?;
    Ok(put_count(shows, count, output)?)
}

/// Writes the rows of a table of which a condition is true, or a page of them, as they are read. An
/// empty cell is missing, and so is each comparison with it. Returns the status: 1 if nothing is to
/// be shown and no row is kept, else 0.
///
/// Fails if the condition can't be read or names no column, if no column has a name that is selected,
/// or if the text is no table. Fails at the first cell that should be a number, or if numbers are
/// compared with texts: the rows that are kept before are written then. Fails too if memory runs out,
/// or if the output can't be written.
pub fn print_filter<R: Read + Drop, W: Write>(
    alloc: Global,
    input: R,
    format: &Format<'_>,
    condition: &str,
    shows: Shows,
    output: &mut W,
) -> Result<u8, FilterFault>
    ensures ok { IfOk result (FiltersBy (R.remaining input) format.now condition.now shows
        (W.contents output.old) (W.contents output.new)) }
    ensures err { IfErr result (FailsBy (R.remaining input) format.now condition.now shows
        (W.contents output.old) (W.contents output.new)) }
{
    let condition = read_condition(alloc, condition)?;
    filter_by(alloc, input, format, &condition, shows, output)
}

//! Tables of CSV: a header, and rows of as many cells.
ghost use Rattle.std.specs.Prelude.{◌≡◌, ◌↔◌, ◌⊎◌, ◌+◌, ◌<◌, ◌∷◌, [], IfErr, IfNone, IfOk, IfSome, OnOk, ℕ, List, Option, Some, length, string_bytes};
ghost use Rattle.std.specs.Bool.{IsTrue};
ghost use Rattle.csv.specs.Reading.{error_kind};
ghost use Rattle.csv.specs.Records.{field_at, fields_of};
ghost use Rattle.files_filter.specs.Columns.{AreNames, HoldNames, IsColumn, IsNoColumn, IsRepeated};
ghost use Rattle.files_filter.specs.Answers.{cell_at};
ghost use Rattle.files_filter.specs.Layouts.{IsSelectedName};
ghost use Rattle.files_filter.specs.Refusals.{IsMemory, IsShown};
ghost use Rattle.files_filter.specs.RowFaults.{IsColumnFault, IsHeaderFault, IsLost, IsRepeatedAt, IsTextFault, IsTwiceIn};
ghost use Rattle.files_filter.specs.Reading.{Cells, Delimited, HasRead, ReadsNext, delimited};

use crate::comparing::cell;
use crate::exchanged::Exchanged;
use crate::fault::{FilterFault, WrongCell};
use csv::{ByteRecord, ErrorKind, Position, Reader, ReaderBuilder};
use files_condition::{Operand, is_word};
use files_csv::WholeRows;
use files_text::{Fault, Names};
use std::alloc::{AllocError, Global};
use std::io;
use std::io::Read;

/// How many names of columns, and how many bytes of a cell, a message has at most.
const MOST_NAMES: usize = 10;

const MOST_BYTES: usize = 40;

/// Returns a text as it stands in a condition: in quotes if it needs them. A long one is cut.
fn shown(alloc: Global, text: &[u8]) -> Result<String, AllocError>
    ensures { IfOk result (λ shown. IsShown text.now (string_bytes shown)) }
{
    if text.len() > MOST_BYTES {
        let start = text.get(..MOST_BYTES).unwrap_or_default();
        return format!(in alloc; "{:?} ..", String::from_utf8_lossy(alloc, start)?.as_str());
    }
    let whole = String::from_utf8_lossy(alloc, text)?;
    if is_word(text) {
        return Ok(whole);
    }
    format!(in alloc; "{:?}", whole.as_str())
}

/// Returns the names of the first columns, with commas between.
fn names_shown(alloc: Global, header: &ByteRecord) -> Result<String, AllocError> {
    let mut names = String::new(alloc);
    for place in 0..header.len().min(MOST_NAMES) {
        if place > 0 {
            names.push_str(", ")?;
        }
        let name = shown(alloc, header.get(place).unwrap_or_default())?;
        names.push_str(name.as_str())?;
    }
    if header.len() > MOST_NAMES {
        names.push_str(", ..")?;
    }
    Ok(names)
}

/// A table that is read row by row, and its header.
#[derive(Drop)]
pub struct Table<R> {
    reader: Reader<Exchanged<WholeRows<Exchanged<R>>>>,
    pub header: ByteRecord,
}

impl<R: Read + Drop> Table<R> {
    /// Makes a table of which nothing was read. Whole rows are found with commas between cells.
    fn new(alloc: Global, input: R, delimiter: u8) -> Table<R>
        ensures { HasRead R.remaining (delimited delimiter (R.remaining input)) [] result }
    {
        let commas = Exchanged { input, delimiter };
        let rows = Exchanged {
            input: WholeRows::new(alloc, commas),
            delimiter,
        };
        let reader = ReaderBuilder::new()
            .delimiter(delimiter)
            .has_headers(false)
            .from_reader(alloc, rows);
        Table {
            reader,
            header: ByteRecord::new(alloc),
        }
    }

    /// Reads the header of a table. Fails if there is none, if two columns have one name, or if RFC
    /// 4180 refuses a byte of it. Columns without a name may be many.
    pub fn read(alloc: Global, input: R, delimiter: u8) -> Result<Table<R>, FilterFault>
        ensures err { IfErr result (IsHeaderFault (delimited delimiter (R.remaining input))) }
        ensures names { IfOk result (λ table. AreNames (fields_of table.header)) }
        ensures ok { IfOk result (λ table. HasRead R.remaining
            (delimited delimiter (R.remaining input)) (fields_of table.header ∷ []) table) }
    {
        let mut table = Table::new(alloc, input, delimiter);
        let mut header = ByteRecord::new(alloc);
        if !table.next(&mut header)? {
            return Err(FilterFault::Text(Fault::Line {
                line: 1,
                column: 1,
                expected: "a header",
            }));
        }
        table.header = header;
        table.check_names(alloc)?;
        Ok(table)
    }

    /// Reads the next row, and returns whether there is one. Fails at a byte that RFC 4180 refuses,
    /// or at a row that has more cells than the header, or fewer.
    pub fn next(&mut self, row: &mut ByteRecord) -> Result<bool, FilterFault>
        ensures header { self.new.header ≡ self.old.header }
        ensures err { IfErr result (λ fault. (text : Delimited) (rows : List Cells) →
            HasRead R.remaining text rows self.old → IsTextFault text rows fault) }
        ensures next { IfOk result (λ found. (text : Delimited) (rows : List Cells) →
            HasRead R.remaining text rows self.old →
            ReadsNext R.remaining text rows self.new found (fields_of row.new)) }
    {
        match self.reader.read_byte_record(row) {
            Ok(found) => Ok(found),
            Err(error) => Err(self.no_row(error)),
        }
    }

    /// Returns the fault of a row that can't be read.
    fn no_row(&self, error: csv::Error) -> FilterFault
        ensures { IsLost (error_kind error) result }
    {
        match error.into_kind() {
            ErrorKind::Io(error) => FilterFault::Text(self.no_text(error)),
            ErrorKind::UnequalLengths {
                pos,
                expected_len,
                len,
            } => {
                let (line, _) = self.cell_place(pos, 0);
                FilterFault::Row {
                    line,
                    cells: len,
                    header: expected_len,
                }
            }
            _ => FilterFault::Text(Fault::Memory),
        }
    }

    /// Returns the fault of a text that can't be read.
    fn no_text(&self, error: io::Error) -> Fault {
        match self.reader.get_ref().input.fault() {
            Some(fault) => fault,
            None if error.kind() == io::ErrorKind::OutOfMemory => Fault::Memory,
            None => Fault::Input(error),
        }
    }

    /// Returns the line and the column of a cell of the row that was read last, by where the reader
    /// stood before it.
    fn cell_place(&self, position: Option<Position>, cell: usize) -> (usize, usize) {
        let byte = position.map(|position| position.byte()).unwrap_or(0);
        self.reader.get_ref().input.cell_place(byte, cell)
    }

    /// Returns whether the column at a place has a name.
    fn is_called(&self, place: usize, name: &[u8]) -> bool
        ensures { IsTrue result ↔ (field_at (fields_of self.now.header) place ≡ Some name.now) }
    {
        match self.header.get(place) {
            Some(own) => own == name,
            None => false,
        }
    }

    /// Returns the place of the column with a name, if there is one. An empty name is none.
    pub fn place(&self, name: &[u8]) -> Option<usize>
        ensures some { IfSome result (IsColumn (fields_of self.now.header) name.now) }
        ensures none { IfNone result (IsNoColumn (fields_of self.now.header) name.now) }
    {
        if name.is_empty() {
            return None;
        }
        for place in 0..self.header.len() {
            if self.is_called(place, name) {
                return Some(place);
            }
        }
        None
    }

    /// Adds the name of the column at a place to those before. Fails if it is one of them. An empty
    /// one isn't added.
    fn add_name<'a>(
        &'a self,
        alloc: Global,
        names: &mut Names<'a>,
        place: usize,
    ) -> Result<(), FilterFault>
        requires { place < length (fields_of self.now.header) }
        ensures ok { HoldNames names.old (fields_of self.now.header) place → OnOk result
            (HoldNames names.new (fields_of self.now.header) (place + 1)
            × ¬ IsRepeated (fields_of self.now.header) place) }
        ensures err { HoldNames names.old (fields_of self.now.header) place → IfErr result (λ fault.
            IsMemory fault ⊎ IsRepeatedAt (fields_of self.now.header) place fault) }
    {
        let name = cell(&self.header, place);
        if name.is_empty() {
            return Ok(());
        }
        if names.find(name).is_some() {
            let (line, column) = self.cell_place(self.header.position(), place);
            return Err(FilterFault::Twice {
                line,
                column,
                name: shown(alloc, name)?,
            });
        }
        names.number(name)?;
        Ok(())
    }

    /// Fails at the first column that has the name of one before.
    fn check_names(&self, alloc: Global) -> Result<(), FilterFault>
        ensures ok { OnOk result (AreNames (fields_of self.now.header)) }
        ensures err { IfErr result (λ fault.
            IsMemory fault ⊎ IsTwiceIn (fields_of self.now.header) fault) }
    {
        let mut names = Names::new(alloc);
        for place in 0..self.header.len() {
            self.add_name(alloc, &mut names, place)?;
        }
        Ok(())
    }

    /// Returns the fault of a name in a condition that no column has.
    pub fn no_column(&self, alloc: Global, column: &Operand<'_>) -> Result<FilterFault, AllocError>
        ensures { IfOk result (λ fault. IsColumnFault fault column.now.at) }
    {
        Ok(FilterFault::Column {
            column: column.at,
            name: shown(alloc, column.text)?,
            names: names_shown(alloc, &self.header)?,
        })
    }

    /// Returns the fault of a name that is selected and that no column has.
    pub fn not_selected(&self, alloc: Global, name: &[u8]) -> Result<FilterFault, AllocError>
        ensures { IfOk result (IsSelectedName name.now) }
    {
        Ok(FilterFault::Selected {
            name: shown(alloc, name)?,
            names: names_shown(alloc, &self.header)?,
        })
    }

    /// Returns a cell that isn't a number: of the row that was read last, in the column at a place.
    pub fn wrong_cell(
        &self,
        alloc: Global,
        row: &ByteRecord,
        place: usize,
    ) -> Result<WrongCell, AllocError>
        ensures name { IfOk result (λ wrong.
            IsShown (cell_at (fields_of self.now.header) place) (string_bytes wrong.name)) }
        ensures cell { IfOk result (λ wrong.
            IsShown (cell_at (fields_of row.now) place) (string_bytes wrong.cell)) }
    {
        let (line, column) = self.cell_place(row.position(), place);
        Ok(WrongCell {
            line,
            column,
            name: shown(alloc, cell(&self.header, place))?,
            cell: shown(alloc, cell(row, place))?,
        })
    }
}

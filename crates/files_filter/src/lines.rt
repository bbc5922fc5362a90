//! The lines of the rows of a table, in CSV or in JSON.
ghost use Rattle.std.specs.Prelude.{◌≡◌, ◌<◌, All, IfErr, IfOk, OnOk, length, map};
ghost use Rattle.std.specs.Io.KnownBytes.{Appends};
ghost use Rattle.std.specs.List.{flat_map};
ghost use Rattle.std.specs.String.{string_bytes};
ghost use Rattle.csv.specs.Records.{fields_of};
ghost use Rattle.csv.specs.Writing.{text_written};
ghost use Rattle.files_filter.specs.Answers.{cell_at};
ghost use Rattle.files_filter.specs.FilterText.{IsReady, row_line, top_line};
ghost use Rattle.files_filter.specs.Layouts.{json_cell, object_line, picked, record_line};
ghost use Rattle.files_filter.specs.RowFaults.{IsOutputFault};
ghost use Rattle.files_filter.specs.Written.{cells_of};

use crate::block::Row;
use crate::comparing::cell;
use crate::fault::FilterFault;
use crate::layout::{Layout, picked_cell};
use csv::{ByteRecord, Writer, WriterBuilder};
use files_forms::{name_json, put_comma};
use std::alloc::{AllocError, Global};
use std::io::Write;

/// Returns a row of the cells at some places of another.
fn picked(alloc: Global, row: &ByteRecord, places: &[usize]) -> Result<ByteRecord, AllocError>
    ensures { IfOk result (λ part.
        fields_of part ≡ map (cell_at (fields_of row.now)) places.now) }
{
    let mut part = ByteRecord::new(alloc);
    for place in places {
        part.push_field(cell(row, *place))?;
    }
    Ok(part)
}

/// Writes what is written of a row as CSV.
fn put_record<W: Write + Drop>(
    alloc: Global,
    writer: &mut Writer<W>,
    layout: &Layout,
    row: &ByteRecord,
) -> Result<(), FilterFault>
    requires { IsReady layout.now.delimiter writer.old }
    ensures ready { OnOk result (IsReady layout.now.delimiter writer.new) }
    ensures ok { OnOk result (Appends (text_written W.contents writer.old)
        (text_written W.contents writer.new) (record_line layout.now (fields_of row.now))) }
    ensures err { IfErr result IsOutputFault }
{
    let Some(places) = &layout.places else {
        writer.write_byte_record(row)?;
        return Ok(());
    };
    let part = picked(alloc, row, places)?;
    writer.write_byte_record(&part)?;
    Ok(())
}

/// Writes the rows with some numbers as CSV.
fn put_records<W: Write + Drop>(
    alloc: Global,
    writer: &mut Writer<W>,
    layout: &Layout,
    rows: &[Row],
    numbers: &[usize],
) -> Result<(), FilterFault>
    requires numbers { All (λ number. number < length rows.now) numbers.now }
    requires ready { IsReady layout.now.delimiter writer.old }
    ensures ok { OnOk result (Appends (text_written W.contents writer.old)
        (text_written W.contents writer.new)
        (flat_map (λ number. record_line layout.now (cells_of rows.now number)) numbers.now)) }
    ensures err { IfErr result IsOutputFault }
{
    for number in numbers {
        put_record(alloc, writer, layout, &rows[*number].cells)?;
    }
    Ok(())
}

/// Returns the lines of the rows with some numbers, as CSV.
fn records_of(
    alloc: Global,
    layout: &Layout,
    rows: &[Row],
    numbers: &[usize],
) -> Result<Vec<u8>, FilterFault>
    requires { All (λ number. number < length rows.now) numbers.now }
    ensures ok { IfOk result (λ text. text.items
        ≡ flat_map (λ number. record_line layout.now (cells_of rows.now number)) numbers.now) }
    ensures err { IfErr result IsOutputFault }
{
    let mut writer = WriterBuilder::new()
        .delimiter(layout.delimiter)
        .from_writer(Vec::new(alloc));
    put_records(alloc, &mut writer, layout, rows, numbers)?;
    match writer.into_inner() {
        Ok(text) => Ok(text),
        Err(error) => Err(FilterFault::from(error.into_error())),
    }
}

/// Returns the line of a header, as CSV.
fn record_of(alloc: Global, layout: &Layout, header: &ByteRecord) -> Result<Vec<u8>, FilterFault>
    ensures ok { IfOk result (λ text. text.items ≡ record_line layout.now (fields_of header.now)) }
    ensures err { IfErr result IsOutputFault }
{
    let mut writer = WriterBuilder::new()
        .delimiter(layout.delimiter)
        .from_writer(Vec::new(alloc));
    put_record(alloc, &mut writer, layout, header)?;
    match writer.into_inner() {
        Ok(text) => Ok(text),
        Err(error) => Err(FilterFault::from(error.into_error())),
    }
}

/// Writes a cell in JSON: a string, or `null` if it is empty.
fn put_cell<W: Write>(alloc: Global, output: &mut W, cell: &[u8]) -> Result<(), FilterFault>
    ensures ok { OnOk result (Appends (W.contents output.old) (W.contents output.new)
        (json_cell cell.now)) }
    ensures err { IfErr result IsOutputFault }
{
    if cell.is_empty() {
        output.write_all(b"null")?;
        return Ok(());
    }
    let text = name_json(alloc, cell)?;
    output.write_all(text.as_bytes())?;
    Ok(())
}

/// Writes a row as an object of JSON, whose keys are those of the columns that are written.
fn put_object<W: Write>(
    alloc: Global,
    output: &mut W,
    layout: &Layout,
    keys: &[String],
    row: &ByteRecord,
) -> Result<(), FilterFault>
    ensures ok { OnOk result (Appends (W.contents output.old) (W.contents output.new)
        (object_line (map (λ key. string_bytes key) keys.now)
        (picked layout.now.places (fields_of row.now)))) }
    ensures err { IfErr result IsOutputFault }
{
    output.write_all(b"{")?;
    for number in 0..keys.len() {
        put_comma(output, number == 0)?;
        output.write_all(keys[number].as_bytes())?;
        output.write_all(b":")?;
        put_cell(alloc, output, picked_cell(row, &layout.places, number))?;
    }
    output.write_all(b"}\n")?;
    Ok(())
}

/// Returns the lines of the rows with some numbers, as objects of JSON.
fn objects_of(
    alloc: Global,
    layout: &Layout,
    keys: &[String],
    rows: &[Row],
    numbers: &[usize],
) -> Result<Vec<u8>, FilterFault>
    requires { All (λ number. number < length rows.now) numbers.now }
    ensures ok { IfOk result (λ text. text.items ≡ flat_map (λ number.
        object_line (map (λ key. string_bytes key) keys.now)
        (picked layout.now.places (cells_of rows.now number))) numbers.now) }
    ensures err { IfErr result IsOutputFault }
{
    let mut text = Vec::new(alloc);
    for number in numbers {
        put_object(alloc, &mut text, layout, keys, &rows[*number].cells)?;
    }
    Ok(text)
}

/// Returns the lines of the rows with some numbers.
pub fn lines_of(
    alloc: Global,
    layout: &Layout,
    rows: &[Row],
    numbers: &[usize],
) -> Result<Vec<u8>, FilterFault>
    requires { All (λ number. number < length rows.now) numbers.now }
    ensures ok { IfOk result (λ text. text.items
        ≡ flat_map (λ number. row_line layout.now (cells_of rows.now number)) numbers.now) }
    ensures err { IfErr result IsOutputFault }
{
    match &layout.keys {
        Some(keys) => objects_of(alloc, layout, keys, rows, numbers),
        None => records_of(alloc, layout, rows, numbers),
    }
}

/// Returns what stands above the rows: the header in CSV, and nothing in JSON.
pub fn top_line(alloc: Global, layout: &Layout, header: &ByteRecord) -> Result<Vec<u8>, FilterFault>
    ensures ok { IfOk result (λ text. text.items ≡ top_line layout.now (fields_of header.now)) }
    ensures err { IfErr result IsOutputFault }
{
    match &layout.keys {
        Some(_) => Ok(Vec::new(alloc)),
        None => record_of(alloc, layout, header),
    }
}

//! Which columns of a table are written, and in which form.
ghost use Rattle.std.specs.Prelude.{◌≡◌, ◌⊎◌, ◌+◌, ◌-◌, ◌^◌, ◌<◌, [], IfErr, IfOk, length, map, true};
ghost use Rattle.std.specs.List.{AllZip, Any};
ghost use Rattle.std.specs.String.{string_bytes};
ghost use Rattle.csv.specs.Records.{fields_of};
ghost use Rattle.files_forms.specs.Forms.{json_name};
ghost use Rattle.files_filter.specs.Answers.{cell_at};
ghost use Rattle.files_filter.specs.Columns.{IsColumn};
ghost use Rattle.files_filter.specs.Layouts.{AreKeys, ArePlaces, IsLayout, IsLayoutFault, IsMissed, IsNameless, IsSelectedFault, picked};
ghost use Rattle.files_filter.specs.Refusals.{IsMemory};
ghost use Rattle.files_filter.specs.declared.fault.FilterFault.TheVariants.{Nameless};

use crate::comparing::cell;
use crate::fault::FilterFault;
use crate::table::Table;
use csv::ByteRecord;
use files_forms::name_json;
use std::alloc::{AllocError, Global};
use std::io::Read;

/// How a table is read, and how its rows are written.
#[derive(Clone, Copy)]
pub struct Format<'a> {
    /// The byte between two cells.
    pub delimiter: u8,
    /// The names of the columns that are written, in their order, or `None` for all.
    pub columns: Option<&'a [&'a str]>,
    /// Whether a row is written as an object of JSON on a line of its own, and not as CSV.
    pub is_json: bool,
}

/// How the rows of a table are written.
#[derive(Drop)]
pub struct Layout {
    pub delimiter: u8,
    // The places of the columns that are written, or none for all.
    pub places: Option<Vec<usize>>,
    // Their names as strings of JSON, if that is the form.
    pub keys: Option<Vec<String>>,
}

/// Returns the place of the column with a name that is selected. Fails if there is none.
fn selected<R: Read + Drop>(
    alloc: Global,
    table: &Table<R>,
    name: &str,
) -> Result<usize, FilterFault>
    ensures ok { IfOk result (IsColumn (fields_of table.now.header) name.now) }
    ensures err { IfErr result (λ fault. IsMemory fault
        ⊎ IsSelectedFault (fields_of table.now.header) name.now fault) }
{
    match table.place(name.as_bytes()) {
        Some(place) => Ok(place),
        None => Err(table.not_selected(alloc, name.as_bytes())?),
    }
}

/// Returns the places of the columns with some names. Fails at the first that no column has.
fn places_of<R: Read + Drop>(
    alloc: Global,
    table: &Table<R>,
    names: &[&str],
) -> Result<Vec<usize>, FilterFault>
    ensures ok { IfOk result (λ places. AllZip (λ name place.
        IsColumn (fields_of table.now.header) name.now place) names.now places.items) }
    ensures err { IfErr result (λ fault. IsMemory fault ⊎ Any (λ name.
        IsSelectedFault (fields_of table.now.header) name.now fault) names.now) }
{
    let mut places = Vec::new(alloc);
    for name in names {
        places.push(selected(alloc, table, *name)?)?;
    }
    Ok(places)
}

/// Returns the places of the columns that are selected, if some are.
fn places_if<R: Read + Drop>(
    alloc: Global,
    table: &Table<R>,
    format: &Format<'_>,
) -> Result<Option<Vec<usize>>, FilterFault>
    ensures ok { IfOk result (ArePlaces (fields_of table.now.header) format.now) }
    ensures err { IfErr result (λ fault. IsMemory fault
        ⊎ IsMissed (fields_of table.now.header) format.now fault) }
{
    match format.columns {
        Some(names) => Ok(Some(places_of(alloc, table, names)?)),
        None => Ok(None),
    }
}

/// Returns how many cells are written of a row.
pub fn width(row: &ByteRecord, places: &Option<Vec<usize>>) -> usize
    ensures { result ≡ length (picked places.now (fields_of row.now)) }
{
    match places {
        Some(places) => places.len(),
        None => row.len(),
    }
}

/// Returns a cell of a row by its number among those that are written. One that isn't there is empty.
pub fn picked_cell<'a>(row: &'a ByteRecord, places: &Option<Vec<usize>>, number: usize) -> &'a [u8]
    ensures { result.now ≡ cell_at (picked places.now (fields_of row.now)) number }
{
    match places {
        Some(places) => match places.get(number) {
            Some(place) => cell(row, *place),
            None => &[],
        },
        None => cell(row, number),
    }
}

/// Returns the name of a column as a string of JSON. Fails if it is empty.
fn key(alloc: Global, name: &[u8], number: usize) -> Result<String, FilterFault>
    requires { number < 2 ^ 64 - 1 }
    ensures ok { IfOk result (λ key. string_bytes key ≡ json_name name.now) }
    ensures err { IfErr result (λ fault. IsMemory fault
        ⊎ ((name.now ≡ []) × (fault ≡ Nameless (number + 1)))) }
{
    if name.is_empty() {
        return Err(FilterFault::Nameless { column: number + 1 });
    }
    Ok(name_json(alloc, name)?)
}

/// Returns the names of the columns that are written, as strings of JSON. Fails at the first that is
/// empty.
fn keys_of(
    alloc: Global,
    header: &ByteRecord,
    places: &Option<Vec<usize>>,
) -> Result<Vec<String>, FilterFault>
    ensures ok { IfOk result (λ keys. map (λ key. string_bytes key) keys.items
        ≡ map json_name (picked places.now (fields_of header.now))) }
    ensures err { IfErr result (λ fault. IsMemory fault
        ⊎ IsNameless (picked places.now (fields_of header.now)) fault) }
{
    let mut keys = Vec::new(alloc);
    for number in 0..width(header, places) {
        keys.push(key(alloc, picked_cell(header, places, number), number)?)?;
    }
    Ok(keys)
}

/// Returns these names if the form is JSON.
fn keys_if(
    alloc: Global,
    header: &ByteRecord,
    places: &Option<Vec<usize>>,
    is_json: bool,
) -> Result<Option<Vec<String>>, FilterFault>
    ensures ok { IfOk result (AreKeys (picked places.now (fields_of header.now)) is_json) }
    ensures err { IfErr result (λ fault. IsMemory fault ⊎ ((is_json ≡ true)
        × IsNameless (picked places.now (fields_of header.now)) fault)) }
{
    if !is_json {
        return Ok(None);
    }
    Ok(Some(keys_of(alloc, header, places)?))
}

impl Layout {
    /// Returns how the rows of a table are written in a format. Fails if no column has a name that is
    /// selected, or if a column without a name is to be written in JSON.
    pub fn new<R: Read + Drop>(
        alloc: Global,
        table: &Table<R>,
        format: &Format<'_>,
    ) -> Result<Layout, FilterFault>
        ensures ok { IfOk result (IsLayout (fields_of table.now.header) format.now) }
        ensures err { IfErr result (λ fault. IsMemory fault
            ⊎ IsLayoutFault (fields_of table.now.header) format.now fault) }
    {
        let places = places_if(alloc, table, format)?;
        let keys = keys_if(alloc, &table.header, &places, format.is_json)?;
        Ok(Layout {
            delimiter: format.delimiter,
            places,
            keys,
        })
    }
}

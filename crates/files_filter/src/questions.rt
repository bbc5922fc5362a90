//! The questions of a condition on the rows of a table.
ghost use Rattle.std.specs.Prelude.{◌≡◌, ◌⊎◌, ◌++◌, ◌∷◌, [], ℕ, All, IfErr, IfOk, List, OnOk, Option, length};
ghost use Rattle.std.specs.List.{Any};
ghost use Rattle.csv.specs.Records.{fields_of};
ghost use Rattle.files_filter.specs.Answers.{AreAnswers};
ghost use Rattle.files_filter.specs.Columns.{AreTests};
ghost use Rattle.files_filter.specs.FilterFaults.{AsksInVain};
ghost use Rattle.files_filter.specs.Reading.{AreAllRows, Cells, Delimited};
ghost use Rattle.files_filter.specs.Refusals.{IsMemory, RefusesBy};
ghost use Rattle.files_filter.specs.RowFaults.{IsOutputFault};
ghost use Rattle.files_filter.specs.Watching.{IsWatched};

use crate::comparing::Test;
use crate::fault::FilterFault;
use crate::guard::Guard;
use crate::table::Table;
use csv::ByteRecord;
use files_condition::{Comparison, Condition};
use std::alloc::{AllocError, Global};
use std::io::Read;

/// What a condition asks of each row of a table.
#[derive(Drop)]
pub struct Questions<'a> {
    tests: Vec<Test<'a>>,
    guards: Vec<Guard>,
}

/// Sets answers to what each test is in a row, the last one that was read.
fn set_answers<R: Read + Drop>(
    alloc: Global,
    tests: &[Test<'_>],
    table: &Table<R>,
    row: &ByteRecord,
    answers: &mut Vec<Option<bool>>,
) -> Result<(), FilterFault>
    ensures ok { OnOk result (AreAnswers tests.now (fields_of row.now) answers.new.items) }
    ensures err { IfErr result (λ fault. IsMemory fault ⊎ ((text : Delimited)
        (rows : List Cells) → RefusesBy text (fields_of table.now.header)
        (rows ++ fields_of row.now ∷ []) tests.now fault)) }
{
    answers.clear();
    for test in tests {
        answers.push(test.value(alloc, table, row)?)?;
    }
    Ok(())
}

/// Returns the tests of comparisons. Fails at the first whose column isn't there.
fn tests_of<'a, R: Read + Drop>(
    alloc: Global,
    table: &Table<R>,
    comparisons: &[Comparison<'a>],
) -> Result<Vec<Test<'a>>, FilterFault>
    ensures ok { IfOk result (λ tests. AreTests (fields_of table.now.header) comparisons.now tests.items) }
    ensures err { IfErr result (λ fault. IsOutputFault fault
        ⊎ AsksInVain (fields_of table.now.header) comparisons.now fault) }
{
    let mut tests = Vec::new(alloc);
    for comparison in comparisons {
        tests.push(Test::new(alloc, table, comparison)?)?;
    }
    Ok(tests)
}

/// Adds the guard of a test, if it needs one.
fn add_guard(guards: &mut Vec<Guard>, test: &Test<'_>) -> Result<(), AllocError>
    ensures { OnOk result ((header : Cells) (tests : List Test) → Any (λ own. own ≡ test.now) tests →
        All (IsWatched header [] tests) guards.old.items →
        All (IsWatched header [] tests) guards.new.items) }
{
    let Some(guard) = Guard::new(test) else {
        return Ok(());
    };
    guards.push(guard)?;
    Ok(())
}

/// Returns the guards of tests.
fn guards_of(alloc: Global, tests: &[Test<'_>]) -> Result<Vec<Guard>, AllocError>
    ensures { IfOk result (λ guards. (header : Cells) →
        All (IsWatched header [] tests.now) guards.items) }
{
    let mut guards = Vec::new(alloc);
    for test in tests {
        add_guard(&mut guards, test)?;
    }
    Ok(guards)
}

/// Has each guard look at the next row, the last one that was read.
fn look<R: Read + Drop>(
    alloc: Global,
    guards: &mut [Guard],
    table: &Table<R>,
    row: &ByteRecord,
) -> Result<(), FilterFault>
    ensures ok { OnOk result ((rows : List Cells) (tests : List Test) →
        All (IsWatched (fields_of table.now.header) rows tests) guards.old →
        All (IsWatched (fields_of table.now.header) (rows ++ fields_of row.now ∷ []) tests)
        guards.new) }
    ensures err { IfErr result (λ fault. IsMemory fault ⊎ ((text : Delimited)
        (rows : List Cells) (tests : List Test) →
        All (IsWatched (fields_of table.now.header) rows tests) guards.old →
        RefusesBy text (fields_of table.now.header) (rows ++ fields_of row.now ∷ []) tests
        fault)) }
{
    for guard in guards.iter_mut() {
        guard.look(alloc, table, row)?;
    }
    Ok(())
}

impl<'a> Questions<'a> {
    /// Finds the columns of a condition in a table. Fails if one isn't there.
    pub fn new<R: Read + Drop>(
        alloc: Global,
        table: &Table<R>,
        condition: &Condition<'a>,
    ) -> Result<Questions<'a>, FilterFault>
        ensures ok { IfOk result (λ questions. AreTests (fields_of table.now.header)
            condition.now.comparisons.items questions.tests.items) }
        ensures watched { IfOk result (λ questions. (header : Cells) →
            All (IsWatched header [] questions.tests.items) questions.guards.items) }
        ensures err { IfErr result (λ fault. IsOutputFault fault
            ⊎ AsksInVain (fields_of table.now.header) condition.now.comparisons.items fault) }
    {
        let tests = tests_of(alloc, table, &condition.comparisons)?;
        let guards = guards_of(alloc, &tests)?;
        Ok(Questions { tests, guards })
    }

    /// Returns the number of comparisons.
    pub fn len(&self) -> usize
        ensures { result ≡ length self.now.tests.items }
    {
        self.tests.len()
    }

    /// Sets answers to what each comparison is in a row, the last one that was read. Fails if a cell
    /// should be a number and isn't, or if numbers are compared with texts.
    pub fn answer<R: Read + Drop>(
        &mut self,
        alloc: Global,
        table: &Table<R>,
        row: &ByteRecord,
        answers: &mut Vec<Option<bool>>,
    ) -> Result<(), FilterFault>
        ensures tests { self.new.tests ≡ self.old.tests }
        ensures answers { OnOk result
            (AreAnswers self.old.tests.items (fields_of row.now) answers.new.items) }
        ensures watched { OnOk result ((rows : List Cells) →
            All (IsWatched (fields_of table.now.header) rows self.old.tests.items)
            self.old.guards.items →
            All (IsWatched (fields_of table.now.header) (rows ++ fields_of row.now ∷ [])
            self.old.tests.items) self.new.guards.items) }
        ensures err { IfErr result (λ fault. IsMemory fault ⊎ ((text : Delimited)
            (rows : List Cells) →
            All (IsWatched (fields_of table.now.header) rows self.old.tests.items)
            self.old.guards.items → RefusesBy text (fields_of table.now.header)
            (rows ++ fields_of row.now ∷ []) self.old.tests.items fault)) }
    {
        look(alloc, &mut self.guards, table, row)?;
        set_answers(alloc, &self.tests, table, row, answers)
    }

    /// Fails at the end of a table if numbers alone were compared with a text.
    pub fn finish(&self) -> Result<(), FilterFault>
        ensures { IfErr result (λ fault. (text : Delimited) (header : Cells)
            (rows : List Cells) →
            All (IsWatched header rows self.now.tests.items) self.now.guards.items →
            AreAllRows text (header ∷ rows) →
            RefusesBy text header rows self.now.tests.items fault) }
    {
        for guard in self.guards.iter() {
            guard.finish()?;
        }
        Ok(())
    }
}

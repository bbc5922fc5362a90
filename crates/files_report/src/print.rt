//! Reports on grammars.
ghost use Rattle.std.specs.Prelude.{IfErr, IfOk};
ghost use Rattle.files_grammar.specs.GrammarFaults.{FailsBy};
ghost use Rattle.files_grammar.specs.GrammarText.{HasStatus};
ghost use Rattle.files_report.specs.Reports.{HasReport};

use crate::dot::{Dot, ends_of};
use crate::form::ReportForm;
use crate::json::Json;
use crate::names::{Shown, shown_name};
use crate::report::Report;
use crate::xml::Xml;
use files_grammar::{Conflicts, GrammarFault, GrammarFile, States};
use std::alloc::Global;
use std::io::Write;
use vob_lr::{GrammarSets, Table};

/// What was printed: the status, which is 1 if there are other conflicts than the file expects, and else 0;
/// and how many states there are.
#[derive(Clone, Copy)]
pub struct Printed {
    pub status: u8,
    pub states: usize,
}

/// A grammar that is printed: its file and what that is called, its table, its states and its conflicts.
#[derive(Clone, Copy)]
struct Printable<'a> {
    file: &'a GrammarFile,
    name: &'a str,
    table: &'a Table<'a>,
    states: &'a States,
    conflicts: &'a Conflicts,
}

/// Returns the status: 1 if there are other conflicts than a file expects, else 0.
fn status_of(file: &GrammarFile, conflicts: &Conflicts) -> u8
    ensures { HasStatus file.now conflicts.now.shift_reduce conflicts.now.reduce_reduce result }
{
    if conflicts.are(file.expected) {
        return 0;
    }
    1
}

impl Printable<'_> {
    /// Writes a report in JSON.
    fn put_json<W: Write>(&self, alloc: Global, output: &mut W) -> Result<(), GrammarFault>
        ensures { IfErr result (λ fault. FailsBy self.now.file.now.grammar fault
            (W.contents output.old) (W.contents output.new)) }
    {
        let sets = GrammarSets::new(alloc, &self.file.grammar)?;
        let shown = Shown::of(alloc, ReportForm::Json, self.file)?;
        let json = Json {
            file: self.file,
            shown: &shown,
            sets: &sets,
            table: self.table,
            states: self.states,
        };
        json.put(output, self.conflicts)?;
        Ok(())
    }

    /// Writes a report in XML.
    fn put_xml<W: Write>(&self, alloc: Global, output: &mut W) -> Result<(), GrammarFault>
        ensures { IfErr result (λ fault. FailsBy self.now.file.now.grammar fault
            (W.contents output.old) (W.contents output.new)) }
    {
        let report = Report::of(alloc, self.file, self.table, self.states)?;
        let shown = Shown::of(alloc, ReportForm::Xml, self.file)?;
        let name = shown_name(alloc, ReportForm::Xml, self.name.as_bytes())?;
        let xml = Xml {
            name: &name,
            file: self.file,
            shown: &shown,
            report: &report,
        };
        xml.put(output)?;
        Ok(())
    }

    /// Writes the states as a graph in DOT.
    fn put_dot<W: Write>(&self, alloc: Global, output: &mut W) -> Result<(), GrammarFault>
        ensures { IfErr result (λ fault. FailsBy self.now.file.now.grammar fault
            (W.contents output.old) (W.contents output.new)) }
    {
        let report = Report::of(alloc, self.file, self.table, self.states)?;
        let shown = Shown::of(alloc, ReportForm::Dot, self.file)?;
        let name = shown_name(alloc, ReportForm::Dot, self.name.as_bytes())?;
        let ends = ends_of(alloc, &report, self.file.grammar.terminals)?;
        let dot = Dot {
            name: &name,
            file: self.file,
            shown: &shown,
            report: &report,
        };
        dot.put(output, &ends)?;
        Ok(())
    }

    /// Writes a report in a form.
    fn put<W: Write>(
        &self,
        alloc: Global,
        form: ReportForm,
        output: &mut W,
    ) -> Result<(), GrammarFault>
        ensures { IfErr result (λ fault. FailsBy self.now.file.now.grammar fault
            (W.contents output.old) (W.contents output.new)) }
    {
        match form {
            ReportForm::Xml => self.put_xml(alloc, output),
            ReportForm::Json => self.put_json(alloc, output),
            ReportForm::Dot => self.put_dot(alloc, output),
        }
    }
}

/// Writes a report on a grammar and its table. `name` is what its file is called. Returns the status, and how
/// many states there are.
///
/// Fails if the grammar has no rule, with the first rule that names a symbol that isn't there, or if memory
/// runs out. Nothing is written then. Fails too if the output can't be written.
pub fn print_report<W: Write>(
    alloc: Global,
    file: &GrammarFile,
    name: &str,
    form: ReportForm,
    output: &mut W,
) -> Result<Printed, GrammarFault>
    ensures ok { IfOk result (λ printed. HasReport file.now printed.status printed.states) }
    ensures err { IfErr result (λ fault. FailsBy file.now.grammar fault
        (W.contents output.old) (W.contents output.new)) }
{
    let table = file.table(alloc)?;
    let states = States::of(alloc, &table)?;
    let conflicts = Conflicts::of(alloc, file, &table, &states)?;
    let printable = Printable {
        file,
        name,
        table: &table,
        states: &states,
        conflicts: &conflicts,
    };
    printable.put(alloc, form, output)?;
    Ok(Printed {
        status: status_of(file, &conflicts),
        states: states.count(),
    })
}

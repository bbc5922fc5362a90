//! A run of the program: words, input, output and status.

use crate::command::{STANDARD_INPUT, command};
use crate::fault::{Fault, Report};
use crate::mark::{marked, read_line};
use crate::progress::Watched;
use crate::task::{GrammarForm, RowLayout, Task, shown_name, task_of};
use files_code::print_form;
use files_filter::{FilterFault, Format, Shows, print_filter};
use files_flow::print_flow;
use files_grammar::{GrammarFile, print_grammar};
use files_graph::print_closure;
use files_parse::print_parse;
use files_report::{ReportForm, print_report};
use std::alloc::Global;
use std::fs::File;
use std::io::{BufWriter, Read, Write};
use std::process::ExitCode;
use std::rt::{Env, Files};
use std::time::Clock;
use std::{env, fs, io};

/// The status of a run that failed.
const FAILED: u8 = 2;

/// What a terminal gets on standard error, besides messages.
#[derive(Clone, Copy)]
pub struct Extras {
    /// The line that a fault is in, with a mark below the place.
    pub marks: bool,
    /// How far long work is.
    pub progress: bool,
}

/// Reads the whole input.
fn read_input<R: Files + Input + AllocGlobal>(rt: &R, file: &str) -> io::Result<Vec<u8>> {
    if file != STANDARD_INPUT {
        return fs::read(rt, file);
    }
    let mut text = Vec::new(rt.alloc());
    rt.reader().read_to_end(&mut text)?;
    Ok(text)
}

/// Reads a grammar, and says on standard error what is left out of it.
fn read_grammar<R: Eprint + AllocGlobal>(
    rt: &R,
    text: &[u8],
    file: &str,
) -> Result<GrammarFile, Fault> {
    let alloc = rt.alloc();
    let grammar = GrammarFile::read(alloc, text)?;
    for note in grammar.notes(alloc, shown_name(file))?.iter() {
        let _ = eprintln!(rt; "conthiral: {note}");
    }
    Ok(grammar)
}

/// Of how many states `dot` draws a graph in seconds.
const DRAWN: usize = 500;

/// Says on standard error if a graph is so large that `dot` takes long to draw it. It is written all the
/// same, as a part of it may be drawn, and other programs draw or read it sooner.
fn warn_if_large<R: Eprint>(rt: &R, file: &str, form: ReportForm, states: usize) {
    if form == ReportForm::Dot && states > DRAWN {
        let _ = eprintln!(rt; "conthiral: {file}: {states} states, which dot takes long to draw");
    }
}

/// Writes a grammar in a form for other programs. Returns the status, and says on standard error why it
/// isn't 0, as what is written is mostly read by a program alone.
fn write_form<R: Eprint + AllocGlobal, W: Write>(
    rt: &R,
    grammar: &GrammarFile,
    file: &str,
    form: GrammarForm,
    output: &mut W,
) -> Result<u8, Fault> {
    let alloc = rt.alloc();
    let status = match form {
        GrammarForm::Parser(form) => print_form(alloc, grammar, file, form, output)?,
        GrammarForm::Report(form) => {
            let printed = print_report(alloc, grammar, file, form, output)?;
            warn_if_large(rt, file, form, printed.states);
            printed.status
        }
    };
    if status != 0 {
        let _ = eprintln!(rt;
            "conthiral: {file}: other conflicts than %expect says: run it without --output to see them"
        );
    }
    Ok(status)
}

/// Returns the names of columns in a text, with commas between, if there is one.
fn columns_of<'a>(
    alloc: Global,
    names: Option<&'a str>,
) -> Result<Option<Vec<&'a str>>, FilterFault> {
    let Some(names) = names else {
        return Ok(None);
    };
    let mut columns = Vec::new(alloc);
    for name in names.split(',') {
        columns.push(name)?;
    }
    Ok(Some(columns))
}

/// Writes the rows of a table of which a condition is true, as they are read. Returns the status.
fn filter<R: Files + Input + AllocGlobal, W: Write>(
    rt: &R,
    file: &str,
    layout: RowLayout<'_>,
    condition: &str,
    shows: Shows,
    output: &mut W,
) -> Result<u8, Fault> {
    let alloc = rt.alloc();
    let columns = columns_of(alloc, layout.columns)?;
    let format = Format {
        delimiter: layout.delimiter,
        columns: columns.as_ref().map(|columns| columns.as_slice()),
        is_json: layout.is_json,
    };
    if file == STANDARD_INPUT {
        return Ok(print_filter(alloc, rt.reader(), &format, condition, shows, output)?);
    }
    let input = File::open(rt, file).map_err(files_text::Fault::Input)?;
    Ok(print_filter(alloc, input, &format, condition, shows, output)?)
}

/// Reads the input of a task, and writes what it asks for. Returns the status.
fn write_task<R: Files + Input + Eprint + AllocGlobal, W: Write>(
    rt: &R,
    task: &Task<'_>,
    text: &[u8],
    output: &mut W,
) -> Result<u8, Fault> {
    let alloc = rt.alloc();
    match task {
        Task::Grammar { file, states, form } => {
            let grammar = read_grammar(rt, text, file)?;
            match form {
                Some(form) => write_form(rt, &grammar, shown_name(file), *form, output),
                None => Ok(print_grammar(alloc, &grammar, *states, output)?),
            }
        }
        Task::Parse { grammar, form, .. } => {
            let read = fs::read(rt, grammar).map_err(Fault::GrammarInput)?;
            let grammar = read_grammar(rt, &read, grammar)?;
            Ok(print_parse(alloc, &grammar, text, *form, output)?)
        }
        Task::Closure {
            said,
            part,
            form,
            ..
        } => Ok(print_closure(alloc, text, *said, *part, *form, output)?),
        Task::Flow {
            said,
            analysis,
            form,
            ..
        } => Ok(print_flow(alloc, text, *said, *analysis, *form, output)?),
        Task::Filter {
            file,
            layout,
            condition,
            shows,
        } => filter(rt, file, *layout, condition, *shows, output),
    }
}

/// Reads the input of a task, but for a table, and writes what the task asks for. Returns the status.
/// What was written before a fault stays.
fn perform<R: Files + Input + Print + Eprint + Clock + AllocGlobal>(
    rt: &R,
    task: &Task<'_>,
    says: bool,
) -> Result<u8, Fault> {
    let alloc = rt.alloc();
    let text = match task {
        Task::Filter { .. } => Vec::new(alloc),
        _ => read_input(rt, task.file()).map_err(files_text::Fault::Input)?,
    };
    let mut output = BufWriter::new(alloc, Watched::new(rt, says, text.len()))?;
    let status = write_task(rt, task, &text, &mut output);
    output.flush()?;
    status
}

/// The mark with which a text in UTF-8 may begin.
const UTF8_MARK: &[u8] = &[0xef, 0xbb, 0xbf];

/// Returns the line that a fault is in, with a mark below the place. There is none if the fault has no
/// place, or is at the end of a file, or in standard input, which can't be read again.
fn marked_line<R: Files + AllocGlobal>(
    rt: &R,
    task: &Task<'_>,
    fault: &Fault,
) -> io::Result<Option<String>> {
    let alloc = rt.alloc();
    if let (Some(condition), Some(column)) = (task.condition(), fault.column_of_condition()) {
        return Ok(Some(marked(alloc, condition.as_bytes(), column)?));
    }
    let file = task.file_with(fault);
    let Some((line, column)) = fault.place() else {
        return Ok(None);
    };
    if file == STANDARD_INPUT {
        return Ok(None);
    }
    let text = read_line(rt, file, line)?;
    if text.is_empty() {
        return Ok(None);
    }
    // the columns of a table are counted from behind its mark
    let own = match task {
        Task::Filter { .. } if line == 1 => text.strip_prefix(UTF8_MARK).unwrap_or(&text),
        _ => &text,
    };
    Ok(Some(marked(alloc, own, column)?))
}

/// Performs a task, and says on standard error why it failed.
fn perform_or_report<R: Files + Input + Print + Eprint + Clock + AllocGlobal>(
    rt: &R,
    task: &Task<'_>,
    extras: Extras,
) -> u8 {
    match perform(rt, task, extras.progress) {
        Ok(status) => status,
        Err(fault) if fault.is_closed_pipe() => 0,
        Err(fault) => {
            let report = Report {
                file: task.file_name(&fault),
                fault: &fault,
            };
            let _ = eprintln!(rt; "conthiral: {report}");
            if extras.marks
                && let Ok(Some(line)) = marked_line(rt, task, &fault)
            {
                let _ = eprintln!(rt; "{line}");
            }
            FAILED
        }
    }
}

/// Does what the words of the command line ask for. Returns the status: 0, or 1 if a quiet filter
/// keeps no row, or 2 after a fault. A reader of the output that goes away is no fault.
pub fn run<R: Env + Files + Input + Print + Eprint + Clock + AllocGlobal>(
    rt: &R,
    extras: Extras,
) -> ExitCode {
    let status = match run_words(rt, extras) {
        Ok(status) => status,
        Err(error) if error.kind() == io::ErrorKind::BrokenPipe => 0,
        Err(error) => {
            let _ = eprintln!(rt; "conthiral: {error}");
            FAILED
        }
    };
    ExitCode::from(status)
}

/// Does the same, and fails if the words can't be read or their help can't be written.
fn run_words<R: Env + Files + Input + Print + Eprint + Clock + AllocGlobal>(
    rt: &R,
    extras: Extras,
) -> io::Result<u8> {
    let alloc = rt.alloc();
    let words: Vec<String> = env::args(rt)?.collect(alloc)?;
    let matches = match command(alloc)?.try_get_matches_from(words.as_slice()) {
        Ok(matches) => matches,
        Err(error) => {
            error.print(rt)?;
            return Ok(if error.use_stderr() { FAILED } else { 0 });
        }
    };
    match task_of(&matches) {
        Some(task) => Ok(perform_or_report(rt, &task, extras)),
        None => Ok(FAILED),
    }
}

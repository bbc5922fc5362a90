//! The names of a grammar as each form writes them. Bytes that aren't UTF-8 become U+FFFD.

use crate::form::ReportForm;
use files_forms::name_json;
use files_grammar::GrammarFile;
use std::alloc::{AllocError, Global};
use vob_lr::Symbol;

/// The names and the types of symbols in a form. Nonterminals that are left out come after the others.
#[derive(Drop)]
pub struct Shown {
    pub terminals: Vec<String>,
    pub terminal_types: Vec<String>,
    pub nonterminals: Vec<String>,
    pub nonterminal_types: Vec<String>,
}

/// Adds a character of XML. Those that XML has no place for become U+FFFD.
fn add_xml(text: &mut String, character: char) -> Result<(), AllocError> {
    match character {
        '&' => text.push_str("&amp;"),
        '<' => text.push_str("&lt;"),
        '>' => text.push_str("&gt;"),
        '"' => text.push_str("&quot;"),
        '\t' => text.push(character),
        '\u{0}'..='\u{1f}' | '\u{fffe}' | '\u{ffff}' => text.push('\u{fffd}'),
        _ => text.push(character),
    }
}

/// Adds a character of a label of DOT.
fn add_dot(text: &mut String, character: char) -> Result<(), AllocError> {
    if matches!(character, '"' | '\\') {
        text.push('\\')?;
    }
    text.push(character)
}

/// Returns a name in a form: in JSON with its quotes, else what stands between them.
pub fn shown_name(alloc: Global, form: ReportForm, name: &[u8]) -> Result<String, AllocError> {
    if form == ReportForm::Json {
        return name_json(alloc, name);
    }
    let lossy = String::from_utf8_lossy(alloc, name)?;
    let mut text = String::new(alloc);
    for character in lossy.chars() {
        match form {
            ReportForm::Xml => add_xml(&mut text, character)?,
            _ => add_dot(&mut text, character)?,
        }
    }
    Ok(text)
}

/// Adds names in a form to others.
fn add_names(
    alloc: Global,
    form: ReportForm,
    shown: &mut Vec<String>,
    names: &[Vec<u8>],
) -> Result<(), AllocError> {
    for name in names {
        shown.push(shown_name(alloc, form, name)?)?;
    }
    Ok(())
}

impl Shown {
    /// Returns the names of a file in a form. Fails if memory runs out.
    pub fn of(alloc: Global, form: ReportForm, file: &GrammarFile) -> Result<Shown, AllocError> {
        let mut shown = Shown {
            terminals: Vec::new(alloc),
            terminal_types: Vec::new(alloc),
            nonterminals: Vec::new(alloc),
            nonterminal_types: Vec::new(alloc),
        };
        let details = &file.details;
        add_names(alloc, form, &mut shown.terminals, &file.names.terminals)?;
        add_names(
            alloc,
            form,
            &mut shown.terminal_types,
            &details.terminal_types,
        )?;
        add_names(
            alloc,
            form,
            &mut shown.nonterminals,
            &file.names.nonterminals,
        )?;
        add_names(
            alloc,
            form,
            &mut shown.nonterminal_types,
            &details.nonterminal_types,
        )?;
        for left in file.left_out.nonterminals.iter() {
            shown
                .nonterminals
                .push(shown_name(alloc, form, &left.name)?)?;
            shown
                .nonterminal_types
                .push(shown_name(alloc, form, &left.type_name)?)?;
        }
        Ok(shown)
    }

    /// Returns the name of a terminal.
    pub fn terminal(&self, number: usize) -> &str {
        text_at(&self.terminals, number)
    }

    /// Returns the name of a nonterminal.
    pub fn nonterminal(&self, number: usize) -> &str {
        text_at(&self.nonterminals, number)
    }

    /// Returns the name of a symbol.
    pub fn symbol(&self, symbol: Symbol) -> &str {
        match symbol {
            Symbol::Terminal(number) => self.terminal(number),
            Symbol::Nonterminal(number) => self.nonterminal(number),
        }
    }
}

/// Returns the text with a number, or nothing if there is none.
pub fn text_at(texts: &[String], number: usize) -> &str {
    match texts.get(number) {
        Some(text) => text.as_str(),
        None => "",
    }
}

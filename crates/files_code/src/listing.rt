//! The symbols and the rules of a grammar as constants and functions of a program.

use crate::constants::constants_of;
use crate::escape::{put_comment, put_string};
use crate::form::Form;
use files_grammar::{GrammarFault, GrammarFile, SymbolNames};
use files_text::end_line;
use std::alloc::Global;
use std::io;
use std::io::Write;
use vob_lr::Rule;
use vob_yacc::character_of;

/// A constant: the name of what it is for, its place among those of the same name, if there are some, and its
/// value.
#[derive(Clone, Copy)]
struct Constant<'a> {
    prefix: &'static str,
    name: &'a [u8],
    place: Option<usize>,
    value: usize,
}

impl Constant<'_> {
    /// Writes its line up to the comment, or what stands for it if it has no name.
    fn put<W: Write>(&self, output: &mut W, form: Form) -> io::Result<()> {
        let Constant { prefix, value, .. } = *self;
        if self.name.is_empty() {
            return write!(output, "    // {value} is ");
        }
        match form {
            Form::C => write!(output, "    {prefix}")?,
            Form::Rust => write!(output, "    pub const {prefix}")?,
        }
        output.write_all(self.name)?;
        if let Some(place) = self.place {
            write!(output, "_{place}")?;
        }
        match form {
            Form::C => write!(output, " = {value}, // "),
            Form::Rust => write!(output, ": usize = {value}; // "),
        }
    }
}

/// Writes a constant for each terminal that is called by a word. All have a line, with the name.
pub fn put_tokens<W: Write>(
    alloc: Global,
    output: &mut W,
    form: Form,
    names: &SymbolNames,
) -> Result<(), GrammarFault> {
    let constants = constants_of(alloc, &names.identifiers)?;
    for (value, name) in constants.iter().enumerate() {
        let constant = Constant {
            prefix: "TOKEN_",
            name,
            place: None,
            value,
        };
        constant.put(output, form)?;
        put_comment(output, names.terminal(value))?;
        end_line(output)?;
    }
    Ok(())
}

/// Writes a rule for a comment.
fn put_rule<W: Write>(output: &mut W, names: &SymbolNames, rule: &Rule) -> io::Result<()> {
    put_comment(output, names.nonterminal(rule.left))?;
    output.write_all(b":")?;
    for symbol in rule.right.iter() {
        output.write_all(b" ")?;
        put_comment(output, names.of(*symbol))?;
    }
    end_line(output)
}

/// Writes a constant for each rule of a nonterminal that is called by a word. All have a line, with the rule.
pub fn put_rules<W: Write>(
    alloc: Global,
    output: &mut W,
    form: Form,
    file: &GrammarFile,
) -> Result<(), GrammarFault> {
    let constants = constants_of(alloc, &file.names.nonterminals)?;
    let mut counts = Vec::new(alloc);
    counts.resize(constants.len(), 0usize)?;
    for (value, rule) in file.grammar.rules.iter().enumerate() {
        let (Some(name), Some(count)) = (constants.get(rule.left), counts.get_mut(rule.left)) else {
            continue;
        };
        *count = count.saturating_add(1);
        let constant = Constant {
            prefix: "RULE_",
            name,
            place: Some(*count),
            value,
        };
        constant.put(output, form)?;
        put_rule(output, &file.names, rule)?;
    }
    Ok(())
}

/// Writes the case of a terminal that is a character in quotes, if it is one.
fn put_character<W: Write>(
    output: &mut W,
    form: Form,
    names: &SymbolNames,
    identifier: &[u8],
    token: usize,
) -> io::Result<()> {
    let (Some(b'\''), Some(character)) = (identifier.first(), character_of(identifier)) else {
        return Ok(());
    };
    match form {
        Form::C => write!(output, "    case {character}: return {token}; // ")?,
        Form::Rust => write!(output, "        {character} => Some({token}), // ")?,
    }
    put_comment(output, names.terminal(token))?;
    end_line(output)
}

/// Writes the cases of the characters in quotes.
pub fn put_characters<W: Write>(output: &mut W, form: Form, names: &SymbolNames) -> io::Result<()> {
    for (token, identifier) in names.identifiers.iter().enumerate() {
        put_character(output, form, names, identifier, token)?;
    }
    Ok(())
}

/// Writes strings, one a line.
fn put_strings<W: Write>(
    alloc: Global,
    output: &mut W,
    form: Form,
    names: &[Vec<u8>],
) -> io::Result<()> {
    for name in names.iter() {
        output.write_all(b"        ")?;
        put_string(alloc, output, form, name)?;
        output.write_all(b",")?;
        end_line(output)?;
    }
    Ok(())
}

/// Writes the names of the terminals, and then of the nonterminals, as strings.
pub fn put_names<W: Write>(
    alloc: Global,
    output: &mut W,
    form: Form,
    names: &SymbolNames,
) -> io::Result<()> {
    put_strings(alloc, output, form, &names.terminals)?;
    put_strings(alloc, output, form, &names.nonterminals)
}

//! The symbols that a grammar file names, in the order of their declarations.

use crate::literal::character_name;
use crate::text_error::{Stop, TextFault};
use indexmap::IndexMap;
use std::alloc::Global;
use vob_lr::{Precedence, Symbol};

/// The entry of `error`.
const ERROR: usize = 1;

/// How many entries each grammar has: the end, `error`, and the nonterminal above the start.
const PREDEFINED: usize = 3;

/// What a symbol is.
#[derive(Clone, Copy, PartialEq, Eq)]
enum Class {
    Unknown,
    Terminal,
    Nonterminal,
}

/// A symbol: the name by which it is shown, and what the file says of it. `replaced` is the name that a text
/// took the place of, `tag` its type. `at` is where it is declared, or else named first. One with two names may have had two
/// entries: then `same` is the number of the one that counts.
#[derive(Drop)]
struct Entry {
    name: Vec<u8>,
    replaced: Option<Vec<u8>>,
    tag: Option<Vec<u8>>,
    at: usize,
    class: Class,
    same: usize,
    has_text: bool,
    is_used: bool,
    is_declared: bool,
    has_rule: bool,
    precedence: Option<(Precedence, usize)>,
    code: Option<usize>,
}

/// The symbols so far. Each has an entry, and goes by its number.
#[derive(Drop)]
pub(crate) struct Symbols<'a> {
    by_name: IndexMap<&'a [u8], usize>,
    by_character: IndexMap<u8, usize>,
    by_code: IndexMap<usize, usize>,
    entries: Vec<Entry>,
    actions: usize,
    end: usize,
}

/// The symbols of a whole file: what each entry is, the names of terminals, those without texts in quotes,
/// their types, the numbers that the file gives them and their precedences, and the names of nonterminals,
/// their types and where each is named first.
#[derive(Drop)]
pub(crate) struct Numbered {
    symbols: Vec<Option<Symbol>>,
    pub terminals: Vec<Vec<u8>>,
    pub identifiers: Vec<Vec<u8>>,
    pub types: Vec<Vec<u8>>,
    pub codes: Vec<Option<usize>>,
    pub nonterminals: Vec<Vec<u8>>,
    pub nonterminal_types: Vec<Vec<u8>>,
    pub places: Vec<usize>,
    pub precedences: Vec<Option<Precedence>>,
}

/// The refusal of a symbol at a place.
fn refused(at: usize, fault: TextFault) -> Stop {
    Stop { at, fault }
}

impl<'a> Symbols<'a> {
    /// Returns the symbols that each grammar has: the end, `error`, and the nonterminal above the start.
    pub(crate) fn new(alloc: Global) -> Result<Symbols<'a>, Stop> {
        let mut symbols = Symbols {
            by_name: IndexMap::new(alloc),
            by_character: IndexMap::new(alloc),
            by_code: IndexMap::new(alloc),
            entries: Vec::new(alloc),
            actions: 0,
            end: 0,
        };
        symbols.terminal(alloc, b"$end", 0)?;
        symbols.terminal(alloc, b"error", 0)?;
        symbols.nonterminal(alloc, b"$accept", 0)?;
        Ok(symbols)
    }

    /// Returns the number of the entry that counts for an entry.
    fn own(&self, entry: usize) -> usize {
        self.entries.get(entry).map_or(entry, |own| own.same)
    }

    /// Returns an entry.
    fn entry(&mut self, entry: usize) -> Option<&mut Entry> {
        let own = self.own(entry);
        self.entries.get_mut(own)
    }

    /// Adds an entry.
    fn add(&mut self, name: Vec<u8>, at: usize) -> Result<usize, Stop> {
        let number = self.entries.len();
        self.entries.push(Entry {
            name,
            replaced: None,
            tag: None,
            at,
            class: Class::Unknown,
            same: number,
            has_text: false,
            is_used: false,
            is_declared: false,
            has_rule: false,
            precedence: None,
            code: None,
        })?;
        Ok(number)
    }

    /// Returns the symbol with a name, of which nothing need be known.
    pub(crate) fn named(
        &mut self,
        alloc: Global,
        name: &'a [u8],
        at: usize,
    ) -> Result<usize, Stop> {
        if let Some(entry) = self.by_name.get(name) {
            return Ok(*entry);
        }
        let entry = self.add(name.to_vec(alloc)?, at)?;
        self.by_name.insert(name, entry)?;
        Ok(entry)
    }

    /// Makes a symbol a terminal or a nonterminal, if it isn't yet. Fails if it is the other.
    fn classify(&mut self, entry: usize, class: Class, at: usize) -> Result<(), Stop> {
        match self.entry(entry) {
            Some(own) if own.class == Class::Unknown => own.class = class,
            Some(own) if own.class != class => {
                return Err(refused(at, TextFault::NotANonterminal));
            }
            _ => {}
        }
        Ok(())
    }

    /// Notes that a symbol is declared at `at`. Its first declaration counts for its place, and for a
    /// nonterminal its first rule.
    pub(crate) fn note_declaration(&mut self, entry: usize, at: usize, is_rule: bool) {
        if let Some(own) = self.entry(entry) {
            let has_place = if is_rule {
                &mut own.has_rule
            } else {
                &mut own.is_declared
            };
            if !*has_place {
                *has_place = true;
                own.at = at;
            }
        }
    }

    /// Returns the terminal with a name.
    pub(crate) fn terminal(
        &mut self,
        alloc: Global,
        name: &'a [u8],
        at: usize,
    ) -> Result<usize, Stop> {
        let entry = self.named(alloc, name, at)?;
        self.classify(entry, Class::Terminal, at)?;
        Ok(entry)
    }

    /// Returns the nonterminal with a name.
    pub(crate) fn nonterminal(
        &mut self,
        alloc: Global,
        name: &'a [u8],
        at: usize,
    ) -> Result<usize, Stop> {
        let entry = self.named(alloc, name, at)?;
        self.classify(entry, Class::Nonterminal, at)?;
        Ok(entry)
    }

    /// Returns the terminal that a character is. Its code is the character.
    pub(crate) fn character(
        &mut self,
        alloc: Global,
        character: u8,
        at: usize,
    ) -> Result<usize, Stop> {
        if let Some(entry) = self.by_character.get(&character) {
            return Ok(*entry);
        }
        let entry = self.add(character_name(alloc, character)?, at)?;
        self.by_character.insert(character, entry)?;
        self.classify(entry, Class::Terminal, at)?;
        self.set_code(entry, character as usize, at, at)?;
        Ok(entry)
    }

    /// Returns a new nonterminal for an action within a rule.
    pub(crate) fn action(&mut self, alloc: Global, at: usize) -> Result<usize, Stop> {
        self.actions = self.actions.saturating_add(1);
        let actions = self.actions;
        let name = format!(in alloc; "$@{actions}")?;
        let entry = self.add(name.as_bytes().to_vec(alloc)?, at)?;
        self.classify(entry, Class::Nonterminal, at)?;
        Ok(entry)
    }

    /// Notes that the value of an action within a rule is named: bison calls it by `@` and its number then.
    pub(crate) fn note_value(&mut self, alloc: Global, entry: usize) -> Result<(), Stop> {
        if let Some(own) = self.entry(entry) {
            if let [b'$', name @ ..] = own.name.as_slice() {
                own.name = name.to_vec(alloc)?;
            }
        }
        Ok(())
    }

    /// Gives a symbol a type, if there is one. Fails at `at` if it has one.
    pub(crate) fn set_type(
        &mut self,
        alloc: Global,
        entry: usize,
        tag: &[u8],
        at: usize,
    ) -> Result<(), Stop> {
        if tag.is_empty() {
            return Ok(());
        }
        let Some(own) = self.entry(entry) else {
            return Ok(());
        };
        if own.tag.is_some() {
            return Err(refused(at, TextFault::Redeclared));
        }
        own.tag = Some(tag.to_vec(alloc)?);
        Ok(())
    }

    /// Notes that a rule has a symbol.
    pub(crate) fn note_use(&mut self, entry: usize) {
        if let Some(own) = self.entry(entry) {
            own.is_used = true;
        }
    }

    /// Gives a terminal the code at `code_at`, by which a scanner knows it. That with code 0 is the end.
    /// Fails there if it has another, and at `at` if another terminal has the code.
    pub(crate) fn set_code(
        &mut self,
        entry: usize,
        code: usize,
        at: usize,
        code_at: usize,
    ) -> Result<(), Stop> {
        let entry = self.own(entry);
        match self.entry(entry).and_then(|own| own.code.replace(code)) {
            Some(other) if other != code => return Err(refused(code_at, TextFault::Redeclared)),
            Some(_) => return Ok(()),
            None => {}
        }
        if let Some(other) = self.by_code.get(&code) {
            if self.own(*other) != entry {
                return Err(refused(at, TextFault::CodeTaken));
            }
        }
        self.by_code.insert(code, entry)?;
        if code == 0 {
            self.end = entry;
        }
        Ok(())
    }

    /// Gives a terminal a precedence that is declared at `at`. Fails there if it has one.
    pub(crate) fn set_precedence(
        &mut self,
        entry: usize,
        precedence: Precedence,
        at: usize,
    ) -> Result<(), Stop> {
        match self.entry(entry) {
            Some(own) if own.precedence.is_some() => Err(refused(at, TextFault::Redeclared)),
            Some(own) => {
                own.precedence = Some((precedence, at));
                Ok(())
            }
            None => Ok(()),
        }
    }

    /// Lets a terminal go by a quoted text too, which it is shown as. A text that another terminal has
    /// stays with that one, and a terminal keeps the first of two texts. Fails where the second
    /// precedence is declared if both have one.
    pub(crate) fn add_text(
        &mut self,
        alloc: Global,
        entry: usize,
        text: usize,
    ) -> Result<(), Stop> {
        let entry = self.own(entry);
        if self.own(text) == entry || self.has_text(entry) || self.has_text(text) {
            return Ok(());
        }
        let mut name = Vec::new(alloc);
        let mut tag = None;
        let mut precedence = None;
        if let Some(other) = self.entries.get_mut(text) {
            name = std::mem::replace(&mut other.name, name);
            tag = other.tag.take();
            precedence = other.precedence;
            other.same = entry;
        }
        let Some(own) = self.entries.get_mut(entry) else {
            return Ok(());
        };
        own.replaced = Some(std::mem::replace(&mut own.name, name));
        own.has_text = true;
        if own.tag.is_none() {
            own.tag = tag;
        }
        own.precedence = match (own.precedence, precedence) {
            (Some((_, at)), Some((_, other_at))) => {
                return Err(refused(at.max(other_at), TextFault::Redeclared));
            }
            (one, other) => one.or(other),
        };
        Ok(())
    }

    /// Whether a symbol goes by a name and a text.
    fn has_text(&self, entry: usize) -> bool {
        match self.entries.get(self.own(entry)) {
            Some(own) => own.has_text,
            None => false,
        }
    }

    /// Returns the entries in the order of their places, those that each grammar has first. Makes symbols
    /// that are named, and are nothing else, nonterminals. Fails at the first of them that a rule has.
    fn in_order(&mut self, alloc: Global) -> Result<Vec<usize>, Stop> {
        let mut order = Vec::new(alloc);
        for (number, entry) in self.entries.iter().enumerate() {
            // The place is the second key, so that those of each grammar stay first.
            order.push((number >= PREDEFINED, entry.at, number))?;
        }
        order.sort()?;
        let order: Vec<usize> = order.iter().map(|(_, _, number)| *number).collect(alloc)?;
        self.settle(&order)?;
        Ok(order)
    }

    /// Makes symbols that are named, and are nothing else, nonterminals. Fails at the first of them, in
    /// an order, that a rule has.
    fn settle(&mut self, order: &[usize]) -> Result<(), Stop> {
        for number in order.iter() {
            if let Some(entry) = self.entries.get_mut(*number) {
                entry.settle()?;
            }
        }
        Ok(())
    }

    /// Numbers terminals, and nonterminals, in the order of their places; the end is the first terminal.
    /// Fails at the first symbol of a rule that is neither.
    pub(crate) fn numbered(mut self, alloc: Global) -> Result<Numbered, Stop> {
        let order = self.in_order(alloc)?;
        let mut numbered = Numbered {
            symbols: Vec::new(alloc),
            terminals: Vec::new(alloc),
            identifiers: Vec::new(alloc),
            types: Vec::new(alloc),
            codes: Vec::new(alloc),
            nonterminals: Vec::new(alloc),
            nonterminal_types: Vec::new(alloc),
            places: Vec::new(alloc),
            precedences: Vec::new(alloc),
        };
        numbered.symbols.resize(self.entries.len(), None)?;
        let end = self.own(self.end);
        numbered.add(alloc, end, &self.entries)?;
        for number in order {
            // The end that each grammar has is no terminal if the file names another.
            if number > 0 {
                numbered.add(alloc, self.own(number), &self.entries)?;
            }
        }
        numbered.repeat_all(&self.entries);
        Ok(numbered)
    }
}

impl Entry {
    /// Returns the type, or nothing if there is none.
    fn tag_bytes(&self) -> &[u8] {
        match &self.tag {
            Some(tag) => tag.as_slice(),
            None => &[],
        }
    }

    /// Makes the symbol a nonterminal if it is nothing else. Fails if a rule has it.
    fn settle(&mut self) -> Result<(), Stop> {
        if self.class == Class::Unknown {
            if self.is_used {
                return Err(refused(self.at, TextFault::Undefined));
            }
            self.class = Class::Nonterminal;
        }
        Ok(())
    }
}

impl Numbered {
    /// Returns the symbol that an entry is.
    pub(crate) fn symbol(&self, entry: usize) -> Option<Symbol> {
        self.symbols.get(entry).copied().flatten()
    }

    /// Returns the terminal `error`.
    pub(crate) fn error(&self) -> usize {
        match self.symbol(ERROR) {
            Some(Symbol::Terminal(error)) => error,
            _ => ERROR,
        }
    }

    /// Numbers an entry, unless it has a number.
    fn add(&mut self, alloc: Global, number: usize, entries: &[Entry]) -> Result<(), Stop> {
        let Some(entry) = entries.get(number) else {
            return Ok(());
        };
        if self.symbol(number).is_some() {
            return Ok(());
        }
        let name = entry.name.to_vec(alloc)?;
        let tag = entry.tag_bytes().to_vec(alloc)?;
        let symbol = if entry.class == Class::Terminal {
            let precedence = entry.precedence.map(|(precedence, _)| precedence);
            let identifier = entry.replaced.as_ref().unwrap_or(&entry.name);
            self.precedences.push(precedence)?;
            self.codes.push(entry.code)?;
            self.types.push(tag)?;
            self.identifiers.push(identifier.to_vec(alloc)?)?;
            self.terminals.push(name)?;
            Symbol::Terminal(self.terminals.len().saturating_sub(1))
        } else {
            self.places.push(entry.at)?;
            self.nonterminal_types.push(tag)?;
            self.nonterminals.push(name)?;
            Symbol::Nonterminal(self.nonterminals.len().saturating_sub(1))
        };
        self.put(number, symbol);
        Ok(())
    }

    /// Gives an entry a number.
    fn put(&mut self, number: usize, symbol: Symbol) {
        if let Some(slot) = self.symbols.get_mut(number) {
            *slot = Some(symbol);
        }
    }

    /// Gives each entry the number of the one that counts for it.
    fn repeat_all(&mut self, entries: &[Entry]) {
        for (number, entry) in entries.iter().enumerate() {
            if let Some(symbol) = self.symbol(entry.same) {
                self.put(number, symbol);
            }
        }
    }
}
